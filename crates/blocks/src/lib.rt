// The lent blocks of points, profile values and daily sums: where a year's row stands in them, and what a line stores.
#![tactic(auto)]

mod lent; // the blocks that a close reads
mod year_rows; // a year's row of points: a part of the near or of the far block
mod day_values; // the 20 values of a line, stored in a year's row
mod point_rows; // the points of a C line, stored in its year's row
mod stores; // the profile values of a P line and the sum of a D line, stored

pub use lent::ReadBlocks;
pub use point_rows::put_points;
pub use stores::{put_profiles, put_sum};
pub use year_rows::row;

// A missing point, as the near and the far block hold it: a code of document 01's lent blocks, where no Option can stand.
pub const NO_POINT: u32 = 4_294_967_295;

// A missing entry of the curve, a code of the lent block too.
pub const NO_ENTRY: u64 = 18_446_744_073_709_551_615;

// The half-hours of a day, and the places of a year's row: 152 winter days.
pub const HALF_HOURS: usize = 20;

pub const ROW: usize = 3040;
