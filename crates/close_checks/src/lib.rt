// The refusals of a close before its points are computed: 1 on the contents of the lent blocks, and 15, 16 and 17 on data that are missing or 0.
#![tactic(auto)]

mod day_contents; // 1 on the 20 points, or profile values, of a day
mod contents; // 1 on points, profile values, daily sums and counted readings
mod missing_data; // 15, 16 and 17

pub use contents::contents_fit;
pub use missing_data::{ProfiledYears, data_refusal};
