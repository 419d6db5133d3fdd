// Which years are valid (document 01, Validity): whether a curve year has enough of its peak points, and whether the intervals between readings cover
// an index year.
#![tactic(auto)]

mod curves; // the number of peak points in a year's row, and whether its curve is valid
mod columns; // the readings as columns, and whether the interval between two neighbours has winter days
mod intervals; // whether an index year is valid; the energy and the daily total around each day

pub use columns::Counted;
pub use curves::is_valid;
