// The refusals 15, 16 and 17 of a close (document 01, Stops that come from the state).
mod daily; // 16 on daily sums, over the intervals from which a year is profiled
mod dates; // 15, over the dates of each year
mod first; // all of them, in order of checking
mod profiled; // the valid-index years, and the intervals from which they are profiled
mod profiles; // 16 on profiles
mod totals; // 17, over the same intervals

pub use first::data_refusal;
pub use profiled::ProfiledYears;
