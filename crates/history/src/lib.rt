// The history years: which are valid, the case of each (document 01, Cases), CA, and what a winter day needs of each. There is no heap, so each
// array has a place for the ten years of the longest history, from the oldest on. A year that the file does not have is not valid, has case M and no
// default power.
#![tactic(auto)]

mod valid; // valid curves and valid indexes
mod cases; // the case of each year, the first that fits, and which years have default power
mod ca; // CA of each year, and their sum
mod winter_days; // each year on a winter day: energy, daily total and index donor

pub use ca::{cas_from, cas_sum};
pub use cases::{Case, cases_of, default_years};
use rounding::Energy;
pub use valid::valid_years;
pub use winter_days::years_on;

// By history year, whether its curve is valid, and whether its index is. No array of structs: either array is lent whole, since case 2 takes its donors
// from one, 3 and 5 theirs from the other.
#[derive(Clone, Copy)]
pub struct ValidYears {
    pub curves: [bool; 10],
    pub indexes: [bool; 10],
}

// A history year on one winter day: E and daily total of the interval around the day, and whether the year is an index donor. No Option: both
// numbers are those of the day's position, for every year alike; only an index donor is profiled.
#[derive(Clone, Copy)]
pub struct YearOnDay {
    pub energy: Energy,
    pub total: u64,
    pub is_donor: bool,
}
