// Dates and where they stand: which dates there are, their places in a year's rows, the years of a site's history and axis, and positions on the axis.
// 29 February has a place in every year, so that a place is the same date in each.
#![tactic(auto)]

mod dates; // leap years, months, dates and winter
mod year_dates; // how many dates a year has
mod rows; // the places of a year's rows, 0 to 365 for dates and 0 to 151 for winter dates, and which of them a year has
mod places; // the place of a date, and the date at a place
mod spans; // the years of a site's history and axis
mod positions; // the position of a date on the axis, 366 for each year, and back

pub use dates::{is_date, is_leap, is_winter};
pub use places::{date_of_winter, date_place, day_at, winter_day_at, winter_place};
pub use positions::{date_at, position};
pub use rows::{has_date, has_winter_date};
pub use spans::{axis, history, history_length};
pub use year_dates::{all_dates, all_winter_dates};

// Some consecutive years: the first, and how many.
#[derive(Clone, Copy)]
pub struct Years {
    pub first: u64,
    pub count: u64,
}

// A month and its day.
#[derive(Clone, Copy)]
pub struct Day {
    pub month: u64,
    pub day: u64,
}

// A day of one year, as its numbers: `is_date` says whether the year has it.
#[derive(Clone, Copy)]
pub struct Date {
    pub year: u64,
    pub month: u64,
    pub day: u64,
}
