// 1 on one number of a year, and on one last date.
mod by_year; // the numbers of each year
mod last_dates; // the last date or year of a tag

pub(crate) use by_year::each_year;
pub(crate) use last_dates::{date_fits, year_fits};
