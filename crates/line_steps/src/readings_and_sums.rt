// X and D lines: the refusals 4 to 12, and what an accepted line changes. The caller stores the reading.
mod checks; // the refusals: a date of an axis year, and a number
mod changes; // the changes: the progress, and a daily sum at its position

pub(crate) use changes::{daily_line, reading_line};
