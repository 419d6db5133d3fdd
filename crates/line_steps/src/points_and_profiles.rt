// C and P lines: the refusals 4 to 12, and what an accepted line changes: a row of 20 values at a winter date, and the progress.
mod checks; // the refusals: a winter date of a history year, and 20 values
mod changes; // the changes

pub(crate) use changes::{points_line, profiles_line};
