// S and E lines: the refusals 4 to 12, and what an accepted line changes, the progress only.
mod checks; // the refusals
mod changes; // the changes

pub(crate) use changes::{end_line, site_line};
