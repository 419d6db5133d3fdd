// The refusals 4 to 12 of a line: the checks in order, and those that several tags share. `line_steps` makes the checks of each tag.
//
// A line comes here after 2 and 3, so its tag is known. A check takes what the line says and what the record holds; the first one that holds refuses the line.
#![tactic(auto)]

mod order; // the checks in order that several tags share, and 4, 6 and 8
mod date_keys; // the date of a line, which may not exist: 7, its key, its winter place and its position
mod value_ranges; // 6 on the 20 values of C and P

pub use date_keys::{position_at, winter_at};
pub use order::{dated_checks, in_order, is_misplaced, is_outside, rising_checks};
pub use value_ranges::{points_outside, profiles_outside};
