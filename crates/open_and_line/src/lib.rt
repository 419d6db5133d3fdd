// The work of opening and of a line, on the lent blocks and the parts of a record.
#![tactic(auto)]

mod opening; // opening: every block fresh where each has its size, else as it was
mod line_call; // a line: 1 and 13, then 2 to 12 or what the line changes

pub use line_call::{LineOutcome, apply_line};
pub use opening::open_blocks;
