// The close, on the lent blocks and the parts of a record: 1, 13 and 14, then 15 to 18, else level, cases, points present and curve.
#![tactic(auto)]

mod whole; // the close
mod first_refusals; // 1, 13 and 14
mod file; // 15 to 18 and the curve, for a file that 1, 13 and 14 do not refuse
mod report; // the report of a file that is not refused
mod outcome; // the results: answer, state and years

pub use blocks::ReadBlocks;
pub use outcome::{CloseOutcome, NO_YEARS, YearRow};
pub use whole::close_blocks;
