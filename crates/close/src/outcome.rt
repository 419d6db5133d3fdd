// The result of a close: the answer, the record's state and the years of a report (document 01, Calls and the lines of a file).
//
// Only the record's state is returned: a close changes nothing else in it.
mod file; // the report of a file
mod call; // the result of the call

pub use call::CloseOutcome;
pub(crate) use call::{close_outcome, refuse, state_after};
pub(crate) use file::{FileReport, NO_YEAR};
pub use file::{NO_YEARS, YearRow};
