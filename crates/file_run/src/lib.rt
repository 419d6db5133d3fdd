// A run from opening to sheet: over an input that is lent whole, or over what a reader gives, read in pieces up to the run's final answer or the
// input's end.
#![tactic(auto)]

mod whole_input; // an input that is lent whole
mod reading; // the loop over what is read
mod ends; // what a run over a reader returns, and its writing

pub use ends::{End, FileResult, write};
pub use reading::run;
pub use whole_input::sheet_of;
