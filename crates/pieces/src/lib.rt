// Input that comes in pieces, cut anywhere: what a run over it is (specs/Run), what a run promises (specs/Promise), and the functions that find its
// lines.
#![tactic(auto)]

mod next_lines; // the next line of a piece
mod line_ends; // where a line ends
mod joining; // the pending line: its bytes, which are held from piece to piece
mod final_answers; // whether an answer is final, and so ends a run

pub use final_answers::is_final;
pub use joining::{Joined, Pending};
pub use next_lines::{NextLine, next_line};
