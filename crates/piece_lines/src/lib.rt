// All whole lines of a piece of the input, applied to the record one after the other.
//
// The blocks are lent for all lines of a piece at once, as further parameters: so document 01 has them at the record's calls,
// to which they are only handed on, each of any size. A struct of the blocks would be no plainer: those calls take each as a parameter of its own.
#![tactic(auto)]

mod all_lines; // the loop over a piece's lines

pub use all_lines::{AppliedLines, apply_lines};
