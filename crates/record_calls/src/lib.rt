// THE RECORD of a site and its calls: opening it, taking the lines of its file, closing it, with every block lent.
//
// Each call takes the record and hands it back, with the lent blocks as further parameters, as document 01 has them. What it promises is one equation:
// answer, record and all lent lists are what the definitions of document 01 say of the record and the lists that it got.
//
// The work of a call is a function of the record's parts and the lent blocks, in a crate below: methods stand in the crate of their type alone.
#![tactic(auto)]

mod calls; // opening, line and close
mod fresh; // a record never opened, and one just opened

use answers::Answer;
use close::YearRow;
use progress::{Progress, State};

#[derive(Clone, Copy)]
pub struct Record {
    pub state: State,
    // lines taken so far
    pub count: u64,
    // what those lines gave
    pub progress: Progress,
}

#[derive(Clone, Copy)]
pub struct CallResult {
    pub record: Record,
    pub answer: Answer,
}

// What a close hands back. The years are those of a report, from the oldest on: all 0 past the last, and on a refusal. An array of fixed size, since
// there is no heap.
#[derive(Clone, Copy)]
pub struct CloseResult {
    pub record: Record,
    pub answer: Answer,
    pub years: [YearRow; 10],
}
