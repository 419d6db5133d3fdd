// A run over the input of one filing: opened, fed piece by piece, ended. It keeps the record, its answer, the readings and the pending line.
//
// What each function promises is one equation with the run of the definitions (`pieces`, specs/Run). The readings are the run's own, an array
// since there is no heap. The other blocks are lent as further parameters, as document 01 has them at the record's calls. No form is plainer:
// each function only hands them on to those calls, which take every block as a parameter of its own, of any size; arrays in the run would ask for the
// right size.
#![tactic(auto)]

mod first_run; // a run at its start, on a record that is opened
mod feeding; // a piece: the pending line, and the lines after it
mod lines; // the lines of a piece when no line is pending
mod finishing; // the end: a last line without its byte 10, then the close

pub use first_run::begin;
use pieces::Pending;
use readings::Reading;
use record_calls::CallResult;

// What the record's last call returned, and the pending line.
#[derive(Clone, Copy)]
pub struct Run {
    pub call: CallResult,
    pub pending: Pending,
}

// A run with its readings.
#[derive(Clone, Copy)]
pub struct OwnRun {
    pub run: Run,
    pub readings: [Reading; 600],
}
