// A line of a file: 1 and 13, then what it does to an open record, whatever its tag.
mod outcome; // what a line returns, and the reading that it stores
mod lines; // the outcome of a line: 1 and 13, then the step

pub use lines::apply_line;
pub use outcome::LineOutcome;
