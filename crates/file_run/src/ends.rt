// What a run over a reader returns, and its writing.
ghost use Rattle.std.specs.Prelude.{OnOk, min, take};
ghost use Rattle.std.specs.Io.KnownBytes.{Appends};

use sheet::Printed;
use std::io;
use std::io::Write;

// What ended a run: its final answer, or the input's end.
#[derive(Clone, Copy)]
pub enum End {
    Answer,
    Input,
}

// What ended the run, which the clause of `run` alone reads, and the sheet's text.
#[derive(Clone, Copy)]
pub struct FileResult {
    pub end: End,
    pub printed: Printed,
}

// Writes a sheet's text.
pub fn write<W: Write>(to: &mut W, printed: Printed) -> io::Result<()>
    ensures { OnOk result (Appends (W.contents to.old) (W.contents to.new) (take (min printed.length 546) printed.bytes)) }
{
    to.write_all(printed.as_bytes())
}
