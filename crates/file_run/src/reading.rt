// Reads a reader up to the run's final answer or the input's end.
ghost use Rattle.std.specs.Prelude.{IfOk, IfSome};
ghost use Rattle.std.specs.Io.{ReadsAtMost};
ghost use Rattle.std.specs.Io.KnownBytes.{ReadConsumes};
ghost use Rattle.readings.specs.Readings.{readings_view};
ghost use Rattle.readings.specs.Columns.{lent_blocks};
ghost use Rattle.run.specs.RunViews.{run_view};
ghost use Rattle.file_run.specs.PrintedSheets.{SheetOf, PrintsSheet};
ghost use Rattle.file_run.specs.ReadEnds.{ReadOn};

use crate::ends::{End, FileResult};
use pieces::is_final;
use run::{OwnRun, begin};
use sheet::text;
use std::io;
use std::io::Read;

// One more than the bytes after which a run has its final answer: 8,032 lines of 321. Each read but the last brings one or more.
const TURNS: u64 = 2_578_273;

// Reads to the start of `buf`. A function of its own, so that its clauses say apart what a read that fails and one at the end leave.
fn read_piece<R: Read>(reader: &mut R, buf: &mut [u8]) -> io::Result<usize>
    ensures bound { ReadsAtMost result buf.new }
    ensures bytes { ReadConsumes (R.remaining reader.old) (R.remaining reader.new) result buf.new }
{
    reader.read(buf)
}

// Feeds a run what a reader gives, up to its final answer or the input's end. The blocks are lent as further parameters, as at the record's calls,
// to which they are only handed on: the arrays of `run`, in a struct with it, would be no plainer.
fn read_on<R: Read>(
    reader: &mut R,
    own_run: &mut OwnRun,
    near: &mut [u32],
    far: &mut [u32],
    slots: &mut [u16],
    daily: &mut [u32],
    curve: &[u64],
) -> io::Result<End>
    ensures { IfOk result (λ e. ReadOn (R.remaining reader.old) (R.remaining reader.new) (run_view own_run.old.run (lent_blocks near.old far.old slots.old daily.old (readings_view own_run.old.readings) curve.now)) (run_view own_run.new.run (lent_blocks near.new far.new slots.new daily.new (readings_view own_run.new.readings) curve.now)) e) }
{
    let mut buf = [0u8; 65536];
    for _ in 0..TURNS {
        let bytes = read_piece(reader, &mut buf)?;
        if bytes == 0 {
            return Ok(End::Input);
        }
        own_run.feed(&buf[..bytes], near, far, slots, daily, curve);
        if is_final(own_run.run.call.answer) {
            break;
        }
    }
    Ok(End::Answer)
}

// The sheet of what a reader gives; its error where a read fails. Where the reader's bytes are known, the sheet is that of all of them.
pub fn run<R: Read>(reader: &mut R) -> io::Result<FileResult>
    ensures sheet { IfOk result (λ r. PrintsSheet r.end r.printed) }
    ensures known { IfOk result (λ r. IfSome (R.remaining reader.old) (λ bs. SheetOf r.printed bs)) }
{
    let mut near = [0u32; 15200];
    let mut far = [0u32; 15200];
    let mut slots = [0u16; 30400];
    let mut daily = [0u32; 4392];
    let mut curve = [0u64; 4400];
    let mut own_run = begin(&mut near, &mut far, &mut slots, &mut daily, &mut curve);
    let end = read_on(
        reader,
        &mut own_run,
        &mut near,
        &mut far,
        &mut slots,
        &mut daily,
        &curve,
    )?;
    let closed = own_run.finish(&mut near, &mut far, &mut slots, &mut daily, &mut curve);
    let printed = text(closed.answer, closed.years);
    Ok(FileResult { end, printed })
}
