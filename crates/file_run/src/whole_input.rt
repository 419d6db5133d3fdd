// A run over an input that is lent whole.
ghost use Rattle.file_run.specs.PrintedSheets.{SheetOf, NccWithin};

use run::begin;
use sheet::{Printed, text};

// The text of the sheet of an input: a record is opened, the input is its only piece, and then it ends.
pub fn sheet_of(input: &[u8]) -> Printed
    ensures sheet { SheetOf result input.now }
    ensures ncc { NccWithin result input.now }
{
    let mut near = [0u32; 15200];
    let mut far = [0u32; 15200];
    let mut slots = [0u16; 30400];
    let mut daily = [0u32; 4392];
    let mut curve = [0u64; 4400];
    let mut own_run = begin(&mut near, &mut far, &mut slots, &mut daily, &mut curve);
    own_run.feed(input, &mut near, &mut far, &mut slots, &mut daily, &curve);
    let closed = own_run.finish(&mut near, &mut far, &mut slots, &mut daily, &mut curve);
    text(closed.answer, closed.years)
}
