// The close.
ghost use Rattle.std.specs.Prelude.{◌≡◌};
ghost use Rattle.meaning.specs.Calls.{close_of};
ghost use Rattle.readings.specs.Readings.{readings_view};
ghost use Rattle.progress.specs.ProgressViews.{rec_of};
ghost use Rattle.close.specs.Lent.{lent_lists};
ghost use Rattle.close.specs.Ends.{close_outcome_view, close_repr};

use crate::ReadBlocks;
use crate::file::close_file;
use crate::first_refusals::close_refusal;
use crate::outcome::{CloseOutcome, close_outcome, refuse, state_after};
use answers::Lengths;
use progress::{Progress, State};
use readings::{Reading, columns_of};

// Closes a record. 1 and 13 leave the state; 14 to 18 mark the record refused. The readings are copied into columns once, which 1 and the close of the
// file read. The record comes by its parts, since its type stands with its calls, above; a struct of state, count and progress would be the record under
// a second name.
pub fn close_blocks(
    state: State,
    count: u64,
    progress: Progress,
    blocks: ReadBlocks,
    readings: &[Reading],
    curve: &mut [u64],
) -> CloseOutcome
    ensures { close_outcome_view result count progress (lent_lists blocks.entry (readings_view readings.now) curve.new) ≡ close_repr (close_of (rec_of state count progress) (lent_lists blocks.entry (readings_view readings.now) curve.old)) }
{
    let lengths = Lengths {
        near: blocks.near.len(),
        far: blocks.far.len(),
        slots: blocks.slots.len(),
        daily: blocks.daily.len(),
        readings: readings.len(),
        curve: curve.len(),
    };
    let columns = columns_of(readings);
    match close_refusal(state, count, progress, lengths, blocks, &columns) {
        Err(refusal) => refuse(state_after(refusal, state), count, refusal),
        Ok(()) => {
            let closing = close_file(progress, blocks, &columns, curve);
            close_outcome(count, progress.site, closing)
        }
    }
}
