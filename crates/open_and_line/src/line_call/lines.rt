// A line of a file, on a record in any state.
ghost use Rattle.std.specs.Prelude.{◌≡◌};
ghost use Rattle.meaning.specs.Calls.{line_of};
ghost use Rattle.progress.specs.ProgressViews.{rec_of};
ghost use Rattle.readings.specs.Readings.{readings_view};
ghost use Rattle.readings.specs.Columns.{lent_blocks};
ghost use Rattle.open_and_line.specs.LineOutcomes.{line_outcome_view};

use crate::line_call::outcome::{LineOutcome, counted, refused, store};
use answers::{Lengths, line_refusal};
use line_steps::take_line;
use progress::{Progress, State};
use readings::Reading;

// The outcome of a line, by the parts of a record. 1 and 13 come first, and leave the record. The reading of an accepted X line goes to the next place
// of the list, after those that the record counts.
// Document 01 has the lent blocks as further parameters, and the record comes by its parts, since its type stands with its calls, above.
pub fn apply_line(
    state: State,
    count: u64,
    progress: &mut Progress,
    line: &[u8],
    near: &mut [u32],
    far: &mut [u32],
    slots: &mut [u16],
    daily: &mut [u32],
    readings: &mut [Reading],
    curve: &[u64],
) -> LineOutcome
    ensures { line_outcome_view result progress.new (lent_blocks near.new far.new slots.new daily.new (readings_view readings.new) curve.now) ≡ line_of (rec_of state count progress.old) line.now (lent_blocks near.old far.old slots.old daily.old (readings_view readings.old) curve.now) }
{
    let lengths = Lengths {
        near: near.len(),
        far: far.len(),
        slots: slots.len(),
        daily: daily.len(),
        readings: readings.len(),
        curve: curve.len(),
    };
    match line_refusal(state, count, progress, lengths) {
        Err(refusal) => refused(state, count, refusal),
        Ok(()) => {
            let place = progress.readings as usize;
            let taken = take_line(progress, count, line, near, far, slots, daily);
            store(taken, place, readings);
            counted(count, taken)
        }
    }
}
