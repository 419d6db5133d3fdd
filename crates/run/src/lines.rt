// Lines of a piece when no line is pending.
ghost use Rattle.std.specs.Prelude.{◌≡◌, []};
ghost use Rattle.pieces.specs.Run.{run_of, fed};
ghost use Rattle.readings.specs.Readings.{readings_view};
ghost use Rattle.readings.specs.Columns.{lent_blocks};
ghost use Rattle.record_calls.specs.Views.{call_view};
ghost use Rattle.run.specs.RunViews.{run_view};

use crate::Run;
use piece_lines::apply_lines;
use pieces::Pending;
use readings::Reading;
use record_calls::CallResult;

// The run after the lines of a piece: what is left of the piece is pending.
pub(crate) fn feed_lines(
    call: CallResult,
    piece: &[u8],
    near: &mut [u32],
    far: &mut [u32],
    slots: &mut [u16],
    daily: &mut [u32],
    readings: &mut [Reading],
    curve: &[u64],
) -> Run
    ensures { run_view result (lent_blocks near.new far.new slots.new daily.new (readings_view readings.new) curve.now) ≡ fed (run_of (call_view call (lent_blocks near.old far.old slots.old daily.old (readings_view readings.old) curve.now)) []) piece.now }
{
    let applied = apply_lines(call, piece, near, far, slots, daily, readings, curve);
    Run {
        call: applied.call,
        pending: Pending::of(applied.rest),
    }
}
