// All whole lines of a piece, applied to a record one after the other.
ghost use Rattle.std.specs.Prelude.{◌≡◌, []};
ghost use Rattle.pieces.specs.Run.{run_of, fed};
ghost use Rattle.readings.specs.Readings.{readings_view};
ghost use Rattle.readings.specs.Columns.{lent_blocks};
ghost use Rattle.record_calls.specs.Views.{call_view};

use pieces::{is_final, next_line};
use readings::Reading;
use record_calls::CallResult;

// What the last call returned, and the bytes of the piece that are left pending: none once there is a final answer.
#[derive(Clone, Copy)]
pub struct AppliedLines<'a> {
    pub call: CallResult,
    pub rest: &'a [u8],
}

// Applies the whole lines of a piece after a call, up to a final answer.
pub fn apply_lines<'a>(
    mut call: CallResult,
    piece: &'a [u8],
    near: &mut [u32],
    far: &mut [u32],
    slots: &mut [u16],
    daily: &mut [u32],
    readings: &mut [Reading],
    curve: &[u64],
) -> AppliedLines<'a>
    ensures { run_of (call_view result.call (lent_blocks near.new far.new slots.new daily.new (readings_view readings.new) curve.now)) result.rest.now ≡ fed (run_of (call_view call (lent_blocks near.old far.old slots.old daily.old (readings_view readings.old) curve.now)) []) piece.now }
{
    let mut rest = piece;
    // a `while`, since how many lines the piece has shows only as they are found
    'lines: while !is_final(call.answer) {
        let Some(next) = next_line(rest) else {
            return AppliedLines { call, rest };
        };
        call = call
            .record
            .line(next.line, near, far, slots, daily, readings, curve);
        rest = next.rest;
    }
    AppliedLines { call, rest: &[] }
}
