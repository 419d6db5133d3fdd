// The end of the input.
ghost use Rattle.std.specs.Prelude.{◌≡◌};
ghost use Rattle.pieces.specs.Run.{close_unless_final, finished};
ghost use Rattle.readings.specs.Readings.{readings_view};
ghost use Rattle.readings.specs.Columns.{lent_blocks};
ghost use Rattle.close.specs.Ends.{close_repr};
ghost use Rattle.record_calls.specs.Views.{call_view, close_view};
ghost use Rattle.run.specs.RunViews.{run_view};

use crate::{OwnRun, Run};
use close::NO_YEARS;
use pieces::is_final;
use readings::Reading;
use record_calls::{CallResult, CloseResult};

// The close after the last call, unless that gave a final answer: then no years stand beside it.
fn close_unless_final<'a>(
    call: CallResult,
    near: &'a [u32],
    far: &'a [u32],
    slots: &[u16],
    daily: &[u32],
    readings: &[Reading],
    curve: &mut [u64],
) -> CloseResult
    ensures { close_view result (lent_blocks near.now far.now slots.now daily.now (readings_view readings.now) curve.new) ≡ close_repr (close_unless_final (call_view call (lent_blocks near.now far.now slots.now daily.now (readings_view readings.now) curve.old))) }
{
    if is_final(call.answer) {
        return CloseResult {
            record: call.record,
            answer: call.answer,
            years: NO_YEARS,
        };
    }
    call.record.close(near, far, slots, daily, readings, curve)
}

impl Run {
    // The last call before the close: a last line that has no byte 10 is applied. By value, as `fed` is.
    fn last_call(
        self,
        near: &mut [u32],
        far: &mut [u32],
        slots: &mut [u16],
        daily: &mut [u32],
        readings: &mut [Reading],
        curve: &[u64],
    ) -> CallResult
        ensures { close_unless_final (call_view result (lent_blocks near.new far.new slots.new daily.new (readings_view readings.new) curve.now)) ≡ finished (run_view self (lent_blocks near.old far.old slots.old daily.old (readings_view readings.old) curve.now)) }
    {
        let call = self.call;
        if is_final(call.answer) || self.pending.is_empty() {
            return call;
        }
        let last = self.pending.bytes();
        call.record
            .line(last, near, far, slots, daily, readings, curve)
    }
}

impl OwnRun {
    // The end of a run: its last call, then the close.
    pub fn finish(
        &mut self,
        near: &mut [u32],
        far: &mut [u32],
        slots: &mut [u16],
        daily: &mut [u32],
        curve: &mut [u64],
    ) -> CloseResult
        ensures { close_view result (lent_blocks near.new far.new slots.new daily.new (readings_view self.new.readings) curve.new) ≡ close_repr (finished (run_view self.old.run (lent_blocks near.old far.old slots.old daily.old (readings_view self.old.readings) curve.old))) }
    {
        let run = self.run;
        let call = run.last_call(near, far, slots, daily, &mut self.readings, curve);
        close_unless_final(call, near, far, slots, daily, &self.readings, curve)
    }
}
