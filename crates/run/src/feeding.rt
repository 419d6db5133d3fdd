// A piece of the input, of any size, fed to a run.
ghost use Rattle.std.specs.Prelude.{◌≡◌};
ghost use Rattle.pieces.specs.Run.{fed};
ghost use Rattle.readings.specs.Readings.{readings_view};
ghost use Rattle.readings.specs.Columns.{lent_blocks};
ghost use Rattle.run.specs.RunViews.{run_view};

use crate::lines::feed_lines;
use crate::{OwnRun, Run};
use pieces::{Joined, is_final};
use readings::Reading;

impl Run {
    // The run after a piece. A pending line is joined with it: where it is then whole it is applied, and then those after it; else it stays pending.
    // By value: behind a `&mut` the proof does not see that the pending line's array has 321 places.
    fn fed(
        self,
        piece: &[u8],
        near: &mut [u32],
        far: &mut [u32],
        slots: &mut [u16],
        daily: &mut [u32],
        readings: &mut [Reading],
        curve: &[u64],
    ) -> Run
        ensures { run_view result (lent_blocks near.new far.new slots.new daily.new (readings_view readings.new) curve.now) ≡ fed (run_view self (lent_blocks near.old far.old slots.old daily.old (readings_view readings.old) curve.now)) piece.now }
    {
        let call = self.call;
        if is_final(call.answer) {
            return self;
        }
        if self.pending.is_empty() {
            return feed_lines(call, piece, near, far, slots, daily, readings, curve);
        }
        match self.pending.join(piece) {
            Joined::Begun(pending) => Run { call, pending },
            Joined::Whole { line, bytes, used } => {
                let whole = &line[..bytes];
                let rest = &piece[used..];
                let call = call
                    .record
                    .line(whole, near, far, slots, daily, readings, curve);
                feed_lines(call, rest, near, far, slots, daily, readings, curve)
            }
        }
    }
}

impl OwnRun {
    // Feeds a run a piece; one that has its final answer stays as it is.
    pub fn feed(
        &mut self,
        piece: &[u8],
        near: &mut [u32],
        far: &mut [u32],
        slots: &mut [u16],
        daily: &mut [u32],
        curve: &[u64],
    )
        ensures { run_view self.new.run (lent_blocks near.new far.new slots.new daily.new (readings_view self.new.readings) curve.now) ≡ fed (run_view self.old.run (lent_blocks near.old far.old slots.old daily.old (readings_view self.old.readings) curve.now)) piece.now }
    {
        let run = self.run;
        self.run = run.fed(piece, near, far, slots, daily, &mut self.readings, curve);
    }
}
