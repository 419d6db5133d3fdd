// A run at its start, on a record that is opened.
ghost use Rattle.std.specs.Prelude.{◌≡◌};
ghost use Rattle.meaning.specs.Record.{never_opened};
ghost use Rattle.pieces.specs.Run.{started};
ghost use Rattle.readings.specs.Readings.{readings_view, fresh_readings};
ghost use Rattle.readings.specs.Columns.{lent_blocks};
ghost use Rattle.run.specs.RunViews.{run_view};

use crate::{OwnRun, Run};
use pieces::Pending;
use readings::fresh_readings;
use record_calls::Record;

pub fn begin(
    near: &mut [u32],
    far: &mut [u32],
    slots: &mut [u16],
    daily: &mut [u32],
    curve: &mut [u64],
) -> OwnRun
    ensures { run_view result.run (lent_blocks near.new far.new slots.new daily.new (readings_view result.readings) curve.new) ≡ started never_opened (lent_blocks near.old far.old slots.old daily.old (readings_view fresh_readings) curve.old) }
{
    let mut readings = fresh_readings();
    let call = Record::never_opened().open(near, far, slots, daily, &mut readings, curve);
    let pending = Pending::of(&[]);
    OwnRun {
        run: Run { call, pending },
        readings,
    }
}
