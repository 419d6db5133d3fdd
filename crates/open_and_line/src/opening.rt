// Opening, on the lent blocks: all fresh where each has its size, else as they were.
ghost use Rattle.readings.specs.Readings.{readings_view};
ghost use Rattle.readings.specs.Columns.{lent_blocks};
ghost use Rattle.open_and_line.specs.Opens.{Opens};

use answers::Lengths;
use blocks::{NO_ENTRY, NO_POINT};
use readings::{Reading, set_fresh};
use refusals::Refusal;

// Makes the blocks fresh where all have their sizes, else 1.
// Document 01 has the lent blocks as further parameters.
pub fn open_blocks(
    near: &mut [u32],
    far: &mut [u32],
    slots: &mut [u16],
    daily: &mut [u32],
    readings: &mut [Reading],
    curve: &mut [u64],
) -> Result<(), Refusal>
    ensures { Opens result (lent_blocks near.old far.old slots.old daily.old (readings_view readings.old) curve.old) (lent_blocks near.new far.new slots.new daily.new (readings_view readings.new) curve.new) }
{
    let lengths = Lengths {
        near: near.len(),
        far: far.len(),
        slots: slots.len(),
        daily: daily.len(),
        readings: readings.len(),
        curve: curve.len(),
    };
    if !lengths.fit() {
        return Err(Refusal::Unfit);
    }
    near.fill(NO_POINT);
    far.fill(NO_POINT);
    slots.fill(0);
    daily.fill(0);
    set_fresh(readings);
    curve.fill(NO_ENTRY);
    Ok(())
}
