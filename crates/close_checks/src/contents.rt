// Refusal 1 at the close: the lent blocks. A place with a date of the file's years holds what its tag can give, any other place is fresh.
mod axis_blocks; // daily sums
mod profile_blocks; // profile values
mod reading_blocks; // the counted readings
mod winter_blocks; // points

ghost use Rattle.std.specs.Prelude.{◌≡◌, ◌≤◌};
ghost use Rattle.close_checks.specs.Contents.{contents_in};

use crate::contents::axis_blocks::Axis;
use crate::contents::profile_blocks::slots_fit;
use crate::contents::winter_blocks::WinterRows;
use blocks::ReadBlocks;
use calendar::Years;
use validity::Counted;

// Whether all blocks and the counted readings fit; an AL is 0 until S is taken, and a year before 0 is 0.
#[tactic(auto, unfolding(crate::specs::Contents::contents_in))]
pub fn contents_fit(
    blocks: ReadBlocks,
    readings: &Counted<'_>,
    al: u64,
    history: Years,
    axis: Years,
) -> bool
    requires { (al ≤ 9999) × ((history.first ≤ 9999) × (axis.first ≤ 9999)) }
    ensures { result ≡ contents_in history axis al blocks.entry.near.now blocks.entry.far.now blocks.entry.slots.now blocks.entry.daily.now readings.now.positions.now readings.now.indexes.now readings.now.kinds.now readings.now.n }
{
    // the near block begins with the row of AL-9, the far one with that of AL-14
    let near = WinterRows {
        history,
        first: al.saturating_sub(9),
    };
    let far = WinterRows {
        history,
        first: al.saturating_sub(14),
    };
    let axis = Axis { years: axis };
    near.points_fit(blocks.near)
        && far.points_fit(blocks.far)
        && slots_fit(blocks.slots, history)
        && axis.daily_fit(blocks.daily)
        && axis.readings_fit(readings)
}
