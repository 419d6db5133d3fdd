// Annex 1: the peak days of a year.
ghost use Rattle.std.specs.Prelude.{◌≡◌};
ghost use Rattle.note.specs.Peaks.{peak_days};

use crate::annex1::{PLACES, STARTS};

// The year's peak days as winter places, in date order: its part of the table, empty for a year that the table does not have.
pub fn peak_days(year: u64) -> &'static [usize]
    ensures { result.now ≡ peak_days year }
{
    if !(2007..=2021).contains(&year) {
        return &[];
    }
    let i = (year - 2007) as usize;
    &PLACES[STARTS[i]..STARTS[i + 1]]
}
