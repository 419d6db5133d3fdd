// What a winter day needs of each of ten years.
ghost use Rattle.std.specs.Prelude.{◌≡◌, ◌≤◌, ◌<◌};
ghost use Rattle.history.specs.Years.{years_on};
ghost use Rattle.history.specs.Fits.{DatePlaceIs};

use crate::YearOnDay;
use calendar::has_winter_date;
use rounding::Energy;
use std::array::from_fn;

// The date place of a winter place.
fn date_place(w: usize) -> usize
    requires { w < 152 }
    ensures { DatePlaceIs w result }
{
    calendar::date_of_winter(w).unwrap_or(0)
}

// Each year on a winter day, from E and daily total by position and the valid indexes. On 29 February only leap years are donors. No
// history begins after 2021, so no year overflows.
pub fn years_on(
    energies: &[Energy; 4392],
    totals: &[u64; 4392],
    indexes: &[bool; 10],
    first: u64,
    w: usize,
) -> [YearOnDay; 10]
    requires { (first ≤ 2021) × (w < 152) }
    ensures { result ≡ years_on energies.now totals.now indexes.now first w }
{
    let place = date_place(w);
    from_fn(|k| {
        let position = 366 * (k + 1) + place;
        YearOnDay {
            energy: energies[position],
            total: totals[position],
            is_donor: indexes[k] && has_winter_date(first + (k as u64), w),
        }
    })
}
