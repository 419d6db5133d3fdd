// The values of one line, each stored at the place of its date.
ghost use Rattle.std.specs.Prelude.{◌≡◌, ◌+◌, ◌≤◌, ◌<◌, length, set};
ghost use Rattle.blocks.specs.Stores.{profile_code, slots_put};

use crate::day_values::put_day;
use std::array::from_fn;

// The largest profile value, in ten-thousandths.
const MOST_PROFILE: u64 = 65_535;

#[tactic(auto, unfolding(crate::specs::Stores::profile_code))]
fn profile_code(value: u64) -> u16
    ensures { result ≡ profile_code value }
{
    value.min(MOST_PROFILE) as u16
}

// P: stores the profile values in the year's row; rows run from the oldest history year.
pub fn put_profiles(slots: &mut [u16], oldest: u64, year: u64, place: usize, values: &[u64; 20])
    requires { (length values.now ≡ 20) × ((oldest ≤ year) × (year < oldest + 10)) × ((place < 152) × (length slots.old ≡ 30400)) }
    ensures { slots.new ≡ slots_put oldest year place values.now slots.old }
{
    // `from_fn`, since `map` of an array clears each place that it takes
    let codes = from_fn(|h| profile_code(values[h]));
    put_day(slots, year - oldest, place, &codes);
}

// D: stores one daily sum.
pub fn put_sum(daily: &mut [u32], position: usize, sum: u64)
    requires { (position < length daily.old) × (sum ≤ 3145680) }
    ensures { daily.new ≡ set daily.old position sum }
{
    daily[position] = sum as u32;
}
