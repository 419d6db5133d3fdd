// The points of one line, stored at the place of its date.
ghost use Rattle.std.specs.Prelude.{◌≡◌, length};
ghost use Rattle.blocks.specs.PointStores.{point_code, near_put, far_put, RowPlace};

use crate::NO_POINT;
use crate::day_values::put_day;
use rounding::Watts;
use std::array::from_fn;

// The largest point.
const MOST_POWER: Watts = Watts(100_000_000);

// A point as the block stores it: the number of one within its range. None, and one above it, is missing.
#[tactic(auto, unfolding(crate::specs::PointStores::point_code))]
fn point_code(point: Option<Watts>) -> u32
    ensures { result ≡ point_code point }
{
    match point {
        Some(power) if power.0 <= MOST_POWER.0 => power.0 as u32,
        _ => NO_POINT,
    }
}

// C: stores the points in the year's row, a part of the near or of the far block, which document 01 has as parameters of their own.
pub fn put_points(
    near: &mut [u32],
    far: &mut [u32],
    al: u64,
    year: u64,
    place: usize,
    points: &[Option<Watts>; 20],
)
    requires { (length points.now ≡ 20) × RowPlace al year place × ((length near.old ≡ 15200) × (length far.old ≡ 15200)) }
    ensures { (near.new ≡ near_put al year place points.now near.old) × (far.new ≡ far_put al year place points.now far.old) }
{
    // `from_fn`, since `map` of an array clears each place that it takes
    let codes = from_fn(|h| point_code(points[h]));
    if al - 9 <= year {
        put_day(near, year - (al - 9), place, &codes);
    } else {
        put_day(far, year - (al - 14), place, &codes);
    }
}
