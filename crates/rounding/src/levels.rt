// From the points to the NCC: the rate of a year, and the level of the mean point.
ghost use Rattle.std.specs.Prelude.{◌≡◌, ◌≤◌, ◌<◌};
ghost use Rattle.rounding.specs.Points.{rounded, rated, level};
ghost use Rattle.rounding.specs.Units.{in_mw, in_w};

use crate::nearest::half_up;
use crate::{Power, Watts};

// A point after its year's rate, which is in thousandths.
#[tactic(auto, unfolding(crate::specs::Points::rounded, crate::specs::Points::rated))]
pub fn rated(p: Power, rate: u64) -> Power
    requires { (p.0 ≤ 200_000_000_000) × (10 ≤ rate) × (rate ≤ 1000) }
    ensures { result ≡ in_mw (rounded (rated p.0 rate)) }
{
    Power(half_up(p.0 * 1000, rate))
}

// The NCC in W: C, in hundredths, times the mean of the n present points, whose sum is at most 4,400 times the largest point after a rate of 10.
#[tactic(auto, unfolding(crate::specs::Points::rounded, crate::specs::Points::level))]
pub fn level(c: u64, points: Power, n: u64) -> Watts
    requires { (c ≤ 100) × (points.0 ≤ 88_000_000_000_000_000) × (0 < n) × (n ≤ 4400) }
    ensures { result ≡ in_w (rounded (level c points.0 n)) }
{
    Watts(half_up(c * points.0, 100_000 * n))
}
