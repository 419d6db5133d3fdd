// Energies and powers, and every rounding between the readings of a site and its NCC: to nearest, half up (document 01, Cases).
#![tactic(auto)]

mod nearest; // the rounded quotient
mod rebuilding; // points that were not measured: profiled, rebuilt from donors or by default, and 18
mod levels; // a point by its year's rate, and the level

ghost use Rattle.std.specs.Prelude.{◌≡◌, ◌≤◌, ◌*◌};
ghost use Rattle.rounding.specs.Units.{in_mw};

pub use levels::{level, rated};
pub use rebuilding::{by_default, profiled, rebuilt};

// Wh: the count of a reading, and the difference of two. Only `profiled` makes a power of an energy.
#[derive(Clone, Copy, Debug, Default, PartialEq, Eq)]
pub struct Energy(pub u64);

// mW: a point of a curve, or a sum of points.
#[derive(Clone, Copy, Debug, PartialEq, Eq)]
pub struct Power(pub u64);

// W, in whole watts: PS, a point as its line gives it, the level.
#[derive(Clone, Copy, Debug, Default, PartialEq, Eq)]
pub struct Watts(pub u64);

// Refusal 18: a point above the limit.
#[derive(Clone, Copy, Debug, PartialEq, Eq)]
pub struct Exceeds;

impl Watts {
    // A read point in mW, as all other points are.
    pub fn in_milliwatts(self) -> Power
        requires { self.0 ≤ 100_000_000 }
        ensures { result ≡ in_mw (1000 * self.0) }
    {
        Power(1000 * self.0)
    }
}
