// The point of a place after its rate, its entry in the curve, and sums over places (document 01, Cases; 18).
ghost use Rattle.std.specs.Prelude.{◌≡◌, ◌+◌, ◌≤◌};
ghost use Rattle.points.specs.OwnFits.{PlacePointFits};
ghost use Rattle.points.specs.Fits.{RateFits};
ghost use Rattle.curve.specs.PlaceSums.{after_rate, entry_of_point, sum_of_point, plus as sums_plus};

use blocks::NO_ENTRY;
use rounding::{Exceeds, Power};

// For some places: whether they keep within the limit of 18, the sum of the present points, and their number.
// The limit is a part beside the others, since each place is entered and summed whether or not another exceeds: a sum is that of its places alone.
#[derive(Clone, Copy)]
pub(crate) struct PlaceSum {
    pub limit: Result<(), Exceeds>,
    pub sum: Power,
    pub counted: u64,
}

pub(crate) const NOTHING: PlaceSum = PlaceSum {
    limit: Ok(()),
    sum: Power(0),
    counted: 0,
};

// A point after its year's rate; a rate of 0 is none.
#[tactic(auto, unfolding(crate::specs::PlaceSums::after_rate, meaning::specs::Points::with_rate, meaning::specs::Record::rate_of_code))]
pub(crate) fn after_rate(
    point: Result<Option<Power>, Exceeds>,
    rate: u64,
) -> Result<Option<Power>, Exceeds>
    requires { PlacePointFits point × RateFits rate }
    ensures { result ≡ after_rate rate point }
{
    match point {
        Ok(Some(p)) if rate != 0 => Ok(Some(rounding::rated(p, rate))),
        _ => point,
    }
}

// The entry of a point in the curve, whose places are lent as plain numbers.
#[tactic(auto, unfolding(crate::specs::PlaceSums::entry_of_point))]
pub(crate) fn entry_of(point: Result<Option<Power>, Exceeds>) -> u64
    ensures { result ≡ entry_of_point point }
{
    match point {
        Ok(Some(p)) => p.0,
        Ok(None) | Err(Exceeds) => NO_ENTRY,
    }
}

impl PlaceSum {
    // The sum for one place, from its point.
    #[tactic(auto, unfolding(crate::specs::PlaceSums::sum_of_point))]
    pub(crate) fn of(point: Result<Option<Power>, Exceeds>) -> PlaceSum
        ensures { result ≡ sum_of_point point }
    {
        match point {
            Ok(Some(p)) => PlaceSum {
                limit: Ok(()),
                sum: p,
                counted: 1,
            },
            Ok(None) => NOTHING,
            Err(Exceeds) => PlaceSum {
                limit: Err(Exceeds),
                ..NOTHING
            },
        }
    }

    #[tactic(auto, unfolding(crate::specs::PlaceSums::plus))]
    pub(crate) fn plus(self, other: PlaceSum) -> PlaceSum
        requires { (self.sum.0 + other.sum.0 ≤ 88_000_000_000_000_000) × (self.counted + other.counted ≤ 4400) }
        ensures { result ≡ sums_plus self other }
    {
        PlaceSum {
            limit: self.limit.and(other.limit),
            sum: Power(self.sum.0 + other.sum.0),
            counted: self.counted + other.counted,
        }
    }
}
