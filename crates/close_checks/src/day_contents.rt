// Refusal 1 at the close: the 20 points, or profile values, of one day.
ghost use Rattle.std.specs.Prelude.{◌≡◌, true, false};
ghost use Rattle.lists.specs.Lists.{all};
ghost use Rattle.meaning.specs.Record.{point_fits};
ghost use Rattle.close_checks.specs.Slots.{slot_fits};

use blocks::NO_POINT;

const MOST_POWER: u32 = 100_000_000;

// Whether the points of a day with a date fit: what C can give, or missing.
pub(crate) fn all_given(points: &[u32]) -> bool
    ensures { result ≡ all (point_fits true) points.now }
{
    points
        .iter()
        .all(|point| *point == NO_POINT || *point <= MOST_POWER)
}

// Whether the points of a day without a date fit: all are missing.
pub(crate) fn all_missing(points: &[u32]) -> bool
    ensures { result ≡ all (point_fits false) points.now }
{
    points.iter().all(|point| *point == NO_POINT)
}

// Whether the profile values of a day without a date fit: all are 0.
pub(crate) fn all_zero(slots: &[u16]) -> bool
    ensures { result ≡ all (slot_fits false) slots.now }
{
    slots.iter().all(|slot| *slot == 0)
}
