// 6 on the 20 values: whether each is within its tag's range.
ghost use Rattle.std.specs.Prelude.{◌≡◌};
ghost use Rattle.lists.specs.Lists.{any};
ghost use Rattle.line_form.specs.Codes.{is_point_outside, is_profile_outside};

use rounding::Watts;

// 6 on the points of a C line: a missing one is never outside.
pub fn points_outside(points: &[Option<Watts>; 20]) -> bool
    ensures { result ≡ any is_point_outside points.now }
{
    points
        .iter()
        .any(|point| point.is_some_and(|read| 100_000_000 < read.0))
}

// 6 on the values of a P line.
pub fn profiles_outside(values: &[u64; 20]) -> bool
    ensures { result ≡ any is_profile_outside values.now }
{
    values.iter().any(|value| 65_535 < *value)
}
