// The points that are profiled, rebuilt or taken by default, each rounded once and checked for refusal 18.
ghost use Rattle.std.specs.Prelude.{◌≡◌, ◌≤◌, ◌<◌};
ghost use Rattle.rounding.specs.Points.{rounded, profiled, rebuilt, by_default};
ghost use Rattle.rounding.specs.Answers.{limit_view, limited_point};

use crate::nearest::half_up;
use crate::{Energy, Exceeds, Power, Watts};

// A rounded point, or 18: one of 200,000,000,000 mW is still a point.
#[tactic(auto, using(crate::proofs::Answers::point_within, crate::proofs::Answers::point_exceeds))]
fn limited(point: Power) -> Result<Power, Exceeds>
    ensures { limit_view result ≡ limited_point point.0 }
{
    if 200_000_000_000 < point.0 {
        return Err(Exceeds);
    }
    Ok(point)
}

// Cases 1 and P: the one step from an energy to a power. The total is at most 4,392 daily sums of 3,145,680.
// The energy is split by the total, since 2000 × energy × profile may not fit; where the whole part alone is too large, no product is made.
pub fn profiled(e: Energy, profile: u64, total: u64) -> Result<Power, Exceeds>
    requires { (e.0 ≤ 1_000_000_000_000) × (profile ≤ 65_535) × (0 < total) × (total ≤ 13_815_826_560) }
    ensures { limit_view result ≡ limited_point (rounded (profiled e.0 profile total)) }
{
    let q = e.0 / total;
    let r = e.0 % total;
    let whole = q * profile;
    if 100_000_000 < whole {
        return Err(Exceeds);
    }
    limited(Power(2000 * whole + half_up(2000 * (r * profile), total)))
}

// Cases 2, 3 and 5, from at most ten donors, each at most at the limit of 18.
#[tactic(auto, unfolding(crate::specs::Points::rounded, crate::specs::Points::rebuilt))]
pub fn rebuilt(ca: u64, points: Power, cas: u64) -> Result<Power, Exceeds>
    requires { (ca ≤ 9_999) × (points.0 ≤ 2_000_000_000_000) × (0 < cas) × (cas ≤ 99_990) }
    ensures { limit_view result ≡ limited_point (rounded (rebuilt ca points.0 cas)) }
{
    limited(Power(half_up(ca * points.0, cas)))
}

// Cases 4 and 6. The product before CA × N is split by the divisor, since the whole product may not fit. The
// parameters are the numbers of one formula.
pub fn by_default(
    ps: Watts,
    theta: u64,
    profile: u64,
    ca: u64,
    n: u64,
    cas: u64,
) -> Result<Power, Exceeds>
    requires { (ps.0 ≤ 100_000_000) × (theta ≤ 100_000) × (profile ≤ 65_535) × (ca ≤ 9_999) × (n ≤ 10) × (0 < cas) × (cas ≤ 99_990) }
    ensures { limit_view result ≡ limited_point (rounded (by_default ps.0 theta profile ca n cas)) }
{
    let d = 1_000_000 * cas;
    let shaped = ps.0 * theta * profile;
    let q = shaped / d;
    let r = shaped % d;
    let k = ca * n;
    limited(Power(k * q + half_up(k * r, d)))
}
