// A year's own points before their rate: as read, or profiled from its energy; and the default power (document 01, Cases).
ghost use Rattle.std.specs.Prelude.{◌≤◌, ◌<◌, T, Ok};
ghost use Rattle.meaning.specs.Points.{own, by_profile, own_of, read_by, from_default};
ghost use Rattle.meaning.specs.Blocks.{point_of_code};
ghost use Rattle.points.specs.OwnFits.{is_point, SiteFactorsFit, PlacePointIs};

use blocks::NO_POINT;
use rounding::{Energy, Exceeds, Power, Watts};

// What the default power and the look-ups of a site need: AL, the oldest history year and how many there are, PS, theta and the sum of their CA.
#[derive(Clone, Copy)]
pub struct SiteFactors {
    pub al: u64,
    pub first: u64,
    pub count: u64,
    pub ps: Watts,
    pub theta: u64,
    pub ca_sum: u64,
}

// A point as read, from W to mW; a missing one stays missing. It never exceeds the limit of 18.
#[tactic(auto, using(crate::proofs::PlacePoints::missing_filled, crate::proofs::PlacePoints::read_filled, crate::proofs::PlacePoints::point_most))]
pub(crate) fn measured(code: u32) -> Option<Power>
    requires { T (is_point code) }
    ensures { PlacePointIs (own_of (read_by (point_of_code code))) (Ok result) }
{
    if code == NO_POINT {
        return None;
    }
    Some(Watts(u64::from(code)).in_milliwatts())
}

// Cases 1 and P, and the donors of 3 and 5. 17 has excluded a total of 0.
pub(crate) fn profiled(energy: Energy, profile: u64, total: u64) -> Result<Option<Power>, Exceeds>
    requires { (energy.0 ≤ 1_000_000_000_000) × (profile ≤ 65_535) × (0 < total) × (total ≤ 13_815_826_560) }
    ensures { PlacePointIs (own (by_profile energy.0 profile total)) result }
{
    rounding::profiled(energy, profile, total).map(Some)
}

// Cases 4 and 6, from the profile value and CA of the year.
pub(crate) fn by_default(
    site: &SiteFactors,
    profile: u64,
    ca: u64,
) -> Result<Option<Power>, Exceeds>
    requires { SiteFactorsFit site.now × (profile ≤ 65_535) × (ca ≤ 9_999) }
    ensures { PlacePointIs (from_default site.now.ps.0 site.now.theta profile ca site.now.count site.now.ca_sum) result }
{
    rounding::by_default(site.ps, site.theta, profile, ca, site.count, site.ca_sum).map(Some)
}
