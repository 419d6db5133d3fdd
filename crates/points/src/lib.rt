// The point of a place before its rate, by the case of its year (document 01, Cases): as read, profiled, rebuilt from donors, or by default.
//
// Throughout, k is a year's number from the oldest history year, w a winter place and h a half-hour of the day.
#![tactic(auto)]

mod days; // what the points of a winter day are computed from
mod own; // a year's own points: as read, or profiled from its energy; and the default power
mod donors; // the sums over donors, and the point rebuilt from them

ghost use Rattle.std.specs.Prelude.{◌<◌, T, get_or};
ghost use Rattle.points.specs.OwnFits.{PlacePointIs};
ghost use Rattle.history.specs.Cases.{case_view};
ghost use Rattle.history.specs.Years.{no_year};
ghost use Rattle.points.specs.Sources.{source_in, is_profiled};
ghost use Rattle.points.specs.Days.{day_view};

use crate::days::HalfHour;
use crate::donors::rebuilt_point;
use crate::own::{by_default, measured};
pub use days::WinterDay;
use history::Case;
pub use own::SiteFactors;
use rounding::{Exceeds, Power};

// A history year: its number from the oldest, its case, and its rate in thousandths, 0 for none as the record holds it.
#[derive(Clone, Copy)]
pub struct TargetYear {
    pub k: usize,
    pub case: Case,
    pub rate: u64,
}

// A missing point is `None`; refusal 18 is the error. A year that is profiled has a valid index, and the date.
pub fn point_of(day: &WinterDay<'_>, target: TargetYear, h: usize) -> Result<Option<Power>, Exceeds>
    requires bounds { (target.k < day.now.site.now.count) × (h < 20) }
    requires own_index { T (is_profiled (case_view target.case)) → T (get_or day.now.years.now target.k no_year).is_donor }
    ensures { PlacePointIs (source_in day.now.site.now (day_view day.now) (case_view target.case) target.k day.now.w h) result }
{
    let at = HalfHour { day, h };
    let k = target.k;
    let n = day.site.count as usize;
    match target.case {
        Case::M => Ok(measured(at.code(day.site.first + k as u64))),
        Case::T1 | Case::P => at.profiled(k),
        Case::T2 => rebuilt_point(k, n, day.cas, |j| Ok(at.curve_donor(j))),
        Case::T3 | Case::I5 => rebuilt_point(k, n, day.cas, |j| at.index_donor(j)),
        Case::T4 | Case::I6 => by_default(day.site, at.profile(k), day.cas[k]),
    }
}
