// The half-hours of a day and the peak days of a year: each point is entered in the curve and added to the sums.
ghost use Rattle.std.specs.Prelude.{false, ◌+◌, ◌*◌, ◌≤◌, ◌<◌, T, get_or};
ghost use Rattle.points.specs.OwnFits.{SiteFactorsFit};
ghost use Rattle.history.specs.Cases.{case_view};
ghost use Rattle.history.specs.Years.{no_year};
ghost use Rattle.points.specs.Sources.{is_profiled};
ghost use Rattle.points.specs.Days.{day_view};
ghost use Rattle.points.specs.Fits.{RateFits};
ghost use Rattle.curve.specs.YearPlaces.{places_on, places_in};
ghost use Rattle.curve.specs.Files.{file_view};
ghost use Rattle.curve.specs.PlaceFits.{FileDataFits, Entered};

use crate::place_sums::{NOTHING, PlaceSum, after_rate, entry_of};
use crate::{FileData, YEAR_ENTRIES};
use blocks::HALF_HOURS;
use history::years_on;
use note::peak_days;
use points::{SiteFactors, TargetYear, WinterDay, point_of};

// The site of a file, the file's data, and CA by history year, as 1 and 14 to 17 leave them.
#[derive(Clone, Copy)]
pub(crate) struct SiteFile<'a> {
    pub site: &'a SiteFactors,
    pub file: &'a FileData<'a>,
    pub cas: &'a [u64; 10],
    ghost site_fits: { SiteFactorsFit site.now },
    ghost fits: { FileDataFits site.now (file_view file.now cas.now) },
}

// Enters the half-hours of a day, from place `at` of the curve on. By place and not over a part of the curve: the promise is of the whole.
fn half_hours(
    day: &WinterDay<'_>,
    target: TargetYear,
    at: usize,
    curve: &mut [u64; 4400],
) -> PlaceSum
    requires rate_fits { RateFits target.rate }
    requires k_lt_count { (target.k < day.now.site.now.count) × (at + 20 ≤ 4400) }
    requires own_index { T (is_profiled (case_view target.case)) → T (get_or day.now.years.now target.k no_year).is_donor }
    ensures { Entered 20 at (places_on day.now.site.now (day_view day.now) (case_view target.case) target.rate target.k day.now.w) curve.old curve.new result }
{
    let mut t = NOTHING;
    for h in 0..HALF_HOURS {
        let point = after_rate(point_of(day, target, h), target.rate);
        curve[at + h] = entry_of(point);
        t = t.plus(PlaceSum::of(point));
    }
    t
}

// Enters the peak days of a year, from its first place of the curve on. What a day needs of each year is looked up once.
pub(crate) fn year_places(
    site_file: &SiteFile<'_>,
    target: TargetYear,
    curve: &mut [u64; 4400],
) -> PlaceSum
    requires rate_fits { RateFits target.rate }
    requires k_lt_count { target.k < site_file.now.site.now.count }
    requires own_index { T (is_profiled (case_view target.case)) → T (get_or site_file.now.file.now.valid.now.indexes target.k false) }
    ensures { Entered 440 (440 * target.k) (places_in site_file.now.site.now (file_view site_file.now.file.now site_file.now.cas.now) (case_view target.case) target.rate target.k) curve.old curve.new result }
{
    let site = site_file.site;
    let file = site_file.file;
    let days = peak_days(site.first + target.k as u64);
    let mut t = NOTHING;
    for (j, w) in days.iter().enumerate() {
        let years = years_on(
            file.energies,
            file.totals,
            &file.valid.indexes,
            site.first,
            *w,
        );
        let day = WinterDay {
            site,
            w: *w,
            blocks: file.blocks,
            years: &years,
            curves: &file.valid.curves,
            cas: site_file.cas,
        };
        let d = half_hours(
            &day,
            target,
            YEAR_ENTRIES * target.k + HALF_HOURS * j,
            curve,
        );
        t = t.plus(d);
    }
    t
}
