// The refusals 4 to 12 of C and P: a winter date of a history year, and 20 values.
ghost use Rattle.std.specs.Prelude.{◌≡◌};
ghost use Rattle.calendar.specs.Spans.{history_years};
ghost use Rattle.meaning.specs.Line.{C, P};
ghost use Rattle.meaning.specs.File.{is_index_meter};
ghost use Rattle.meaning.specs.Refusals.{refusal};
ghost use Rattle.refusals.specs.Refusals.{unless_reason};
ghost use Rattle.line_form.specs.Views.{meter_view};
ghost use Rattle.line_checks.specs.Before.{Known, before_points, before_rising};
ghost use Rattle.line_steps.specs.Places.{points_misplaced};
ghost use Rattle.line_steps.specs.PointAnswers.{points_on, profiles_on, winter_checked};

use calendar::{Date, Years};
use line_checks::{
    dated_checks, in_order, is_misplaced, is_outside, points_outside, profiles_outside, winter_at,
};
use line_form::{Meter, Tag, read_points, read_profiles};
use progress::Progress;
use refusals::Refusal;
use rounding::Watts;

// The date of a C or P line: the year, the winter place, and the key, which must rise.
#[derive(Clone, Copy)]
pub(crate) struct DateChecked {
    pub year: u64,
    pub place: usize,
    pub key: u64,
}

// What a C line says: its date, and its 20 points, none for a missing one, in an array: there is no heap.
#[derive(Clone, Copy)]
pub(crate) struct PointsChecked {
    pub date: DateChecked,
    pub points: [Option<Watts>; 20],
}

// What a P line says: its date, and its 20 profile values.
#[derive(Clone, Copy)]
pub(crate) struct ProfilesChecked {
    pub date: DateChecked,
    pub values: [u64; 20],
}

fn is_index(meter: Option<Meter>) -> bool
    ensures { result ≡ is_index_meter (meter_view meter) }
{
    matches!(meter, Some(Meter::Index))
}

// 4 for C: out of order, or in an I file.
#[tactic(auto, unfolding(crate::specs::Places::points_misplaced))]
fn points_misplaced(progress: &Progress) -> bool
    ensures { result ≡ points_misplaced progress.now.last (meter_view progress.now.site.meter) }
{
    is_misplaced(progress.last, Tag::C) || is_index(progress.site.meter)
}

// 6 to 8 of a C or P line on its date: a winter date of the years, later than the last of its tag.
// `above` is the answer of the test of its values, which is 6 too.
#[tactic(auto, unfolding(crate::specs::PointAnswers::winter_checked))]
fn check_winter(years: Years, date: Date, above: bool, latest: u64) -> Result<DateChecked, Refusal>
    ensures { result ≡ winter_checked years date above latest }
{
    let outside = is_outside(years, date.year, above);
    let key = dated_checks(outside, true, date, latest)?;
    Ok(DateChecked {
        year: date.year,
        place: winter_at(date),
        key,
    })
}

// C and P have a function each: what they share is `check_winter`; the test of 4, the reader, the range and the last date are each tag's own.
pub(crate) fn check_points(progress: &Progress, line: &[u8]) -> Result<PointsChecked, Refusal>
    requires { Known C line.now }
    ensures { result ≡ unless_reason (refusal (before_points progress.now.last (meter_view progress.now.site.meter) (history_years progress.now.site.al progress.now.site.filiere) progress.now.lasts.c) line.now) (points_on line.now) }
{
    let read = in_order(points_misplaced(progress), read_points(line))?;
    let years = progress.site.history();
    let above = points_outside(&read.points);
    let date = check_winter(years, read.date, above, progress.lasts.c)?;
    Ok(PointsChecked {
        date,
        points: read.points,
    })
}

pub(crate) fn check_profiles(progress: &Progress, line: &[u8]) -> Result<ProfilesChecked, Refusal>
    requires { Known P line.now }
    ensures { result ≡ unless_reason (refusal (before_rising progress.now.last (history_years progress.now.site.al progress.now.site.filiere) progress.now.lasts.p) line.now) (profiles_on line.now) }
{
    let misplaced = is_misplaced(progress.last, Tag::P);
    let read = in_order(misplaced, read_profiles(line))?;
    let years = progress.site.history();
    let above = profiles_outside(&read.values);
    let date = check_winter(years, read.date, above, progress.lasts.p)?;
    Ok(ProfilesChecked {
        date,
        values: read.values,
    })
}
