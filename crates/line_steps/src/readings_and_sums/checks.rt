// The refusals 4 to 12 of X and D: a date of an axis year, and a number.
ghost use Rattle.std.specs.Prelude.{◌≡◌};
ghost use Rattle.calendar.specs.Spans.{history_years};
ghost use Rattle.meaning.specs.Line.{X, D};
ghost use Rattle.meaning.specs.Refusals.{refusal};
ghost use Rattle.refusals.specs.Refusals.{unless_reason};
ghost use Rattle.line_checks.specs.Before.{Known, before_rising, before_reading};
ghost use Rattle.line_steps.specs.ReadingAnswers.{reading_on, daily_on, axis_checked};

use calendar::Date;
use line_checks::{dated_checks, in_order, is_misplaced, is_outside, position_at};
use line_form::{Tag, read_daily, read_reading};
use progress::Progress;
use readings::Kind;
use refusals::{Refusal, refuse_if};
use rounding::Energy;

// The date of an X or D line: the position, and the key, which must rise.
#[derive(Clone, Copy)]
pub(crate) struct AxisChecked {
    pub position: usize,
    pub key: u64,
}

// The reading of an X line, and the key of its date.
#[derive(Clone, Copy)]
pub(crate) struct ReadingChecked {
    pub position: usize,
    pub index: Energy,
    pub kind: Kind,
    pub key: u64,
}

// The daily sum of a D line, and the key of its date.
#[derive(Clone, Copy)]
pub(crate) struct DailyChecked {
    pub year: u64,
    pub position: usize,
    pub sum: u64,
    pub key: u64,
}

// 6 to 8 of an X or D line on its date: a date of the axis, later than the last of its tag.
// `above` is the answer of the test of its number, which is 6 too.
#[tactic(auto, unfolding(crate::specs::ReadingAnswers::axis_checked))]
fn check_axis(
    progress: &Progress,
    date: Date,
    above: bool,
    latest: u64,
) -> Result<AxisChecked, Refusal>
    ensures { result ≡ axis_checked (history_years progress.now.site.al progress.now.site.filiere) date above latest }
{
    let site = progress.site;
    let years = site.axis();
    let outside = is_outside(years, date.year, above);
    let key = dated_checks(outside, false, date, latest)?;
    Ok(AxisChecked {
        position: position_at(site.al, site.filiere, date),
        key,
    })
}

// Checks an X line. 8, 10 and 11 use the last reading's date, its index and the number of readings.
pub(crate) fn check_reading(progress: &Progress, line: &[u8]) -> Result<ReadingChecked, Refusal>
    requires { Known X line.now }
    ensures { result ≡ unless_reason (refusal (before_reading progress.now.last (history_years progress.now.site.al progress.now.site.filiere) progress.now.lasts.x progress.now.last_index.0 progress.now.readings) line.now) (reading_on (history_years progress.now.site.al progress.now.site.filiere) line.now) }
{
    let misplaced = is_misplaced(progress.last, Tag::X);
    let read = in_order(misplaced, read_reading(line))?;
    let above = 1_000_000_000_000 < read.index.0;
    let date = check_axis(progress, read.date, above, progress.lasts.x)?;
    refuse_if(read.index.0 < progress.last_index.0, Refusal::Falling)?;
    refuse_if(600 <= progress.readings, Refusal::TooMany)?;
    Ok(ReadingChecked {
        position: date.position,
        index: read.index,
        kind: read.kind,
        key: date.key,
    })
}

pub(crate) fn check_daily(progress: &Progress, line: &[u8]) -> Result<DailyChecked, Refusal>
    requires { Known D line.now }
    ensures { result ≡ unless_reason (refusal (before_rising progress.now.last (history_years progress.now.site.al progress.now.site.filiere) progress.now.lasts.d) line.now) (daily_on (history_years progress.now.site.al progress.now.site.filiere) line.now) }
{
    let misplaced = is_misplaced(progress.last, Tag::D);
    let read = in_order(misplaced, read_daily(line))?;
    let above = 3_145_680 < read.sum;
    let date = check_axis(progress, read.date, above, progress.lasts.d)?;
    Ok(DailyChecked {
        year: read.date.year,
        position: date.position,
        sum: read.sum,
        key: date.key,
    })
}
