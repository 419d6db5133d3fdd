// The refusals 4 to 12 of B and R: a history year, and its rate.
ghost use Rattle.std.specs.Prelude.{◌≡◌, not};
ghost use Rattle.calendar.specs.Spans.{history_years};
ghost use Rattle.meaning.specs.Line.{B, R, year_on};
ghost use Rattle.meaning.specs.Record.{is_within};
ghost use Rattle.meaning.specs.Refusals.{refusal};
ghost use Rattle.refusals.specs.Refusals.{unless_reason};
ghost use Rattle.line_checks.specs.Before.{Known, before_rising};
ghost use Rattle.line_checks.specs.Places.{rate_on};

use line_checks::{in_order, is_misplaced, is_outside, rising_checks};
use line_form::{RateRead, Tag, read_rate, read_year};
use progress::Progress;
use refusals::Refusal;

// The year of a B line.
pub(crate) fn check_break(progress: &Progress, line: &[u8]) -> Result<u64, Refusal>
    requires { Known B line.now }
    ensures { result ≡ unless_reason (refusal (before_rising progress.now.last (history_years progress.now.site.al progress.now.site.filiere) progress.now.lasts.b) line.now) (year_on line.now) }
{
    let misplaced = is_misplaced(progress.last, Tag::B);
    let year = in_order(misplaced, read_year(line))?;
    let years = progress.site.history();
    rising_checks(!years.contains(year), false, progress.lasts.b, year)?;
    Ok(year)
}

// Whether a rate is outside its range (6).
#[tactic(auto, unfolding(meaning::specs::Record::is_within))]
fn is_rate_outside(rate: u64) -> bool
    ensures { result ≡ not (is_within 10 1000 rate) }
{
    !(10..=1000).contains(&rate)
}

// The year and the rate of an R line.
pub(crate) fn check_rate(progress: &Progress, line: &[u8]) -> Result<RateRead, Refusal>
    requires { Known R line.now }
    ensures { result ≡ unless_reason (refusal (before_rising progress.now.last (history_years progress.now.site.al progress.now.site.filiere) progress.now.lasts.r) line.now) (rate_on line.now) }
{
    let misplaced = is_misplaced(progress.last, Tag::R);
    let read = in_order(misplaced, read_rate(line))?;
    let years = progress.site.history();
    let outside = is_outside(years, read.year, is_rate_outside(read.rate));
    rising_checks(outside, false, progress.lasts.r, read.year)?;
    Ok(read)
}
