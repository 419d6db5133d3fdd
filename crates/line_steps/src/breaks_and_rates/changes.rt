// What B and R lines change: the progress only. Two functions, since they share the place of the year alone: each writes other fields.
ghost use Rattle.meaning.specs.Line.{B, R};
ghost use Rattle.line_checks.specs.Before.{Known};
ghost use Rattle.progress.specs.ProgressViews.{StepsTo, without_reading};
ghost use Rattle.progress.specs.Steps.{no_block};

use crate::breaks_and_rates::checks::{check_break, check_rate};
use line_form::{Tag, rank};
use progress::Progress;
use refusals::Refusal;

// Applies a B line: a break in its year.
pub(crate) fn break_line(progress: &mut Progress, line: &[u8]) -> Result<(), Refusal>
    requires { Known B line.now }
    ensures { StepsTo progress.old line.now no_block progress.new (without_reading result) no_block }
{
    let year = check_break(progress, line)?;
    let years = progress.site.history();
    let i = years.row(year);
    progress.tallies.breaks[i] = 1;
    progress.lasts.b = year;
    progress.last = rank(Tag::B);
    Ok(())
}

// Applies an R line: the rate of its year.
pub(crate) fn rate_line(progress: &mut Progress, line: &[u8]) -> Result<(), Refusal>
    requires { Known R line.now }
    ensures { StepsTo progress.old line.now no_block progress.new (without_reading result) no_block }
{
    let read = check_rate(progress, line)?;
    let years = progress.site.history();
    let i = years.row(read.year);
    progress.tallies.rates[i] = read.rate;
    progress.lasts.r = read.year;
    progress.last = rank(Tag::R);
    Ok(())
}
