// What X and D lines change: the progress, and a daily sum at its position; the caller stores the reading.
ghost use Rattle.std.specs.Prelude.{◌≡◌, length};
ghost use Rattle.meaning.specs.Line.{X, D};
ghost use Rattle.line_checks.specs.Before.{Known};
ghost use Rattle.progress.specs.ProgressViews.{StepsTo, without_reading};
ghost use Rattle.progress.specs.Steps.{no_block, daily_block, FewDates};

use crate::readings_and_sums::checks::{check_daily, check_reading};
use blocks::put_sum;
use line_form::{Tag, rank};
use progress::Progress;
use readings::Reading;
use refusals::Refusal;

// Applies an X line: one more reading, which the caller stores.
pub(crate) fn reading_line(progress: &mut Progress, line: &[u8]) -> Result<Option<Reading>, Refusal>
    requires { Known X line.now }
    ensures { StepsTo progress.old line.now no_block progress.new result no_block }
{
    let checked = check_reading(progress, line)?;
    progress.lasts.x = checked.key;
    progress.readings += 1;
    progress.last_index = checked.index;
    progress.last = rank(Tag::X);
    Ok(Some(Reading {
        position: checked.position as u32,
        count: checked.index,
        kind: checked.kind,
    }))
}

// Applies a D line: the daily sum at its position, and one more date.
pub(crate) fn daily_line(
    progress: &mut Progress,
    line: &[u8],
    daily: &mut [u32],
) -> Result<(), Refusal>
    requires { Known D line.now × FewDates progress.old.tallies.daily_dates × (length daily.old ≡ 4392) }
    ensures { StepsTo progress.old line.now (daily_block daily.old) progress.new (without_reading result) (daily_block daily.new) }
{
    let checked = check_daily(progress, line)?;
    let years = progress.site.axis();
    let i = years.row(checked.year);
    put_sum(daily, checked.position, checked.sum);
    progress.tallies.daily_dates[i] += 1;
    progress.lasts.d = checked.key;
    progress.last = rank(Tag::D);
    Ok(())
}
