// What S and E lines change: the progress only.
ghost use Rattle.std.specs.Prelude.{◌≡◌};
ghost use Rattle.meaning.specs.Line.{S, E};
ghost use Rattle.line_checks.specs.Before.{Known};
ghost use Rattle.progress.specs.ProgressViews.{open_rec, step_view, StepsTo, without_reading};
ghost use Rattle.progress.specs.Steps.{step_of, no_block};

use crate::site_and_end::checks::{check_end, check_site};
use line_form::{Tag, rank};
use progress::Progress;
use refusals::Refusal;

// Applies an S line: its site is kept.
pub(crate) fn site_line(progress: &mut Progress, line: &[u8]) -> Result<(), Refusal>
    requires { Known S line.now }
    ensures { StepsTo progress.old line.now no_block progress.new (without_reading result) no_block }
{
    progress.site = check_site(progress, line)?;
    progress.last = rank(Tag::S);
    Ok(())
}

// Applies an E line: no line may follow.
pub(crate) fn end_line(progress: &mut Progress, count: u64, line: &[u8]) -> Result<(), Refusal>
    requires { Known E line.now }
    ensures { step_view count progress.new (without_reading result) no_block ≡ step_of (open_rec count progress.old) line.now no_block }
{
    check_end(progress, count, line)?;
    progress.last = rank(Tag::E);
    Ok(())
}
