// What C and P lines change: a row of 20 values at a winter date, and the progress.
ghost use Rattle.std.specs.Prelude.{◌≡◌, length};
ghost use Rattle.meaning.specs.Line.{C, P};
ghost use Rattle.line_checks.specs.Before.{Known};
ghost use Rattle.progress.specs.ProgressViews.{StepsTo, without_reading};
ghost use Rattle.progress.specs.Steps.{point_blocks, slot_block, FewDates};

use crate::points_and_profiles::checks::{check_points, check_profiles};
use blocks::{put_points, put_profiles};
use line_form::{Tag, rank};
use progress::Progress;
use refusals::Refusal;

// Applies a C line: 20 points in the row of its year.
pub(crate) fn points_line(
    progress: &mut Progress,
    line: &[u8],
    near: &mut [u32],
    far: &mut [u32],
) -> Result<(), Refusal>
    requires { Known C line.now × ((length near.old ≡ 15200) × (length far.old ≡ 15200)) }
    ensures { StepsTo progress.old line.now (point_blocks near.old far.old) progress.new (without_reading result) (point_blocks near.new far.new) }
{
    let checked = check_points(progress, line)?;
    let date = checked.date;
    put_points(
        near,
        far,
        progress.site.al,
        date.year,
        date.place,
        &checked.points,
    );
    progress.lasts.c = date.key;
    progress.last = rank(Tag::C);
    Ok(())
}

// Applies a P line: 20 profile values in the row of its year, and one more date.
pub(crate) fn profiles_line(
    progress: &mut Progress,
    line: &[u8],
    slots: &mut [u16],
) -> Result<(), Refusal>
    requires { Known P line.now × FewDates progress.old.tallies.profile_dates × (length slots.old ≡ 30400) }
    ensures { StepsTo progress.old line.now (slot_block slots.old) progress.new (without_reading result) (slot_block slots.new) }
{
    let checked = check_profiles(progress, line)?;
    let date = checked.date;
    let years = progress.site.history();
    let i = years.row(date.year);
    put_profiles(slots, years.first, date.year, date.place, &checked.values);
    progress.tallies.profile_dates[i] += 1;
    progress.lasts.p = date.key;
    progress.last = rank(Tag::P);
    Ok(())
}
