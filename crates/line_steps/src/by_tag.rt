// One line of a file, on an open record: 2 and 3, then the step of its tag.
ghost use Rattle.std.specs.Prelude.{◌≡◌, true};
ghost use Rattle.meaning.specs.Record.{rec_fits};
ghost use Rattle.progress.specs.ProgressViews.{open_rec, step_view, without_reading};
ghost use Rattle.progress.specs.Steps.{step_of, line_blocks, LineSizes};

use crate::breaks_and_rates::{break_line, rate_line};
use crate::points_and_profiles::{points_line, profiles_line};
use crate::readings_and_sums::{daily_line, reading_line};
use crate::site_and_end::{end_line, site_line};
use line_form::{Tag, is_illegible, known_tag};
use progress::Progress;
use readings::Reading;
use refusals::Refusal;

// What is told of a line that has no reading.
fn no_reading(told: Result<(), Refusal>) -> Result<Option<Reading>, Refusal>
    ensures { result ≡ without_reading told }
{
    told.map(|()| None)
}

// The step of a line, with its reading if it has one: 2 and 3, then by tag. Each tag is lent the blocks that it writes, and no other.
// Document 01 has the lent blocks as further parameters.
pub fn take_line(
    progress: &mut Progress,
    count: u64,
    line: &[u8],
    near: &mut [u32],
    far: &mut [u32],
    slots: &mut [u16],
    daily: &mut [u32],
) -> Result<Option<Reading>, Refusal>
    requires { (rec_fits (open_rec count progress.old) ≡ true) × LineSizes (line_blocks near.old far.old slots.old daily.old) }
    ensures { step_view count progress.new result (line_blocks near.new far.new slots.new daily.new) ≡ step_of (open_rec count progress.old) line.now (line_blocks near.old far.old slots.old daily.old) }
{
    if is_illegible(line) {
        return Err(Refusal::Illegible);
    }
    let Some(tag) = known_tag(line) else {
        return Err(Refusal::Unknown);
    };
    match tag {
        Tag::S => no_reading(site_line(progress, line)),
        Tag::C => no_reading(points_line(progress, line, near, far)),
        Tag::X => reading_line(progress, line),
        Tag::D => no_reading(daily_line(progress, line, daily)),
        Tag::P => no_reading(profiles_line(progress, line, slots)),
        Tag::B => no_reading(break_line(progress, line)),
        Tag::R => no_reading(rate_line(progress, line)),
        Tag::E => no_reading(end_line(progress, count, line)),
    }
}
