// The date of a line, which may not exist: 7, its winter place, its position and its key.
ghost use Rattle.std.specs.Prelude.{◌≡◌};
ghost use Rattle.calendar.specs.Answers.{winter_place_of, position_in};
ghost use Rattle.calendar.specs.Spans.{history_years, axis_years};
ghost use Rattle.line_form.specs.Ranges.{no_date_for};
ghost use Rattle.line_checks.specs.Places.{place_or, key_for};

use calendar::{Date, date_place, is_date, is_winter, position, winter_place};

// 7: no such date, or not winter where the tag takes winter dates only, which is data of the question.
#[tactic(auto, unfolding(line_form::specs::Ranges::no_date_for))]
pub(crate) fn has_no_date(winter: bool, date: Date) -> bool
    ensures { result ≡ no_date_for winter date.year date.month date.day }
{
    !is_date(date) || (winter && !is_winter(date.month))
}

// The winter place of a date, 0 where it has none: it is asked only where 7 has passed, and an Option would want a case that cannot come.
pub fn winter_at(date: Date) -> usize
    ensures { result ≡ place_or (winter_place_of date.month date.day) }
{
    winter_place(date.month, date.day).unwrap_or(0)
}

// The position of a date on the axis, 0 where it has none, as with the winter place.
pub fn position_at(al: u64, filiere: u64, date: Date) -> usize
    ensures { result ≡ place_or (position_in (axis_years (history_years al filiere)) date.year date.month date.day) }
{
    position(al, filiere, date).unwrap_or(0)
}

// The key of a date: keys rise with dates, 366 to a year. 0 for a year after all spans, so that no product is too large. A date that
// does not exist has its year's first place: 7 refuses it before its key is compared.
pub(crate) fn key_of(date: Date) -> u64
    ensures { result ≡ key_for date.year date.month date.day }
{
    if 9999 < date.year {
        return 0;
    }
    let place = date_place(date.month, date.day).unwrap_or(0) as u64;
    366 * date.year + place
}
