// Positions on the axis, 366 for each of its years: of a date, and back. By AL and filière, as the spans themselves, and not by a span: a position
// in a span of any other years could be too large.
ghost use Rattle.std.specs.Prelude.{◌≡◌};
ghost use Rattle.calendar.specs.Spans.{history_years, axis_years};
ghost use Rattle.calendar.specs.Answers.{position_in, date_at};

use crate::dates::is_date;
use crate::places::{date_place, day_at};
use crate::rows::has_date;
use crate::spans::axis;
use crate::{Date, Day};

// The place of a date in the daily block: 366 places for each year of the axis.
pub fn position(al: u64, filiere: u64, date: Date) -> Option<usize>
    ensures { result ≡ position_in (axis_years (history_years al filiere)) date.year date.month date.day }
{
    let years = axis(al, filiere);
    if !years.contains(date.year) || !is_date(date) {
        return None;
    }
    let row = years.row(date.year);
    Some(366 * row + date_place(date.month, date.day)?)
}

// The date at a place of the daily block.
pub fn date_at(al: u64, filiere: u64, position: usize) -> Option<Date>
    ensures { result ≡ date_at (axis_years (history_years al filiere)) position }
{
    let years = axis(al, filiere);
    let row = (position / 366) as u64;
    if years.count <= row {
        return None;
    }
    let year = years.first + row;
    let place = position % 366;
    if !has_date(year, place) {
        return None;
    }
    let Day { month, day } = day_at(place)?;
    Some(Date { year, month, day })
}
