// The places of a year's rows, 0 to 365 for dates and 0 to 151 for winter dates: 29 February has one in every year.
ghost use Rattle.std.specs.Prelude.{◌≡◌, cond, eqb, ltb};
ghost use Rattle.calendar.specs.Dates.{leap};
ghost use Rattle.calendar.specs.Places.{before, month_of, has_date, has_winter_date};

use crate::dates::is_leap;

// The place of each month's first day, at the month's number, and the number of places at the end.
const STARTS: [usize; 14] = [
    0, 0, 31, 60, 91, 121, 152, 182, 213, 244, 274, 305, 335, 366,
];

// How many days of a leap year come before the month.
pub(crate) fn start(month: u64) -> usize
    ensures { result ≡ before month }
{
    STARTS.get(month as usize).copied().unwrap_or(366)
}

// The month that a place is in. No month is longer than 31 days, and all twelve together are six days short of 31 each:
// a division by 31 finds the month or the one before it.
pub(crate) fn month_at(place: usize) -> u64
    ensures { result ≡ month_of place }
{
    if 335 <= place {
        return 12;
    }
    let month = (place / 31) as u64 + 1;
    if start(month + 1) <= place {
        month + 1
    } else {
        month
    }
}

// Whether the year has a date at one of so many places: it does at each, but for 29 February, place 59, in a common year.
fn has_place(year: u64, place: usize, places: usize) -> bool
    ensures { result ≡ cond (eqb place 59) (leap year) (ltb place places) }
{
    if place == 59 {
        is_leap(year)
    } else {
        place < places
    }
}

pub fn has_date(year: u64, place: usize) -> bool
    ensures { result ≡ has_date year place }
{
    has_place(year, place, 366)
}

// The same for the winter places: 29 February is at place 59 there too.
pub fn has_winter_date(year: u64, place: usize) -> bool
    ensures { result ≡ has_winter_date year place }
{
    has_place(year, place, 152)
}
