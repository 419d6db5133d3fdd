// Leap years, months and dates of the Gregorian calendar.
ghost use Rattle.std.specs.Prelude.{◌≡◌};
ghost use Rattle.calendar.specs.Dates.{leap, longest, days_in, is_date, is_day, is_winter};

use crate::Date;

// The days of each month in a leap year, at the month's number; there is no month 0.
const LENGTHS: [u64; 13] = [0, 31, 29, 31, 30, 31, 30, 31, 31, 30, 31, 30, 31];

#[tactic(auto, unfolding(crate::specs::Dates::leap))]
pub fn is_leap(year: u64) -> bool
    ensures { result ≡ leap year }
{
    year % 4 == 0 && (year % 100 != 0 || year % 400 == 0)
}

// The largest number of days that the month can have: 0 where there is no such month.
#[tactic(auto, unfolding(crate::specs::Dates::longest, crate::specs::Dates::month_lengths))]
fn longest_month(month: u64) -> u64
    ensures { result ≡ longest month }
{
    LENGTHS.get(month as usize).copied().unwrap_or(0)
}

#[tactic(auto, unfolding(crate::specs::Dates::days_in, crate::specs::Dates::longest, crate::specs::Dates::month_lengths))]
pub(crate) fn days_in(year: u64, month: u64) -> u64
    ensures { result ≡ days_in year month }
{
    if month == 2 && !is_leap(year) {
        28
    } else {
        longest_month(month)
    }
}

#[tactic(auto, unfolding(crate::specs::Dates::is_date))]
pub fn is_date(date: Date) -> bool
    ensures { result ≡ is_date date.year date.month date.day }
{
    (1..=days_in(date.year, date.month)).contains(&date.day)
}

// Whether some year has the day: 29 February is one.
#[tactic(auto, unfolding(crate::specs::Dates::is_day))]
pub(crate) fn is_day(month: u64, day: u64) -> bool
    ensures { result ≡ is_day month day }
{
    (1..=longest_month(month)).contains(&day)
}

// Whether the month is January, February, March, November or December.
#[tactic(auto, unfolding(crate::specs::Dates::is_winter))]
pub fn is_winter(month: u64) -> bool
    ensures { result ≡ is_winter month }
{
    matches!(month, 1..=3 | 11..=12)
}
