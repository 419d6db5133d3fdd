// The date places 0 to 365 of a year and its winter places 0 to 151: 29 February has one in every year.
ghost use Rattle.std.specs.Prelude.{◌≡◌};
ghost use Rattle.calendar.specs.Answers.{date_place_of, winter_place_of, winter_date_place, day_at, winter_day_at};

use crate::Day;
use crate::dates::{is_day, is_winter};
use crate::rows::{month_at, start};

// By month and day, the numbers that a date has: a Day would first be made of them at each call, and is no plainer.

pub fn date_place(month: u64, day: u64) -> Option<usize>
    ensures { result ≡ date_place_of month day }
{
    if !is_day(month, day) {
        return None;
    }
    let days = (day - 1) as usize;
    Some(start(month) + days)
}

// The winter place of a day. Before November and December come the 214 days of April to October, which are no winter days.
pub fn winter_place(month: u64, day: u64) -> Option<usize>
    ensures { result ≡ winter_place_of month day }
{
    let place = date_place(month, day)?;
    if !is_winter(month) {
        return None;
    }
    Some(if month <= 3 { place } else { place - 214 })
}

#[tactic(auto, unfolding(crate::specs::Answers::winter_date_place, crate::specs::Places::date_of_winter))]
pub fn date_of_winter(place: usize) -> Option<usize>
    ensures { result ≡ winter_date_place place }
{
    match place {
        0..=90 => Some(place),
        91..=151 => Some(place + 214),
        _ => None,
    }
}

pub fn day_at(place: usize) -> Option<Day>
    ensures { result ≡ day_at place }
{
    if 366 <= place {
        return None;
    }
    let month = month_at(place);
    let day = (place - start(month)) as u64 + 1;
    Some(Day { month, day })
}

pub fn winter_day_at(place: usize) -> Option<Day>
    ensures { result ≡ winter_day_at place }
{
    day_at(date_of_winter(place)?)
}
