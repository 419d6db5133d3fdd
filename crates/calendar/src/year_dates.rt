// How many dates a year has. Two functions: one of both would take both numbers and say no more.
ghost use Rattle.std.specs.Prelude.{◌≡◌};
ghost use Rattle.calendar.specs.Dates.{all_winter_dates, all_dates};

use crate::dates::is_leap;

#[tactic(auto, unfolding(crate::specs::Dates::all_winter_dates))]
pub fn all_winter_dates(year: u64) -> u64
    ensures { result ≡ all_winter_dates year }
{
    if is_leap(year) { 152 } else { 151 }
}

#[tactic(auto, unfolding(crate::specs::Dates::all_dates))]
pub fn all_dates(year: u64) -> u64
    ensures { result ≡ all_dates year }
{
    if is_leap(year) { 366 } else { 365 }
}
