// The last date or year of a tag.
ghost use Rattle.std.specs.Prelude.{◌≡◌, ◌<◌};
ghost use Rattle.calendar.specs.Dates.{is_winter};
ghost use Rattle.calendar.specs.Places.{month_of};
ghost use Rattle.meaning.specs.Record.{date_fits, year_fits};

use calendar::{Years, day_at, has_date, is_winter};

// Whether a date place is a winter day.
fn is_winter_place(place: usize) -> bool
    requires { place < 366 }
    ensures { result ≡ is_winter (month_of place) }
{
    day_at(place).is_some_and(|day| is_winter(day.month))
}

// No date, or a date of the span; a winter date where the tag takes no other (`winter`, which is data of the tag and no choice of steps).
#[tactic(auto, unfolding(meaning::specs::Record::date_fits))]
pub(crate) fn date_fits(span: Years, winter: bool, date: u64) -> bool
    ensures { result ≡ date_fits span winter date }
{
    let year = date / 366;
    let place = (date % 366) as usize;
    date == 0
        || (span.contains(year) && has_date(year, place) && (!winter || is_winter_place(place)))
}

#[tactic(auto, unfolding(meaning::specs::Record::year_fits))]
pub(crate) fn year_fits(span: Years, year: u64) -> bool
    ensures { result ≡ year_fits span year }
{
    year == 0 || span.contains(year)
}
