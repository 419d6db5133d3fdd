// 1 on the numbers by year: P and D dates, breaks and rates.
ghost use Rattle.std.specs.Prelude.{◌≡◌};
ghost use Rattle.calendar.specs.Spans.{history_years};
ghost use Rattle.meaning.specs.Record.{tallies_fit};
ghost use Rattle.progress.specs.TallyViews.{tallies_view};

use crate::Tallies;
use crate::year_range::each_year;
use calendar::{all_dates, all_winter_dates, axis, history};

// Whether each number by year is in its range, for the history of an AL and a filière. By these and not by two spans, of which it would
// have to be required that they belong together.
pub(crate) fn tallies_fit(al: u64, filiere: u64, tallies: &Tallies) -> bool
    ensures { result ≡ tallies_fit (history_years al filiere) (tallies_view tallies.now) }
{
    let h = history(al, filiere);
    let around = axis(al, filiere);
    each_year(
        h,
        &tallies.profile_dates,
        |year, n| n <= all_winter_dates(year),
    ) && each_year(around, &tallies.daily_dates, |year, n| n <= all_dates(year))
        && each_year(h, &tallies.breaks, |_, n| n <= 1)
        && each_year(
            h,
            &tallies.rates,
            |_, rate| rate == 0 || (10..=1000).contains(&rate),
        )
}
