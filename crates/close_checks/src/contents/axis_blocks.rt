// Refusal 1 at the close: daily sums. At a date of the axis what D can give, elsewhere 0.
ghost use Rattle.std.specs.Prelude.{◌≡◌, ◌≤◌};
ghost use Rattle.meaning.specs.Record.{daily_fits};
ghost use Rattle.close_checks.specs.Axis.{placed_at, day_fits};

use calendar::{Years, has_date};

// The number of places of a year in the daily block.
const PLACES: usize = 366;

const MOST_DAILY: u32 = 3_145_680;

// The axis years of a file, which begin early enough that no sum overflows.
#[derive(Clone, Copy)]
pub(crate) struct Axis {
    pub years: Years,
    ghost early: { years.first ≤ 9999 },
}

impl Axis {
    // Whether a position has a date of an axis year.
    #[tactic(auto, unfolding(crate::specs::Axis::placed_at, calendar::specs::Spans::year_at, calendar::specs::Spans::place_at))]
    pub(crate) fn is_placed(self, position: usize) -> bool
        ensures { result ≡ placed_at self.years position }
    {
        let year = self.years.first + (position / PLACES) as u64;
        self.years.contains(year) && has_date(year, position % PLACES)
    }

    #[tactic(auto, unfolding(crate::specs::Axis::day_fits))]
    fn day_fits(self, position: usize, v: u32) -> bool
        ensures { result ≡ day_fits self.years position v }
    {
        v == 0 || (v <= MOST_DAILY && self.is_placed(position))
    }

    pub(crate) fn daily_fit(self, daily: &[u32]) -> bool
        ensures { result ≡ daily_fits self.years daily.now }
    {
        daily
            .iter()
            .enumerate()
            .all(|(position, v)| self.day_fits(position, *v))
    }
}
