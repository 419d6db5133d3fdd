// Refusal 1 at the close: points. At a date of the history what C can give, elsewhere missing.
ghost use Rattle.std.specs.Prelude.{◌≡◌, ◌≤◌};
ghost use Rattle.meaning.specs.Record.{points_fit};
ghost use Rattle.close_checks.specs.Winter.{dated_on};

use crate::day_contents::{all_given, all_missing};
use blocks::{HALF_HOURS, ROW};
use calendar::{Years, has_winter_date};

// The days of a year's row.
const DAYS: usize = ROW / HALF_HOURS;

// Rows of winter dates: the history, and the year of the first row, early enough that no sum overflows.
#[derive(Clone, Copy)]
pub(crate) struct WinterRows {
    pub history: Years,
    pub first: u64,
    ghost early: { first ≤ 9999 },
}

impl WinterRows {
    // Whether a day has a date of the history.
    #[tactic(auto, unfolding(crate::specs::Winter::dated_on, meaning::specs::Record::is_dated))]
    pub(crate) fn is_dated(self, day: usize) -> bool
        ensures { result ≡ dated_on self.history self.first day }
    {
        let year = self.first + (day / DAYS) as u64;
        self.history.contains(year) && has_winter_date(year, day % DAYS)
    }

    // Whether the near or the far block fits. A day's date is looked up once.
    pub(crate) fn points_fit(self, block: &[u32]) -> bool
        ensures { result ≡ points_fit self.history self.first block.now }
    {
        block.chunks(HALF_HOURS).enumerate().all(|(day, points)| {
            if self.is_dated(day) {
                all_given(points)
            } else {
                all_missing(points)
            }
        })
    }
}
