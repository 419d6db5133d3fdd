// 16 on daily sums: an interval from which a valid-index year is profiled touches a year without D.
ghost use Rattle.std.specs.Prelude.{◌≡◌, ◌<◌, ◌≤◌};
ghost use Rattle.close_checks.specs.Totals.{some_winter};
ghost use Rattle.close_checks.specs.Closing.{misses_between, misses_days};

use crate::missing_data::profiled::ProfiledYears;

// Whether one of the axis years with a day from a to the one before b has no D date.
fn misses(dates: &[u64; 12], a: usize, b: usize) -> bool
    requires { (a < b) × (b ≤ 4392) }
    ensures { result ≡ misses_between dates.now a b }
{
    (a / 366..(b - 1) / 366 + 1).any(|z| dates[z] == 0)
}

impl ProfiledYears<'_> {
    #[tactic(auto, unfolding(crate::specs::Closing::misses_days))]
    pub(crate) fn lacks_daily(&self, daily_dates: &[u64; 12]) -> bool
        ensures { result ≡ some_winter self.now.history.count self.now.valid self.now.readings.positions.now self.now.readings.n (misses_days self.now.readings.positions.now daily_dates.now) }
    {
        self.some_profiled(|a, b| misses(daily_dates, a, b))
    }
}
