// 17: the daily sums of an interval from which a valid-index year is profiled total 0.
ghost use Rattle.std.specs.Prelude.{◌≡◌};
ghost use Rattle.close_checks.specs.Totals.{some_winter, totals_zero};

use crate::missing_data::profiled::ProfiledYears;

impl ProfiledYears<'_> {
    // An interval's total is found at its first day.
    #[tactic(auto, unfolding(crate::specs::Totals::totals_zero))]
    pub(crate) fn zero_total(&self, totals: &[u64; 4392]) -> bool
        ensures { result ≡ some_winter self.now.history.count self.now.valid self.now.readings.positions.now self.now.readings.n (totals_zero self.now.readings.positions.now totals.now) }
    {
        self.some_profiled(|a, _| totals[a] == 0)
    }
}
