// The valid-index years of a file, and the intervals from which they are profiled: those with a winter day of the year.
ghost use Rattle.std.specs.Prelude.{◌≡◌, ◌+◌, ◌<◌, ◌≤◌, ℕ, Bool};
ghost use Rattle.validity.specs.Columns.{interval_start, interval_end, Rising};
ghost use Rattle.close_checks.specs.Totals.{is_profiled, some_winter};

use calendar::Years;
use validity::Counted;

// The history years, which of them have a valid index, and the counted readings, whose positions rise. The years have an array of fixed size, since
// there is no heap.
#[derive(Clone, Copy)]
pub struct ProfiledYears<'a> {
    pub history: Years,
    pub valid: [bool; 10],
    pub readings: Counted<'a>,
    ghost few: { (history.first ≤ 9999) × (history.count ≤ 10) },
    ghost rising: { Rising readings.positions.now readings.n },
}

impl ProfiledYears<'_> {
    // Whether a valid-index year is profiled from the i-th interval.
    fn is_profiled(&self, i: usize) -> bool
        requires { i + 1 < self.now.readings.n }
        ensures { result ≡ is_profiled self.now.history.count self.now.valid self.now.readings.positions.now i }
    {
        let years = self.history.count as usize;
        (0..years).any(|k| self.valid[k] && self.readings.in_winter(366 * (k + 1), i))
    }

    // Whether the test holds for an interval from which a valid-index year is profiled, by its first day and the one after its last. A `for`: with
    // `any`, the proof of what the caller's test asks did not close inside the chain's own closure.
    pub(crate) fn some_profiled<F: Fn(usize, usize) -> bool>(&self, test: F) -> bool
        requires { (a b : ℕ) → (a < b) × (b < 4392) → F.pre test a b }
        ensures { (holds : ℕ → Bool) → ((i : ℕ) (r : Bool) → i + 1 < self.now.readings.n → F.post test (interval_start self.now.readings.positions.now i) (interval_end self.now.readings.positions.now i) r → r ≡ holds i) → result ≡ some_winter self.now.history.count self.now.valid self.now.readings.positions.now self.now.readings.n holds }
    {
        for i in 0..self.readings.interval_count() {
            if self.is_profiled(i)
                && test(self.readings.position(i), self.readings.position(i + 1))
            {
                return true;
            }
        }
        false
    }
}
