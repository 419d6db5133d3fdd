// The number of peak points in a year's row, and whether its curve is valid.
ghost use Rattle.std.specs.Prelude.{◌≡◌, ◌<◌, ◌≤◌};
ghost use Rattle.meaning.specs.Validity.{enough};
ghost use Rattle.validity.specs.Availability.{is_present, present_on_day, availability_of, valid_row};

use blocks::{HALF_HOURS, NO_POINT};

// Points present and points expected in a year.
#[derive(Clone, Copy)]
pub(crate) struct Counts {
    present: usize,
    expected: usize,
}

impl Counts {
    // Whether at least 80% of the points are present.
    #[tactic(auto, unfolding(meaning::specs::Validity::enough))]
    fn is_enough(self) -> bool
        requires { (self.present ≤ 440) × (self.expected ≤ 440) }
        ensures { result ≡ enough self.present self.expected }
    {
        80 * self.expected <= 100 * self.present
    }
}

#[tactic(auto, using(lists::proofs::Ranges::get_d_any), unfolding(crate::specs::Availability::is_present, meaning::specs::Blocks::slot_at))]
fn is_present(row: &[u32], w: usize, h: usize) -> bool
    requires { (w < 152) × (h < 20) }
    ensures { result ≡ is_present row.now w h }
{
    row.get(HALF_HOURS * w + h)
        .is_some_and(|point| *point != NO_POINT)
}

// The number of points present on a day.
fn present_on_day(row: &[u32], w: usize) -> usize
    requires { w < 152 }
    ensures { result ≡ present_on_day row.now w }
{
    (0..HALF_HOURS).filter(|h| is_present(row, w, *h)).count()
}

// Both counts, in one pass over the peak days, for any row.
pub(crate) fn availability(row: &[u32], year: u64) -> Counts
    ensures { result ≡ availability_of row.now year }
{
    let days = note::peak_days(year);
    Counts {
        present: days.iter().map(|w| present_on_day(row, *w)).sum(),
        expected: HALF_HOURS * days.len(),
    }
}

// Whether at least 80% of the peak points are present and no break is declared. A break is a fact of the year, no choice of steps.
#[tactic(auto, using(crate::proofs::Parts::year_most, crate::proofs::Parts::expected_most), unfolding(crate::specs::Availability::availability_of, crate::specs::Availability::valid_row))]
pub fn is_valid(row: &[u32], year: u64, broken: bool) -> bool
    ensures { result ≡ valid_row row.now year broken }
{
    !broken && availability(row, year).is_enough()
}
