// Rebuilt points: from sums over the donors that have the same month, day and half-hour, before rates (document 01, Cases).
ghost use Rattle.std.specs.Prelude.{◌≡◌, ℕ, ◌≤◌, ◌<◌, get_or, Ok};
ghost use Rattle.std.proofs.Math.Option as math;
ghost use Rattle.meaning.specs.Points.{Origin, own_of, rebuilt_by};
ghost use Rattle.rounding.specs.Answers.{limit_view};
ghost use Rattle.history.specs.Fits.{AtMost};
ghost use Rattle.points.specs.OwnFits.{PlacePointFits, PlacePointIs};
ghost use Rattle.points.specs.DonorOrigins.{curve_origin, index_origin, donors_among};
ghost use Rattle.points.specs.Sums.{donors_of, with_donor, rebuilt_from};
ghost use Rattle.points.specs.DonorFits.{CasFit, SumsFit, DonorsFit};

use crate::days::HalfHour;
use crate::own::measured;
use rounding::{Exceeds, Power};

// The sum of the donors' points in mW and that of their CA.
#[derive(Clone, Copy)]
pub(crate) struct DonorSums {
    points: Power,
    ca_sum: u64,
}

impl DonorSums {
    // The sums with one more donor; unchanged where the year has no such point.
    #[tactic(auto, unfolding(crate::specs::Sums::with_donor))]
    fn with_donor(self, ca: u64, point: Option<Power>) -> DonorSums
        requires { SumsFit 9 self × (ca ≤ 9_999) × PlacePointFits (Ok point) }
        ensures { result ≡ with_donor self ca point }
    {
        let Some(p) = point else {
            return self;
        };
        DonorSums {
            points: Power(self.points.0 + p.0),
            ca_sum: self.ca_sum + ca,
        }
    }

    // The rebuilt point: CA of the target times the sum of the donors' points, over the sum of their CA. No donor has a CA of 0.
    #[tactic(auto, using(crate::proofs::Gathered::none_rebuilt))]
    fn rebuilt(self, ca: u64) -> Result<Option<Power>, Exceeds>
        requires { (ca ≤ 9_999) × SumsFit 10 self }
        ensures { limit_view result ≡ rebuilt_from ca self }
    {
        if self.ca_sum == 0 {
            return Ok(None);
        }
        rounding::rebuilt(ca, self.points, self.ca_sum).map(Some)
    }
}

impl HalfHour<'_> {
    // Case 2: the point of a year with a valid curve, missing for any other year.
    pub(crate) fn curve_donor(self, k: usize) -> Option<Power>
        requires { k < 10 }
        ensures { PlacePointIs (own_of (curve_origin self.entry.day.now.site.now.al self.entry.day.now.site.now.first self.entry.day.now.blocks.now.near.now self.entry.day.now.blocks.now.far.now self.entry.day.now.curves.now self.entry.day.now.w self.entry.h k)) (Ok result) }
    {
        if !self.day.curves[k] {
            return None;
        }
        measured(self.code(self.day.site.first + k as u64))
    }

    // Cases 3 and 5: the profiled point of an index donor, missing for any other year.
    pub(crate) fn index_donor(self, k: usize) -> Result<Option<Power>, Exceeds>
        requires { k < 10 }
        ensures { PlacePointIs (own_of (index_origin self.entry.day.now.blocks.now.slots.now self.entry.day.now.years.now self.entry.day.now.w self.entry.h k)) result }
    {
        if !self.day.years[k].is_donor {
            return Ok(None);
        }
        self.profiled(k)
    }
}

// The sums over n history years, from the point that each gives as a donor, or refusal 18 for a donor's own point. At most ten: their sums then fit.
// A `for` with `?`: a `try_fold` would have the loop's bounds again as clauses of its closure.
fn donor_sums<F: Fn(usize) -> Result<Option<Power>, Exceeds>>(
    n: usize,
    cas: &[u64; 10],
    donor: F,
) -> Result<DonorSums, Exceeds>
    requires bounds { (n ≤ 10) × AtMost 9_999 cas.now }
    requires callable { (k : ℕ) → k < n → F.pre donor k }
    requires fits { (k : ℕ) (r : _) → k < n → F.post donor k r → PlacePointFits r }
    ensures fit { DonorsFit n result }
    ensures are { (given : ℕ → math.Option Origin) → ((k : ℕ) (r : _) → k < n → F.post donor k r → PlacePointIs (own_of (given k)) r) → limit_view result ≡ donors_of (donors_among n cas.now given) }
{
    let mut sums = DonorSums {
        points: Power(0),
        ca_sum: 0,
    };
    for k in 0..n {
        sums = sums.with_donor(cas[k], donor(k)?);
    }
    Ok(sums)
}

// The point of the k-th year, rebuilt from n history years; `donor` gives the point of each as a donor.
pub(crate) fn rebuilt_point<F: Fn(usize) -> Result<Option<Power>, Exceeds>>(
    k: usize,
    n: usize,
    cas: &[u64; 10],
    donor: F,
) -> Result<Option<Power>, Exceeds>
    requires bounds { (k < 10) × (n ≤ 10) × CasFit n cas.now }
    requires callable { (j : ℕ) → j < n → F.pre donor j }
    requires fits { (j : ℕ) (r : _) → j < n → F.post donor j r → PlacePointFits r }
    ensures { (given : ℕ → math.Option Origin) → ((j : ℕ) (r : _) → j < n → F.post donor j r → PlacePointIs (own_of (given j)) r) → PlacePointIs (rebuilt_by (get_or cas.now k 0) (donors_among n cas.now given)) result }
{
    donor_sums(n, cas, donor)?.rebuilt(cas[k])
}
