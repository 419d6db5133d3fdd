// The numbers by year, each tested with its year.
ghost use Rattle.std.specs.Prelude.{◌≡◌, ◌≤◌, ◌+◌, ℕ, Bool};
ghost use Rattle.meaning.specs.Record.{each_year};
ghost use Rattle.progress.specs.YearTests.{Tests, fits_at};

use calendar::Years;

// Whether the number at a place passes the test of its year, or is 0 where the file does not have its year. 0 passes untested: most numbers are 0.
fn number_fits<F: Fn(u64, u64) -> bool>(span: Years, fits: &F, place: usize, n: u64) -> bool
    requires { F.IsAlwaysCallable fits.now }
    ensures { (range : ℕ → ℕ → Bool) → Tests (F.post fits.now) range → span.first + span.count ≤ 9999 → result ≡ fits_at span range place n }
{
    let row = place as u64;
    n == 0 || (row < span.count && fits(span.first.saturating_add(row), n))
}

// Whether each year's number passes the test of its year, and is 0 for years that the file does not have.
pub(crate) fn each_year<F: Fn(u64, u64) -> bool>(span: Years, ns: &[u64], fits: F) -> bool
    requires { F.IsAlwaysCallable fits }
    ensures { (range : ℕ → ℕ → Bool) → Tests (F.post fits) range → span.first + span.count ≤ 9999 → result ≡ each_year span range ns.now }
{
    ns.iter()
        .enumerate()
        .all(|(k, n)| number_fits(span, &fits, k, *n))
}
