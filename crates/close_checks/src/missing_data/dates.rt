// 15: the number of P and D dates of each year.
ghost use Rattle.std.specs.Prelude.{◌≡◌, ◌≤◌};
ghost use Rattle.meaning.specs.Closing.{is_partial};
ghost use Rattle.validity.specs.Dates.{partial_dates};

use calendar::{Years, all_dates, all_winter_dates};
use progress::Tallies;

#[tactic(auto, unfolding(meaning::specs::Closing::is_partial))]
fn is_partial(n: u64, full: u64) -> bool
    ensures { result ≡ is_partial n full }
{
    n != 0 && n != full
}

// 15: whether some year has P or D dates, but not all of them.
pub(crate) fn partial(history: Years, tallies: &Tallies) -> bool
    requires { (history.first ≤ 9999) × (history.count ≤ 10) }
    ensures { result ≡ partial_dates history.first history.count tallies.now.profile_dates tallies.now.daily_dates }
{
    let first = history.first;
    let years = history.count as usize;
    let axis_first = first.saturating_sub(1);
    (0..years).any(|k| is_partial(tallies.profile_dates[k], all_winter_dates(first + k as u64)))
        || (years != 0
            && (0..years + 2).any(|k| is_partial(
                tallies.daily_dates[k],
                all_dates(axis_first + k as u64),
            )))
}
