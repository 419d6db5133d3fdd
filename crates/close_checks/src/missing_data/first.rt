// 15, 16 and 17, in order of checking.
ghost use Rattle.std.specs.Prelude.{◌≡◌};
ghost use Rattle.close_checks.specs.DataRefusals.{data_refusal};

use crate::missing_data::dates::partial;
use crate::missing_data::profiled::ProfiledYears;
use progress::Tallies;
use refusals::{Refusal, refuse_if};

// The first of 15, 16 and 17 that holds. `defaults` says which history years have default power; `totals` has the daily total around each day.
#[tactic(auto, unfolding(crate::specs::DataRefusals::data_refusal, crate::specs::DataRefusals::first_refusal, refusals::specs::Refusals::refused_if))]
pub fn data_refusal(
    years: &ProfiledYears<'_>,
    tallies: &Tallies,
    defaults: &[bool; 10],
    totals: &[u64; 4392],
) -> Result<(), Refusal>
    ensures { result ≡ data_refusal years.now.history tallies.now.profile_dates tallies.now.daily_dates years.now.valid defaults.now years.now.readings.positions.now years.now.readings.n totals.now }
{
    refuse_if(partial(years.history, tallies), Refusal::Partial)?;
    let lacking = years.lacks_profile(defaults, &tallies.profile_dates)
        || years.lacks_daily(&tallies.daily_dates);
    refuse_if(lacking, Refusal::NoData)?;
    refuse_if(years.zero_total(totals), Refusal::ZeroTotal)
}
