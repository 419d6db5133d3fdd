// 16 on profiles: the number of P dates of each year.
ghost use Rattle.std.specs.Prelude.{◌≡◌};
ghost use Rattle.validity.specs.Dates.{lacks_profiles};

use crate::missing_data::profiled::ProfiledYears;

impl ProfiledYears<'_> {
    // 16: whether a valid-index year or a default-power year has no P date.
    pub(crate) fn lacks_profile(&self, defaults: &[bool; 10], profile_dates: &[u64; 10]) -> bool
        ensures { result ≡ lacks_profiles self.now.history.count self.now.valid defaults.now profile_dates.now }
    {
        let years = self.history.count as usize;
        (0..years).any(|k| (self.valid[k] || defaults[k]) && profile_dates[k] == 0)
    }
}
