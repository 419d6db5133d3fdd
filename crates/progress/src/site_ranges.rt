// 1 on what S gave: AL, filière, meter and PS. The ranges are those once S is taken and those before, so each test asks which (`taken`).
ghost use Rattle.std.specs.Prelude.{◌≡◌};
ghost use Rattle.meaning.specs.Record.{meter_fits};
ghost use Rattle.line_form.specs.Views.{meter_view, site_view};
ghost use Rattle.progress.specs.SiteRanges.{site_number_fits, site_accepted};

use line_form::{Meter, Site, is_too_soon};
use rounding::Watts;

// Whether a number of S is from `least` to `most`; it may also be 0 until S is taken.
#[tactic(auto, unfolding(crate::specs::SiteRanges::site_number_fits, meaning::specs::Record::is_within))]
fn site_number_fits(taken: bool, least: u64, most: u64, n: u64) -> bool
    ensures { result ≡ site_number_fits taken least most n }
{
    (!taken && n == 0) || (least..=most).contains(&n)
}

// Whether PS is from 1 to 100,000,000 W, with 0 as above.
fn ps_fits(taken: bool, ps: Watts) -> bool
    ensures { result ≡ site_number_fits taken 1 100_000_000 ps.0 }
{
    site_number_fits(taken, 1, 100_000_000, ps.0)
}

// Whether there is a meter once S is taken, and none before.
#[tactic(auto, unfolding(meaning::specs::Record::meter_fits))]
fn meter_fits(taken: bool, meter: Option<Meter>) -> bool
    ensures { result ≡ meter_fits taken (meter_view meter) }
{
    taken == meter.is_some()
}

#[tactic(auto, unfolding(crate::specs::SiteRanges::site_accepted, crate::specs::SiteRanges::site_number_fits, meaning::specs::Record::site_fits))]
pub(crate) fn site_fits(taken: bool, site: Site) -> bool
    ensures { result ≡ site_accepted taken (site_view site) }
{
    site_number_fits(taken, 2021, 2026, site.al)
        && site_number_fits(taken, 1, 11, site.filiere)
        && ps_fits(taken, site.ps)
        && meter_fits(taken, site.meter)
        && !is_too_soon(site.al, site.filiere)
}
