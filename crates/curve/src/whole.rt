// All years of the history: the curve, the points present by year, their sum and count, and whether 18 holds.
ghost use Rattle.std.specs.Prelude.{◌≡◌, replicate};
ghost use Rattle.meaning.specs.Level.{missing_entry};
ghost use Rattle.history.specs.Years.{cas_from};
ghost use Rattle.points.specs.Fits.{RatesFit};
ghost use Rattle.curve.specs.Files.{file_view};
ghost use Rattle.curve.specs.Places.{site_factors_of};
ghost use Rattle.curve.specs.Fits.{SiteFits, ListsFit, ProfiledFit, IndexYearsFit, CurveTotalsAre};

use crate::place_sums::NOTHING;
use crate::places::{SiteFile, year_places};
use crate::{CurveTotals, FileData};
use history::{Case, cas_from, cas_sum};
use line_form::Site;
use points::{SiteFactors, TargetYear};
use rounding::Exceeds;

// Enters year after year, in a curve whose entries are all missing. No year is cut short where a point exceeds the limit: what the curve then
// holds is promised too.
fn all_years(
    site_file: &SiteFile<'_>,
    cases: [Case; 10],
    rates: &[u64; 10],
    curve: &mut [u64; 4400],
) -> Result<CurveTotals, Exceeds>
    requires rates_fit { RatesFit rates.now }
    requires profiled_fit { ProfiledFit cases site_file.now.file.now.valid.now.indexes }
    requires curve_value { curve.old ≡ replicate 4400 missing_entry }
    ensures { CurveTotalsAre site_file.now.site.now (file_view site_file.now.file.now site_file.now.cas.now) cases rates.now curve.new result }
{
    let n = site_file.site.count as usize;
    let mut t = NOTHING;
    let mut present = [0u64; 10];
    for k in 0..n {
        let target = TargetYear {
            k,
            case: cases[k],
            rate: rates[k],
        };
        let p = year_places(site_file, target, curve);
        present[k] = p.counted;
        t = t.plus(p);
    }
    t.limit?;
    Ok(CurveTotals {
        sum: t.sum,
        counted: t.counted,
        present,
    })
}

// Fills the curve, whose entries are all missing before, and returns its totals, or 18.
pub fn fill(
    site: Site,
    file: &FileData<'_>,
    cases: [Case; 10],
    rates: &[u64; 10],
    curve: &mut [u64; 4400],
) -> Result<CurveTotals, Exceeds>
    requires site_fits { SiteFits site.al site.filiere site.ps.0 × ListsFit site.al file.now.blocks.now.near.now file.now.blocks.now.far.now file.now.blocks.now.slots.now file.now.energies.now file.now.totals.now rates.now }
    requires index_years { IndexYearsFit (site_factors_of site.al site.filiere site.ps.0).first file.now.totals.now file.now.valid.now.indexes cases }
    requires curve_value { curve.old ≡ replicate 4400 missing_entry }
    ensures { CurveTotalsAre (site_factors_of site.al site.filiere site.ps.0) (file_view file.now (cas_from (site_factors_of site.al site.filiere site.ps.0).first site.filiere)) cases rates.now curve.new result }
{
    let history = site.history();
    let cas = cas_from(history.first, site.filiere);
    let factors = SiteFactors {
        al: site.al,
        first: history.first,
        count: history.count,
        ps: site.ps,
        theta: note::theta(site.filiere),
        ca_sum: cas_sum(&cas, history.count as usize),
    };
    let site_file = SiteFile {
        site: &factors,
        file,
        cas: &cas,
    };
    all_years(&site_file, cases, rates, curve)
}
