// The refusals 4 to 12 of S and E, the first line of a file and its last.
ghost use Rattle.std.specs.Prelude.{◌≡◌};
ghost use Rattle.meaning.specs.Line.{S, E, site_on};
ghost use Rattle.meaning.specs.Refusals.{refusal};
ghost use Rattle.refusals.specs.Refusals.{unless_reason};
ghost use Rattle.line_form.specs.Ranges.{is_site_outside};
ghost use Rattle.line_form.specs.Views.{site_repr};
ghost use Rattle.line_checks.specs.Before.{Known, before_first, before_end};

use line_checks::{in_order, is_misplaced};
use line_form::{NO_TAG, Site, Tag, is_too_soon, read_count, read_site};
use progress::Progress;
use refusals::{Refusal, refuse_if};

#[tactic(auto, unfolding(line_form::specs::Ranges::is_site_outside, meaning::specs::Record::is_within))]
fn is_site_outside(site: Site) -> bool
    ensures { result ≡ is_site_outside site }
{
    !(2021..=2026).contains(&site.al)
        || !(1..=11).contains(&site.filiere)
        || !(1..=100_000_000).contains(&site.ps.0)
}

// The site of an S line.
pub(crate) fn check_site(progress: &Progress, line: &[u8]) -> Result<Site, Refusal>
    requires { Known S line.now }
    ensures { result ≡ unless_reason (refusal (before_first progress.now.last) line.now) (site_repr (site_on line.now)) }
{
    let site = in_order(progress.last != NO_TAG, read_site(line))?;
    refuse_if(is_site_outside(site), Refusal::Outside)?;
    refuse_if(is_too_soon(site.al, site.filiere), Refusal::TooSoon)?;
    Ok(site)
}

pub(crate) fn check_end(progress: &Progress, count: u64, line: &[u8]) -> Result<(), Refusal>
    requires { Known E line.now }
    ensures { result ≡ unless_reason (refusal (before_end progress.now.last count) line.now) tt }
{
    let misplaced = is_misplaced(progress.last, Tag::E);
    let lines = in_order(misplaced, read_count(line))?;
    refuse_if(9999 < lines, Refusal::Outside)?;
    refuse_if(lines != count, Refusal::Miscounted)
}
