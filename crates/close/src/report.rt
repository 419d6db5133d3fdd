// The report of a file that is not refused: level, points and years (document 01, Calls and the lines of a file).
ghost use Rattle.std.specs.Prelude.{◌≡◌, ◌≤◌, ◌<◌, ◌*◌};
ghost use Rattle.close.specs.ReportRows.{rows_in, reported_by};

use crate::outcome::{FileReport, NO_YEAR, YearRow};
use calendar::Years;
use curve::CurveTotals;
use history::Case;
use line_form::Site;
use std::array::from_fn;

// A row for each history year, and empty ones after them: each array has a place for the years of the longest history, since there is no heap. No
// history begins after 2021, so no year overflows.
fn rows(history: Years, cases: [Case; 10], present: [u64; 10]) -> [YearRow; 10]
    requires { history.first ≤ 2021 }
    ensures { result ≡ rows_in history cases present }
{
    let years = history.count as usize;
    from_fn(|k| {
        if k < years {
            YearRow {
                year: history.first + (k as u64),
                case: u8::from(cases[k]),
                present: present[k],
            }
        } else {
            NO_YEAR
        }
    })
}

#[tactic(auto, unfolding(crate::specs::ReportRows::reported_by))]
pub(crate) fn reported(
    site: Site,
    history: Years,
    cases: [Case; 10],
    found: CurveTotals,
) -> FileReport
    requires first_bound { history.first ≤ 2021 }
    requires counted_nonzero { (0 < found.counted) × (found.counted ≤ 4400) × (found.sum.0 ≤ 20_000_000_000_000 * found.counted) }
    ensures { result ≡ reported_by site.al site.filiere history cases found }
{
    FileReport {
        level: curve::ncc(site.al, site.filiere, found.sum, found.counted),
        points: found.counted,
        years: rows(history, cases, found.present),
    }
}
