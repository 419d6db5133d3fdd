// The close of a file: 15 to 18, the curve and the report.
ghost use Rattle.std.specs.Prelude.{◌≡◌, true};
ghost use Rattle.line_form.specs.Views.{site_view};
ghost use Rattle.progress.specs.TallyViews.{tallies_view};
ghost use Rattle.meaning.specs.Record.{filing_held};
ghost use Rattle.close.specs.Lent.{lent_columns};
ghost use Rattle.close.specs.Closes.{FileFits, file_out, file_out_of};

use crate::ReadBlocks;
use crate::outcome::FileReport;
use crate::report::reported;
use blocks::NO_ENTRY;
use close_checks::{ProfiledYears, data_refusal};
use curve::FileData;
use progress::Progress;
use readings::Columns;
use refusals::Refusal;
use rounding::Energy;
use validity::Counted;

// Closes the file of a record, from its progress and the lent blocks, the readings as columns. The curve is computed in an array of its own and
// stored only where nothing is refused.
pub(crate) fn close_file(
    progress: Progress,
    blocks: ReadBlocks,
    columns: &Columns,
    curve: &mut [u64],
) -> Result<FileReport, Refusal>
    requires { FileFits (site_view progress.site) progress.readings (tallies_view progress.tallies) (lent_columns blocks columns.now curve.old) columns.now.positions columns.now.indexes columns.now.kinds }
    ensures { file_out result curve.new ≡ file_out_of (filing_held (site_view progress.site) progress.readings (tallies_view progress.tallies) true (lent_columns blocks.entry columns.now curve.old)) curve.old }
{
    let site = progress.site;
    let tallies = progress.tallies;
    let history = site.history();
    let years = history.count as usize;
    let readings = Counted::of(columns, progress.readings as usize);
    let valid = history::valid_years(site.al, history, tallies.breaks, &blocks, &readings);
    let cases = history::cases_of(site.meter, valid, years);
    let defaults = history::default_years(cases, years);
    // E and daily total by position
    let mut energies = [Energy(0); 4392];
    let mut totals = [0u64; 4392];
    readings.by_position(blocks.daily, &mut energies, &mut totals);
    let profiled = ProfiledYears {
        history,
        valid: valid.indexes,
        readings,
    };
    data_refusal(&profiled, &tallies, &defaults, &totals)?;
    let mut filled = [NO_ENTRY; 4400];
    let file = FileData {
        blocks: &blocks,
        energies: &energies,
        totals: &totals,
        valid: &valid,
    };
    let found = curve::fill(site, &file, cases, &tallies.rates, &mut filled)?;
    curve.copy_from_slice(&filled);
    Ok(reported(site, history, cases, found))
}
