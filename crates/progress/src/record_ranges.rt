// 1: a number in the record is outside its field's range.
ghost use Rattle.std.specs.Prelude.{◌≡◌, cond};
ghost use Rattle.meaning.specs.Record.{rec_fits};
ghost use Rattle.progress.specs.ProgressViews.{open_rec};

use crate::Progress;
use crate::by_year::tallies_fit;
use crate::last_dates::last_dates_fit;
use crate::site_ranges::site_fits;
use line_form::{END_TAG, NO_TAG};

// A number from S, 0 until S is taken. `taken` is what the last tag says of the record, found once for all of S's numbers.
pub fn once_taken(taken: bool, n: u64) -> u64
    ensures { result ≡ cond taken n 0 }
{
    if taken { n } else { 0 }
}

// Whether every number is in its field's range and AL and filière do not meet 9. The state has no range.
#[tactic(auto, unfolding(meaning::specs::Record::rec_fits, meaning::specs::Record::is_taken, meaning::specs::Record::history_of_rec, meaning::specs::Record::history_of_site, meaning::specs::Record::site_of_rec, meaning::specs::Filing::no_site, crate::specs::SiteRanges::site_accepted))]
pub fn record_fits(count: u64, progress: &Progress) -> bool
    ensures { result ≡ rec_fits (open_rec count progress.now) }
{
    let taken = progress.last != NO_TAG;
    let al = once_taken(taken, progress.site.al);
    let filiere = once_taken(taken, progress.site.filiere);
    count <= 9999
        && progress.last <= END_TAG
        && site_fits(taken, progress.site)
        && progress.readings <= 600
        && progress.last_index.0 <= 1_000_000_000_000
        && last_dates_fit(al, filiere, progress.lasts)
        && tallies_fit(al, filiere, &progress.tallies)
}
