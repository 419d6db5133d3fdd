// The refusals 1, 13 and 14 of a close, from the record and the lent blocks.
ghost use Rattle.std.specs.Prelude.{◌≡◌, [], ◌≤◌};
ghost use Rattle.progress.specs.declared.State.{State};
ghost use Rattle.progress.specs.ProgressViews.{state_view, rec_of};
ghost use Rattle.answers.specs.Refusals.{ended_refusal};
ghost use Rattle.close.specs.Lent.{lent_columns};
ghost use Rattle.close.specs.FirstRefusals.{FoundFit, all_fit};

use crate::ReadBlocks;
use answers::{Lengths, ended_refusal};
use calendar::{axis, history};
use close_checks::contents_fit;
use line_form::NO_TAG;
use progress::{Progress, State, once_taken, record_fits};
use readings::Columns;
use refusals::Refusal;
use validity::Counted;

// 1 on the contents of the blocks; state and count of the record do not matter.
fn blocks_fit(progress: Progress, blocks: ReadBlocks, columns: &Columns) -> bool
    requires { (progress.readings ≤ 600) × (progress.site.al ≤ 9999) }
    ensures { FoundFit progress (lent_columns blocks.entry columns.now []) result }
{
    let site = progress.site;
    let al = once_taken(progress.last != NO_TAG, site.al);
    let filiere = once_taken(progress.last != NO_TAG, site.filiere);
    let years = history(al, filiere);
    let around = axis(al, filiere);
    let readings = Counted::of(columns, progress.readings as usize);
    contents_fit(blocks, &readings, site.al, years, around)
}

// 1: whether sizes, record and contents fit; the state does not matter.
#[tactic(auto, using(progress::proofs::StateLaws::any_state, crate::proofs::Laws::within), unfolding(crate::specs::FirstRefusals::all_fit))]
fn all_fit(
    count: u64,
    progress: Progress,
    lengths: Lengths,
    blocks: ReadBlocks,
    columns: &Columns,
) -> bool
    ensures { (st : State) → result ≡ all_fit (rec_of st count progress) lengths (lent_columns blocks.entry columns.now []) }
{
    lengths.fit() && record_fits(count, &progress) && blocks_fit(progress, blocks, columns)
}

// The refusal 1, 13 or 14. The record comes by its parts, since its type stands with its calls, above; a struct of state, count and progress would be
// the record under a second name.
pub(crate) fn close_refusal(
    state: State,
    count: u64,
    progress: Progress,
    lengths: Lengths,
    blocks: ReadBlocks,
    columns: &Columns,
) -> Result<(), Refusal>
    ensures { result ≡ ended_refusal (all_fit (rec_of state count progress) lengths (lent_columns blocks.entry columns.now [])) (state_view state) progress.last }
{
    let fit = all_fit(count, progress, lengths, blocks, columns);
    ended_refusal(fit, state, progress.last)
}
