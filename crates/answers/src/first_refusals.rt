// The refusals that come before any other: 1, then 13, then 14 of a close. The flag `fit` is the answer of the test of 1.
ghost use Rattle.std.specs.Prelude.{◌≡◌, ◌&&◌};
ghost use Rattle.meaning.specs.Record.{rec_fits};
ghost use Rattle.progress.specs.ProgressViews.{rec_of, state_view};
ghost use Rattle.answers.specs.Refusals.{lengths_fit, open_refusal, ended_refusal};

use crate::Lengths;
use line_form::END_TAG;
use progress::{Progress, State, is_open, record_fits};
use refusals::{Refusal, refuse_if};

// 1 where something does not fit, else 13 where the record is not open.
#[tactic(auto, unfolding(crate::specs::Refusals::open_refusal, refusals::specs::Refusals::refused_if))]
fn open_refusal(fit: bool, state: State) -> Result<(), Refusal>
    ensures { result ≡ open_refusal fit (state_view state) }
{
    refuse_if(!fit, Refusal::Unfit)?;
    refuse_if(!is_open(state), Refusal::NotOpen)
}

// At a close: 1, else 13, else 14 where E was not taken, by the rank of the last tag, which the public record has as a number.
#[tactic(auto, unfolding(crate::specs::Refusals::open_refusal, crate::specs::Refusals::ended_refusal, refusals::specs::Refusals::refused_if))]
pub fn ended_refusal(fit: bool, state: State, last: u64) -> Result<(), Refusal>
    ensures { result ≡ ended_refusal fit (state_view state) last }
{
    open_refusal(fit, state)?;
    refuse_if(last != END_TAG, Refusal::NoEnd)
}

// At a line: 1, else 13. The record comes by its parts, since its type stands with its calls, above.
#[tactic(auto, using(progress::proofs::StateLaws::any_state))]
pub fn line_refusal(
    state: State,
    count: u64,
    progress: &Progress,
    lengths: Lengths,
) -> Result<(), Refusal>
    ensures { result ≡ open_refusal (lengths_fit lengths.near lengths.far lengths.slots lengths.daily lengths.readings lengths.curve && rec_fits (rec_of state count progress.now)) (state_view state) }
{
    open_refusal(lengths.fit() && record_fits(count, progress), state)
}
