// A record with no line taken.
ghost use Rattle.std.specs.Prelude.{◌≡◌};
ghost use Rattle.meaning.specs.Record.{empty_rec, never_opened};
ghost use Rattle.progress.specs.ProgressViews.{state_view};
ghost use Rattle.record_calls.specs.Views.{view};

use crate::Record;
use progress::{Progress, State};

impl Record {
    // A record in a state, with no line taken: every number is 0, and there is no meter.
    pub(crate) fn empty(state: State) -> Record
        ensures { view result ≡ empty_rec (state_view state) }
    {
        Record {
            state,
            count: 0,
            progress: Progress::default(),
        }
    }

    #[tactic(auto, unfolding(meaning::specs::Record::never_opened))]
    pub fn never_opened() -> Record
        ensures { view result ≡ never_opened }
    {
        Record::empty(State::NeverOpened)
    }
}
