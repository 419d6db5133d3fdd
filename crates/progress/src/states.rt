// Whether a record is open.
ghost use Rattle.std.specs.Prelude.{◌≡◌};
ghost use Rattle.meaning.specs.Record.{is_open};
ghost use Rattle.progress.specs.ProgressViews.{state_view};

use crate::State;

pub fn is_open(state: State) -> bool
    ensures { result ≡ is_open (state_view state) }
{
    state == State::Open
}
