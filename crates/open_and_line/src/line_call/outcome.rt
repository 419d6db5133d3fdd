// What a line of a file returns, and the reading that it stores.
ghost use Rattle.std.specs.Prelude.{◌≡◌, ◌≤◌};
ghost use Rattle.refusals.specs.Refusals.{refusal_number};
ghost use Rattle.open_and_line.specs.LineOutcomes.{refused_of, line_outcome_of, with_reading};

use answers::{Answer, answer_to};
use progress::State;
use readings::{Reading, put};
use refusals::Refusal;

// The answer, and the record's state and count; its progress and the blocks are lent.
#[derive(Clone, Copy)]
pub struct LineOutcome {
    pub answer: Answer,
    pub state: State,
    pub count: u64,
}

// Stores the reading of a line at a place of the list, if the line is accepted and has one.
pub(crate) fn store(taken: Result<Option<Reading>, Refusal>, place: usize, readings: &mut [Reading])
    ensures { readings.new ≡ with_reading readings.old place taken }
{
    if let Ok(Some(reading)) = taken {
        put(readings, place, reading);
    }
}

// The outcome of a refusal: the record with this state and count.
#[tactic(auto, unfolding(answers::specs::Views::answer_to))]
pub(crate) fn refused(state: State, count: u64, refusal: Refusal) -> LineOutcome
    ensures { result ≡ refused_of state count (refusal_number refusal) }
{
    LineOutcome {
        answer: answer_to(Err(refusal), count),
        state,
        count,
    }
}

// The outcome of a line on an open record of `lines` lines: the line is counted, and 2 to 12 mark the record refused.
pub(crate) fn counted(lines: u64, taken: Result<Option<Reading>, Refusal>) -> LineOutcome
    requires { lines ≤ 9999 }
    ensures { result ≡ line_outcome_of lines taken }
{
    let count = lines + 1;
    match taken {
        Ok(_) => LineOutcome {
            answer: Answer::Accepted,
            state: State::Open,
            count,
        },
        Err(refusal) => refused(State::Refused, count, refusal),
    }
}
