// The result of the call, from the refusals or the result for the file.
ghost use Rattle.std.specs.Prelude.{◌≡◌, cond, eqb};
ghost use Rattle.progress.specs.declared.State.TheVariants.{Refused};
ghost use Rattle.refusals.specs.Refusals.{refusal_number};
ghost use Rattle.close.specs.Ends.{refused_of, close_outcome_of};

use crate::outcome::file::{FileReport, NO_YEARS, YearRow};
use answers::{Answer, answer_to};
use line_form::Site;
use progress::State;
use refusals::Refusal;

// The answer, the record's state, and the years of a report from the oldest on; all 0 after the last, and for a refusal. Ten places: there is no heap.
#[derive(Clone, Copy)]
pub struct CloseOutcome {
    pub answer: Answer,
    pub state: State,
    pub years: [YearRow; 10],
}

// The state after a refusal by 1, 13 or 14: 1 and 13 leave it; 14 marks the record refused.
pub(crate) fn state_after(refusal: Refusal, state: State) -> State
    ensures { result ≡ cond (eqb (refusal_number refusal) 14) Refused state }
{
    if refusal == Refusal::NoEnd {
        State::Refused
    } else {
        state
    }
}

// The result of a refusal; the count is the record's.
#[tactic(auto, unfolding(crate::specs::Ends::no_years, answers::specs::Views::answer_to))]
pub(crate) fn refuse(state: State, count: u64, refusal: Refusal) -> CloseOutcome
    ensures { result ≡ refused_of state count refusal }
{
    CloseOutcome {
        answer: answer_to(Err(refusal), count),
        state,
        years: NO_YEARS,
    }
}

// The result of a close from that of its file: 15 to 18 mark the record refused; else it is closed.
#[tactic(auto, unfolding(crate::specs::Ends::close_outcome_of))]
pub(crate) fn close_outcome(
    count: u64,
    site: Site,
    closing: Result<FileReport, Refusal>,
) -> CloseOutcome
    ensures { result ≡ close_outcome_of count site closing }
{
    match closing {
        Ok(report) => {
            let years = report.years;
            CloseOutcome {
                answer: Answer::Reported {
                    al: site.al,
                    filiere: site.filiere,
                    level: report.level,
                    points: report.points,
                },
                state: State::Closed,
                years,
            }
        }
        Err(refusal) => refuse(State::Refused, count, refusal),
    }
}
