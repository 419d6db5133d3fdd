// What a call answers, and the refusals that come before any other: 1, then 13, then 14 of a close.
#![tactic(auto)]

mod first_refusals; // the order of 1, 13 and 14, and 1 and 13 of a line
mod lengths; // 1 on the sizes of the lent blocks

ghost use Rattle.std.specs.Prelude.{◌≡◌};
ghost use Rattle.answers.specs.Views.{answer_to};

pub use first_refusals::{ended_refusal, line_refusal};
pub use lengths::Lengths;
use refusals::Refusal;
use rounding::Watts;

#[derive(Clone, Copy, PartialEq, Eq)]
pub enum Answer {
    Accepted,
    // by the number and not by name: the sheet's texts are promised of every number
    Refused {
        number: u64,
        count: u64,
    },
    // the level, and the points counted
    Reported {
        al: u64,
        filiere: u64,
        level: Watts,
        points: u64,
    },
}

// Accepted where a line is taken, else its refusal.
#[tactic(auto, unfolding(crate::specs::Views::answer_to))]
pub fn answer_to(taken: Result<(), Refusal>, count: u64) -> Answer
    ensures { result ≡ answer_to taken count }
{
    match taken {
        Ok(()) => Answer::Accepted,
        Err(refusal) => Answer::Refused {
            number: refusal.into(),
            count,
        },
    }
}
