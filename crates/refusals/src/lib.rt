// The refusals of document 01, 1 to 18, each with its number.
#![tactic(auto)]

ghost use Rattle.std.specs.Prelude.{◌≡◌};
ghost use Rattle.refusals.specs.Refusals.{refusal_number, of_exceeds, refused_if};

use rounding::Exceeds;

// Why a call is refused, in order of checking but for NotOpen, which comes right after Unfit.
#[derive(Clone, Copy, Debug, PartialEq, Eq)]
pub enum Refusal {
    // 1: a block's size, a number of the record, or at the close what the blocks hold
    Unfit = 1,
    Illegible = 2,
    Unknown = 3,
    Misplaced = 4,
    Malformed = 5,
    Outside = 6,
    NoDate = 7,
    NotLater = 8,
    TooSoon = 9,
    Falling = 10,
    TooMany = 11,
    Miscounted = 12,
    NotOpen = 13,
    NoEnd = 14,
    Partial = 15,
    NoData = 16,
    ZeroTotal = 17,
    TooHigh = 18,
}

impl From<Refusal> for u64 {
    ghost from_gives = { λ refusal n. n ≡ refusal_number refusal };

    fn from(refusal: Refusal) -> u64 {
        refusal as u64
    }
}

// 18 of a point is that of the close.
impl From<Exceeds> for Refusal {
    ghost from_gives = { λ exceeds refusal. refusal ≡ of_exceeds exceeds };

    fn from(_: Exceeds) -> Refusal {
        Refusal::TooHigh
    }
}

// The refusal where its check holds: the flag is the answer of a test.
#[tactic(auto, unfolding(crate::specs::Refusals::refused_if))]
pub fn refuse_if(check: bool, refusal: Refusal) -> Result<(), Refusal>
    ensures { result ≡ refused_if check refusal }
{
    if check { Err(refusal) } else { Ok(()) }
}
