// What opening, line and close answer to a case.
use crate::held::{Held, lengths_of};
use crate::records::record_of;
use crate::{Base, Forge};
use answers::Answer;
use line_form::END_TAG;

pub(crate) fn open_answer(base: Base, forge: Forge) -> Answer {
    let mut held = Held::of(base, forge);
    let mut curve = [0u64; 4401];
    let lengths = lengths_of(forge);
    let opened = record_of(base, forge, 1).open(
        &mut held.near[..lengths.near],
        &mut held.far[..lengths.far],
        &mut held.slots[..lengths.slots],
        &mut held.daily[..lengths.daily],
        &mut held.readings[..lengths.readings],
        &mut curve[..lengths.curve],
    );
    opened.answer
}

pub(crate) fn line_answer(base: Base, forge: Forge, line: &[u8]) -> Answer {
    let mut held = Held::of(base, forge);
    let curve = [0u64; 4401];
    let lengths = lengths_of(forge);
    let taken = record_of(base, forge, 1).line(
        line,
        &mut held.near[..lengths.near],
        &mut held.far[..lengths.far],
        &mut held.slots[..lengths.slots],
        &mut held.daily[..lengths.daily],
        &mut held.readings[..lengths.readings],
        &curve[..lengths.curve],
    );
    taken.answer
}

pub(crate) fn close_answer(base: Base, forge: Forge) -> Answer {
    let held = Held::of(base, forge);
    let mut curve = [0u64; 4401];
    let lengths = lengths_of(forge);
    let closed = record_of(base, forge, END_TAG).close(
        &held.near[..lengths.near],
        &held.far[..lengths.far],
        &held.slots[..lengths.slots],
        &held.daily[..lengths.daily],
        &held.readings[..lengths.readings],
        &mut curve[..lengths.curve],
    );
    closed.answer
}
