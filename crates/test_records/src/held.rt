// The blocks and the readings of a case, with what is forged in them.
ghost use Rattle.std.specs.Prelude.{◌≤◌};

use crate::records::is_before_s;
use crate::{Base, Forge};
use answers::Lengths;
use blocks::NO_POINT;
use readings::{Kind, Reading};
use rounding::Energy;
use std::array::from_fn;

// The blocks, each with room for one place more than its size. Arrays, since memory is fixed and there is no heap.
#[derive(Clone, Copy)]
pub(crate) struct Held {
    pub near: [u32; 15_201],
    pub far: [u32; 15_201],
    pub slots: [u16; 30_401],
    pub daily: [u32; 4393],
    pub readings: [Reading; 601],
}

// Forges a place, where the block has it.
pub(crate) fn set_at<T: Copy>(block: &mut [T], i: usize, value: T) {
    if let Some(place) = block.get_mut(i) {
        *place = value;
    }
}

// An estimated reading of 0 Wh.
fn reading(position: u32) -> Reading {
    Reading {
        position,
        count: Energy(0),
        kind: Kind::E,
    }
}

// Puts points of 1,000,000 W on every day of AL-5, the last near year, but 29 February.
fn put_year_of_points(near: &mut [u32; 15_201]) {
    near[12_160..15_200].fill(1_000_000);
    near[13_340..13_360].fill(NO_POINT);
}

impl Held {
    // A reading stands on every second day, so that none is on 29 February. The blocks are forged in place: handed on by value, 210 kB are copied again.
    pub(crate) fn of(base: Base, forge: Forge) -> Held {
        let mut held = Held {
            near: [NO_POINT; 15_201],
            far: [NO_POINT; 15_201],
            slots: [0; 30_401],
            daily: [0; 4393],
            readings: from_fn(|i| reading(2 * i as u32)),
        };
        if !is_before_s(base) {
            put_year_of_points(&mut held.near);
        }
        held.forge(forge);
        held
    }

    fn forge(&mut self, forge: Forge) {
        match forge {
            Forge::Near(i, watts) => set_at(&mut self.near, i, watts),
            Forge::Far(i, watts) => set_at(&mut self.far, i, watts),
            Forge::Slot(i, value) => set_at(&mut self.slots, i, value),
            Forge::Sum(i, value) => set_at(&mut self.daily, i, value),
            Forge::Position(i, position) if i < 600 => self.readings[i].position = position,
            Forge::Index(i, count) if i < 600 => self.readings[i].count = count,
            Forge::LastOf600(position) => self.readings[599].position = position,
            Forge::Uncounted(position) => self.readings.fill(reading(position)),
            _ => {}
        }
    }
}

// The sizes of the blocks.
const OWN: Lengths = Lengths {
    near: 15_200,
    far: 15_200,
    slots: 30_400,
    daily: 4_392,
    readings: 600,
    curve: 4_400,
};

// How many places of each block are lent.
pub(crate) fn lengths_of(forge: Forge) -> Lengths
    ensures points { (result.near ≤ 15_201) × (result.far ≤ 15_201) }
    ensures profiles { (result.slots ≤ 30_401) × (result.daily ≤ 4393) }
    ensures readings { result.readings ≤ 601 }
    ensures curve { result.curve ≤ 4401 }
{
    match forge {
        Forge::NearSize(n) => Lengths {
            near: n.min(15_201),
            ..OWN
        },
        Forge::FarSize(n) => Lengths {
            far: n.min(15_201),
            ..OWN
        },
        Forge::SlotsSize(n) => Lengths {
            slots: n.min(30_401),
            ..OWN
        },
        Forge::DailySize(n) => Lengths {
            daily: n.min(4_393),
            ..OWN
        },
        Forge::ReadingsSize(n) => Lengths {
            readings: n.min(601),
            ..OWN
        },
        Forge::CurveSize(n) => Lengths {
            curve: n.min(4_401),
            ..OWN
        },
        _ => OWN,
    }
}
