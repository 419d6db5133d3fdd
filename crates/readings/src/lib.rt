// A reading: its position on the axis, its count and its kind; and the lent list of readings.
#![tactic(auto)]

mod reading_list; // the functions that touch the lent list: one reading stored, all made fresh, all copied into columns

ghost use Rattle.std.specs.Prelude.{◌≡◌};
ghost use Rattle.meaning.specs.Line.{kind_of_letter, is_kind};
ghost use Rattle.meaning.specs.Blocks.{letter_of_kind};
ghost use Rattle.readings.specs.Readings.{kind_view, kind_repr, Reads, fresh_readings};

pub use reading_list::{columns_of, put, set_fresh};
use rounding::Energy;

// R real, C corrected, E estimated.
#[derive(Clone, Copy, Debug, PartialEq, Eq)]
pub enum Kind {
    R,
    C,
    E,
}

// A letter that is no kind's.
#[derive(Clone, Copy, Debug, PartialEq, Eq)]
pub struct UnknownKind(pub u8);

impl TryFrom<u8> for Kind {
    type Error = UnknownKind;

    ghost try_from_gives = { Reads };

    #[tactic(auto, unfolding(meaning::specs::Line::kind_of_letter))]
    fn try_from(letter: u8) -> Result<Kind, UnknownKind> {
        match letter {
            b'R' => Ok(Kind::R),
            b'C' => Ok(Kind::C),
            b'E' => Ok(Kind::E),
            _ => Err(UnknownKind(letter)),
        }
    }
}

impl From<Kind> for u8 {
    ghost from_gives = { λ kind letter. letter ≡ letter_of_kind (kind_view kind) };

    // The conversion itself, in one place.
    fn from(kind: Kind) -> u8 {
        match kind {
            Kind::R => b'R',
            Kind::C => b'C',
            Kind::E => b'E',
        }
    }
}

#[derive(Clone, Copy)]
pub struct Reading {
    pub position: u32,
    pub count: Energy,
    pub kind: Kind,
}

// A reading before any is stored at its place.
pub(crate) const FRESH: Reading = Reading {
    position: 0,
    count: Energy(0),
    kind: Kind::E,
};

// The fields of 600 readings, a column for each, arrays of fixed size since there is no heap. Document 01 lends readings as a slice of structs,
// which few functions touch, and has the core run over plain columns. Kinds are letters there: what runs over columns promises its answer for any
// letter, and a column of kinds would ask more of its callers.
#[derive(Clone, Copy)]
pub struct Columns {
    pub positions: [u32; 600],
    pub indexes: [u64; 600],
    pub kinds: [u8; 600],
}

#[tactic(auto, using(crate::proofs::LetterKinds::reads_ok))]
pub fn is_kind(letter: u8) -> bool
    ensures { result ≡ is_kind (kind_of_letter letter) }
{
    Kind::try_from(letter).is_ok()
}

// The kind of a letter; one that is none of the three counts as E.
#[tactic(auto, using(crate::proofs::LetterKinds::reads_kind))]
pub fn kind_of(letter: u8) -> Kind
    ensures { result ≡ kind_repr (kind_of_letter letter) }
{
    Kind::try_from(letter).unwrap_or(Kind::E)
}

// 600 fresh readings, as many as a file can have: the list before an opening.
#[tactic(auto, unfolding(crate::specs::Readings::fresh_readings))]
pub fn fresh_readings() -> [Reading; 600]
    ensures { result ≡ fresh_readings }
{
    [FRESH; 600]
}
