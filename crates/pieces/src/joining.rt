// The pending line: its bytes, which are held from piece to piece.
ghost use Rattle.std.specs.Prelude.{◌≡◌, ◌==◌, take};
ghost use Rattle.pieces.specs.Joined.{pending_line, joined_of};

use crate::line_ends::{ROOM, end};
use text::put_text;

// The bytes of a line whose end has not come: the first ones of `line`, as many as are held, and of more than 320 the first 320.
// An array with its length, since memory is fixed and there is no heap; the kit's vector of fixed capacity is not `Copy`, which a run is,
// and its string takes UTF-8 alone.
#[derive(Clone, Copy)]
pub struct Pending {
    pub line: [u8; 321],
    pub held: usize,
}

// The pending line with the bytes that a piece adds to it.
#[derive(Clone, Copy)]
pub enum Joined {
    // whole, and so to be applied: its bytes in an array, as `Pending` holds them and for the same reason, how many they are, and how many of the
    // piece's are used up, its byte 10 included
    Whole {
        line: [u8; 321],
        bytes: usize,
        used: usize,
    },
    // the whole piece is a part of it, and its end has not come
    Begun(Pending),
}

impl Pending {
    // The first bytes of a line, at most 320 of them.
    pub fn of(begun: &[u8]) -> Pending
        ensures { pending_line result ≡ take 320 begun.now }
    {
        let mut line = [0u8; 321];
        let held = begun.len().min(320);
        put_text(&begun[..held], &mut line, 0);
        Pending { line, held }
    }

    // Whether no byte is held.
    pub fn is_empty(&self) -> bool
        ensures { result ≡ (self.now.held == 0) }
    {
        self.held == 0
    }

    // The bytes held.
    pub fn bytes(&self) -> &[u8]
        ensures { result.now ≡ pending_line self.now }
    {
        &self.line[..self.held.min(320)]
    }

    // Joined with the piece that follows.
    #[tactic(auto, unfolding(crate::specs::Joined::joined_of))]
    pub fn join(self, piece: &[u8]) -> Joined
        ensures { result ≡ joined_of self piece.now }
    {
        let held = self.held.min(320);
        let limit = piece.len().min(ROOM - held);
        let added = end(&piece[..limit]);
        let bytes = held + added;
        let mut line = self.line;
        put_text(&piece[..added], &mut line, held);
        if added < limit || ROOM <= bytes {
            return Joined::Whole {
                line,
                bytes,
                used: limit.min(added + 1),
            };
        }
        Joined::Begun(Pending { line, held: bytes })
    }
}
