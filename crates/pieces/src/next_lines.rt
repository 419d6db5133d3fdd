// The next line of a piece of the input.
ghost use Rattle.std.specs.Prelude.{◌≡◌, false, MatchOption};
ghost use Rattle.pieces.specs.NextLines.{has_line, IsNext};

use crate::line_ends::{ROOM, end};

// A whole line, and what follows it: parts of the slice that it is the first line of.
#[derive(Clone, Copy)]
pub struct NextLine<'a> {
    pub line: &'a [u8],
    pub rest: &'a [u8],
}

// The first line of what is left of a piece; none where it has neither its byte 10 nor its 321st byte.
#[tactic(auto, using(text::proofs::Laws::rest_of_lem))]
pub fn next_line(left: &[u8]) -> Option<NextLine<'_>>
    ensures { MatchOption result (has_line left.now ≡ false) (λ n. IsNext n.line.now n.rest.now left.now) }
{
    let limit = left.len().min(ROOM);
    let bytes = end(&left[..limit]);
    if bytes < limit || ROOM <= bytes {
        return Some(NextLine {
            line: &left[..bytes],
            rest: &left[limit.min(bytes + 1)..],
        });
    }
    None
}
