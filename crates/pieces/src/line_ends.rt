// Where a line ends in a piece.
ghost use Rattle.std.specs.Prelude.{◌≡◌, ◌≤◌, ◌==◌, length, position};
ghost use Rattle.pieces.specs.Parts.{end_at};

// A line is refused at its 321st byte: it is whole by then, and no more of it is held.
pub(crate) const ROOM: usize = 321;

// The place of the first byte 10. A function of its own: the search for it is proved where it is what the function returns.
fn first_end(text: &[u8]) -> Option<usize>
    ensures { result ≡ position (λ b. b == 10) text.now }
{
    text.iter().position(|byte| *byte == b'\n')
}

// How many bytes stand before the first byte 10.
pub(crate) fn end(text: &[u8]) -> usize
    ensures found { result ≡ end_at text.now }
    ensures within { result ≤ length text.now }
{
    first_end(text).unwrap_or(text.len())
}
