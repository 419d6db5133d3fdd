// Invalid bytes: other than tab and 32 to 126.
ghost use Rattle.std.specs.Prelude.{◌≡◌};
ghost use Rattle.lists.specs.Lists.{any};
ghost use Rattle.text.specs.Fields.{is_invalid};

use crate::TAB;

#[tactic(auto, unfolding(crate::specs::Fields::is_invalid))]
pub(crate) fn is_invalid(b: u8) -> bool
    ensures { result ≡ is_invalid b }
{
    b != TAB && (b < 32 || 126 < b)
}

// Whether a byte of a part is invalid. Each is looked at, found or not: a loop with no exit takes many bytes at once.
#[tactic(auto, using(crate::proofs::Laws::any_folded))]
fn part_invalid(part: &[u8]) -> bool
    ensures { result ≡ any is_invalid part.now }
{
    part.iter().fold(false, |found, b| found | is_invalid(*b))
}

// Whether a byte is invalid. What follows the part that has the first one is not looked at. The longest line, of 320 bytes, has two parts.
pub fn some_invalid(s: &[u8]) -> bool
    ensures { result ≡ any is_invalid s.now }
{
    s.chunks(160).any(part_invalid)
}
