// 2: whether a line is legible.
ghost use Rattle.std.specs.Prelude.{◌≡◌};
ghost use Rattle.meaning.specs.Refusals.{is_illegible};

// 2: empty, over 320 bytes, or with a byte other than tab and 32 to 126.
#[tactic(auto, unfolding(meaning::specs::Refusals::is_illegible))]
pub fn is_illegible(line: &[u8]) -> bool
    ensures { result ≡ is_illegible line.now }
{
    line.is_empty() || 320 < line.len() || text::some_invalid(line)
}
