// Text put into lent bytes: from a place on, all of it or, where it does not fit, nothing. Returns the place after it, which is the same place where
// nothing is put: the callers keep bytes of fixed size with how many of them are text (no heap), and the place is that number from then on.
ghost use Rattle.std.specs.Prelude.{◌≡◌, [], ◌∷◌};
ghost use Rattle.text.specs.Written.{written, place_after};

#[tactic(auto, unfolding(crate::specs::Written::written, crate::specs::Written::place_after))]
pub fn put_byte(b: u8, out: &mut [u8], at: usize) -> usize
    ensures value { result ≡ place_after out.old at (b ∷ []) }
    ensures out_after { out.new ≡ written out.old at (b ∷ []) }
{
    if out.len() <= at {
        return at;
    }
    out[at] = b;
    at + 1
}

#[tactic(auto, unfolding(crate::specs::Written::written, crate::specs::Written::place_after))]
pub fn put_text(text: &[u8], out: &mut [u8], at: usize) -> usize
    ensures value { result ≡ place_after out.old at text.now }
    ensures out_after { out.new ≡ written out.old at text.now }
{
    if out.len() < at || out.len() - at < text.len() {
        return at;
    }
    let end = at + text.len();
    out[at..end].copy_from_slice(text);
    end
}
