// A number's decimal digits put into lent bytes: from a place on, all of them or, where they do not fit, nothing. Returns the place after them.
ghost use Rattle.std.specs.Prelude.{◌≡◌};
ghost use Rattle.text.specs.Digits.{digits_of};
ghost use Rattle.text.specs.Written.{written, place_after};

use crate::written_text::put_text;

#[tactic(auto, using(crate::proofs::Kit::digits_kit))]
pub fn put_number(n: u64, out: &mut [u8], at: usize) -> usize
    ensures value { result ≡ place_after out.old at (digits_of n) }
    ensures out_after { out.new ≡ written out.old at (digits_of n) }
{
    let mut text = [0u8; 20];
    let k = io::decimal(n, &mut text);
    put_text(&text[..k], out, at)
}
