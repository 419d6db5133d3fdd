// The number of a field. Form and size are separate: digits make a number however many there are.
ghost use Rattle.std.specs.Prelude.{◌≡◌};
ghost use Rattle.lists.specs.Lists.{all};
ghost use Rattle.text.specs.Numbers.{is_digit, number_in};

// The cap of a number: above every range that a field has. It stands for all numbers from there on, so that none wraps.
const MOST: u64 = 1_000_000_000_000_000_000;

// Whether each byte is a digit.
fn are_digits(field: &[u8]) -> bool
    ensures { result ≡ all is_digit field.now }
{
    field.iter().all(|byte| byte.is_ascii_digit())
}

// The number of a field, capped at 10^18; none where it is no number: empty, with a 0 in front of others, or with a byte that is no digit. Of 19 digits
// or more, the first not 0, the number is 10^18 or more, so that the digits of a shorter one are put together with no cap.
#[tactic(auto, using(crate::proofs::NumberLaws::number_ends), unfolding(lists::specs::Lists::all, crate::specs::Numbers::value_of, crate::specs::Numbers::value_from))]
pub fn number(field: &[u8]) -> Option<u64>
    ensures { result ≡ number_in field.now }
{
    if matches!(field, [] | [b'0', _, ..]) {
        return None;
    }
    if 18 < field.len() {
        return are_digits(field).then_some(MOST);
    }
    let mut value = 0;
    for &byte in field {
        if !byte.is_ascii_digit() {
            return None;
        }
        value = value * 10 + u64::from(byte - b'0');
    }
    Some(value)
}
