// Fields of lines: the bytes that hexadecimal digits stand for.
#![tactic(auto)]

ghost use Rattle.std.specs.Prelude.{◌≡◌, ◌<◌, IfSome, IfNone, option_map, option_and_then};
ghost use Rattle.lines.specs.Hex.{digit_of, byte_of, all_digits, pairs_of};
ghost use Rattle.lines.specs.Fields.{at_most, decoded_of};

use arrayvec::ArrayVec;

// The value of a digit, lower case: the low bits of a decimal one, and 9 more of a letter. No branch asks which of the two it is, since
// neither is likelier.
#[tactic(auto, unfolding(crate::specs::Hex::digit_of))]
pub fn digit(c: u8) -> Option<u8>
    ensures value { result ≡ digit_of c }
    ensures upper_bound { IfSome result (λ d. d < 16) }
{
    let decimal = (b'0' <= c) & (c <= b'9');
    let letter = (b'a' <= c) & (c <= b'f');
    (decimal | letter).then_some(c % 16 + c / 64 * 9)
}

// The byte that two digits stand for, the high one first.
#[tactic(auto, unfolding(crate::specs::Hex::byte_of))]
pub fn byte(high: u8, low: u8) -> Option<u8>
    ensures { result ≡ byte_of high low }
{
    Some(digit(high)? * 16 + digit(low)?)
}

// Whether all bytes are digits. Those behind one that is none are looked at too, since so many are looked at at once.
#[tactic(auto, unfolding(crate::specs::Hex::all_digits))]
fn all_digits(bytes: &[u8]) -> bool
    ensures { result ≡ all_digits bytes.now }
{
    let mut all = true;
    for c in bytes {
        all &= digit(*c).is_some();
    }
    all
}

// The bytes that digits stand for, where there are at most `CAP`; else the vector stays as it was.
fn pairs<const CAP: usize>(digits: &[u8], bytes: &mut ArrayVec<u8, CAP>) -> Option<()>
    ensures value { option_map (λ u. bytes.new.items) result ≡ option_and_then (at_most CAP) (pairs_of digits.now) }
    ensures bytes_after { IfNone result (bytes.new ≡ bytes.old) }
{
    let (pairs, odd) = digits.as_chunks::<2>();
    if !odd.is_empty() {
        return None;
    }
    if CAP < pairs.len() {
        return None;
    }
    if !all_digits(digits) {
        return None;
    }
    bytes.clear();
    // All are digits and fit, so that no turn gives up.
    for [high, low] in pairs {
        let b = byte(*high, *low).unwrap_or(0);
        bytes.try_push(b).ok()?;
    }
    Some(())
}

// The bytes that a field stands for, where there are at most `CAP`: "-" for none, or digits, two to a byte. Where it is bad, the vector
// stays as it was.
#[tactic(auto, unfolding(crate::specs::Fields::decoded_of))]
pub fn decode<const CAP: usize>(field: &[u8], bytes: &mut ArrayVec<u8, CAP>) -> Option<()>
    ensures value { option_map (λ u. bytes.new.items) result ≡ decoded_of CAP field.now }
    ensures bytes_after { IfNone result (bytes.new ≡ bytes.old) }
{
    match field {
        [] => None,
        [b'-'] => {
            bytes.clear();
            Some(())
        }
        [_] => None,
        _ => pairs(field, bytes),
    }
}
