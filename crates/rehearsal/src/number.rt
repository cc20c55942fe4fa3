// Numbers in base ten.
ghost use Rattle.std.specs.Prelude.{◌≡◌};
ghost use Rattle.rehearsal.specs.Numbers.{number_of, with_digit};

// The number that the digits write, if it is below 2^64. No sign stands before them. Digit by digit, and not by
// `parse`: that wants a text, and to tell whether bytes are one goes through all of them, however soon a byte
// is no digit.
pub(crate) fn number(digits: &[u8]) -> Option<u64>
    ensures { result ≡ number_of digits.now }
{
    if digits.is_empty() {
        return None;
    }
    let mut value = 0;
    for digit in digits {
        value = append(value, *digit)?;
    }
    Some(value)
}

// The number with one digit more.
fn append(value: u64, digit: u8) -> Option<u64>
    ensures { result ≡ with_digit value digit }
{
    if !digit.is_ascii_digit() {
        return None;
    }
    value.checked_mul(10)?.checked_add(u64::from(digit - b'0'))
}
