// Decimal numbers with no leading zero.
ghost use Rattle.std.specs.Prelude.{◌≡◌};
ghost use Rattle.plan.specs.Numbers.{largest_word, digits_value, unpadded, number_of};

// Whether the text is not empty, and no zero stands first before another byte.
fn unpadded(text: &[u8]) -> bool
    ensures { result ≡ unpadded text.now }
{
    !matches!(text, [] | [b'0', _, ..])
}

// The value of a text of digits, where it fits 64 bits; the empty text has the value 0. Read here, since `parse` wants a `str`, and
// to make one takes longer than the digits of a short number.
fn digits(text: &[u8]) -> Option<u64>
    ensures { result ≡ digits_value largest_word text.now }
{
    let mut value: u64 = 0;
    for byte in text {
        let digit = char::from(*byte).to_digit(10)?;
        value = value.checked_mul(10)?.checked_add(u64::from(digit))?;
    }
    Some(value)
}

// The number that the text writes, from 0 to `most`.
pub fn number(text: &[u8], most: u64) -> Option<u64>
    ensures { result ≡ number_of most text.now }
{
    if !unpadded(text) {
        return None;
    }
    let value = digits(text)?;
    if value <= most { Some(value) } else { None }
}
