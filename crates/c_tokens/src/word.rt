//! Numbers.

ghost use Rattle.std.specs.Prelude.{◌≡◌, ◌≤◌, nat_le, length};
ghost use Rattle.c_tokens.specs.language.Words.{decimal_value, digits_len, greatest, has_number, is_number};

use crate::bytes::Class;

/// The greatest number that may be written.
const GREATEST: u64 = 2_147_483_647;

/// How many digits stand at the front.
pub(crate) fn digits_len(bytes: &[u8]) -> usize
    ensures len { result ≡ digits_len bytes.now }
    ensures within { result ≤ length bytes.now }
{
    Class::Digit.run(bytes)
}

/// Whether the digits at the front are a number, which ends with them.
pub(crate) fn has_number(bytes: &[u8]) -> bool
    ensures { result ≡ has_number bytes.now }
{
    let count = digits_len(bytes);
    if Class::Clinging.begins(&bytes[count..]) {
        return false;
    }
    is_number(&bytes[..count])
}

/// Whether digits are a number.
fn is_number(digits: &[u8]) -> bool
    ensures { result ≡ is_number digits.now }
{
    match digits {
        [b'0', _, ..] => false,
        _ => is_small(digits),
    }
}

/// Whether the number that digits write is small enough.
fn is_small(digits: &[u8]) -> bool
    ensures { result ≡ nat_le (decimal_value digits.now) greatest }
{
    let mut value = 0;
    for digit in digits {
        value = 10 * value + u64::from(digit.saturating_sub(b'0'));
        if value > GREATEST {
            return false;
        }
    }
    true
}
