//! Sizes, and numbers that aren't 0.

ghost use Rattle.std.specs.Prelude.{◌≡◌, ◌≤◌, ℕ, IfSome, IfNone};
ghost use Rattle.channel.specs.Values.{IsPositive, digits_in, size_of, unit_in, unit_of};

use text::number;

/// How many bytes a letter behind a number stands for: a power of 1,024 for k, m and g, small or capital, and 1 for any
/// other byte.
fn unit(letter: u8) -> u64
    ensures value { result ≡ unit_of letter }
    ensures bound { result ≤ 1073741824 }
{
    match letter {
        b'k' | b'K' => 1024,
        b'm' | b'M' => 1_048_576,
        b'g' | b'G' => 1_073_741_824,
        _ => 1,
    }
}

/// The digits of a size, and its unit.
fn in_units(text: &[u8]) -> (&[u8], u64)
    ensures digits { result.0.now ≡ digits_in text.now }
    ensures unit { result.1 ≡ unit_in text.now }
    ensures bound { result.1 ≤ 1073741824 }
{
    if text.is_empty() {
        return (text, 1);
    }
    let end = text.len() - 1;
    let unit = unit(text[end]);
    if unit == 1 {
        (text, 1)
    } else {
        (&text[..end], unit)
    }
}

/// The bytes that a number and an optional letter spell, if they are below 2^32.
#[tactic(auto, unfolding(crate::specs::Values::size_of))]
pub fn size(text: &[u8]) -> Option<u32>
    ensures { result ≡ size_of text.now }
{
    let (digits, unit) = in_units(text);
    let count = number(digits, u32::MAX as u64)?;
    let bytes = count * unit;
    if bytes <= u32::MAX as u64 {
        Some(bytes as u32)
    } else {
        None
    }
}

/// The number that the digits spell, if it is one from 1 to `most`.
pub fn positive(digits: &[u8], most: u64) -> Option<u64>
    ensures found { IfSome result (IsPositive most digits.now) }
    ensures none { IfNone result ((n : ℕ) → IsPositive most digits.now n → ⊥) }
    ensures bound { IfSome result (λ n. n ≤ most) }
{
    let number = number(digits, most)?;
    if number == 0 {
        return None;
    }
    Some(number)
}
