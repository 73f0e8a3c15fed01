ghost use Rattle.std.specs.Prelude.{◌≡◌, ◌≤◌, IfSome};
ghost use Rattle.std.specs.Str.Parse.{starts_with_minus};
ghost use Rattle.text.specs.Decimals.{number_of, signed_of};

/// The number that the decimal digits spell, with any leading zeros, if it is at most `most`.
pub fn number(digits: &[u8], most: u64) -> Option<u64>
    ensures value { result ≡ number_of most digits.now }
    ensures bound { IfSome result (λ n. n ≤ most) }
{
    if digits.is_empty() {
        return None;
    }
    let mut value: u64 = 0;
    for digit in digits {
        if !digit.is_ascii_digit() {
            return None;
        }
        value = value
            .checked_mul(10)?
            .checked_add(u64::from(*digit - b'0'))?;
    }
    if value <= most { Some(value) } else { None }
}

fn is_negative(word: &[u8]) -> bool
    ensures { result ≡ starts_with_minus word.now }
{
    !word.is_empty() && word[0] == b'-'
}

/// The number that an optional minus sign and digits spell, if it is one of 32 bits.
#[tactic(auto, using(crate::proofs::Digits::minus, crate::proofs::Digits::plus), unfolding(crate::specs::Decimals::signed_of))]
pub fn signed(word: &[u8]) -> Option<i32>
    ensures { result ≡ signed_of word.now }
{
    if is_negative(word) {
        let size = number(&word[1..], 1 << 31)?;
        Some((-(size as i64)) as i32)
    } else {
        let size = number(word, i32::MAX as u64)?;
        Some(size as i32)
    }
}
