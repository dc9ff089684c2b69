//! Numbers in decimal digits.
ghost use Rattle.std.specs.Prelude.{◌≡◌};
ghost use Rattle.texts.specs.Digits.Numbers.{with_digit, number_in};

/// A number with one more digit, if it has at most 32 bits.
#[tactic(auto, unfolding(crate::specs::Digits::Numbers::with_digit))]
fn with_digit(number: u32, digit: u8) -> Option<u32>
    ensures { result ≡ with_digit number digit }
{
    if digit < b'0' || b'9' < digit {
        return None;
    }
    let more = u64::from(number) * 10 + u64::from(digit - b'0');
    if more < 4294967296 {
        Some(more as u32)
    } else {
        None
    }
}

/// The number with these decimal digits, if it has at most 32 bits.
#[tactic(auto, unfolding(crate::specs::Digits::Numbers::number_in))]
pub fn number_in(digits: &[u8]) -> Option<u32>
    ensures { result ≡ number_in digits.now }
{
    if digits.is_empty() {
        return None;
    }
    let mut number = 0u32;
    for digit in digits {
        number = with_digit(number, *digit)?;
    }
    Some(number)
}
