//! Numbers in words of a command line.
ghost use Rattle.std.specs.Prelude.{◌≡◌};
ghost use Rattle.std.specs.Char.{is_ascii_digit};
ghost use Rattle.std.specs.List.{list_all};
ghost use Rattle.std.specs.Option.{SomeIff};
ghost use Rattle.cmd_base.specs.Numbers.{IsNumber, number_of};

/// Whether each byte is a digit.
fn are_digits(word: &str) -> bool
    ensures { result ≡ list_all is_ascii_digit word.now }
{
    word.as_bytes().iter().all(|byte| byte.is_ascii_digit())
}

/// The number in the word, if it fits in 64 bits. The word consists of decimal digits only. It may have leading zeros,
/// but no sign.
pub fn number_in(word: &str) -> Option<u64>
    ensures { SomeIff result (IsNumber word.now) (number_of word.now) }
{
    if !are_digits(word) {
        return None;
    }
    word.parse().ok()
}
