//! Words of a form: names with a semicolon, and numbers.
ghost use Rattle.std.specs.Prelude.{◌≡◌, ◌<◌, length, position, is_some, IfSome};
ghost use Rattle.std.specs.Char.{is_ascii_digit};
ghost use Rattle.std.specs.List.{list_all};
ghost use Rattle.fault_places.specs.Spots.{name_in};
ghost use Rattle.msc_text.specs.Reader.Steps.{is_semicolon, is_other, name_part, is_plain};
ghost use Rattle.schedule.specs.FirstLines.{is_number};

fn is_semicolon(byte: u8) -> bool
    ensures { result ≡ is_semicolon byte }
{
    byte == b';'
}

/// The index of the first semicolon, from 0.
fn index_of_semicolon(word: &[u8]) -> Option<usize>
    ensures value { result ≡ position is_semicolon word.now }
    ensures within { IfSome result (λ index. index < length word.now) }
{
    word.iter().position(|byte| is_semicolon(*byte))
}

/// Whether the word is `NAME;`: the semicolon is its last byte and its only semicolon, and not its first byte.
#[tactic(auto, unfolding(msc_text::specs::Reader::Steps::name_part))]
pub(crate) fn has_name_part(word: &[u8]) -> bool
    ensures { result ≡ is_some (name_part word.now) }
{
    match index_of_semicolon(word) {
        None => false,
        Some(index) => index != 0 && index + 1 == word.len(),
    }
}

/// The part before the semicolon of `NAME;`, or the whole of another word.
#[tactic(auto, unfolding(msc_text::specs::Reader::Steps::name_part, crate::specs::Spots::name_in))]
pub(crate) fn name_in(word: &[u8]) -> &[u8]
    ensures { result.now ≡ name_in word.now }
{
    match index_of_semicolon(word) {
        None => word,
        Some(index) => {
            if index == 0 || index + 1 != word.len() {
                return word;
            }
            &word[..index]
        }
    }
}

fn is_other(byte: u8) -> bool
    ensures { result ≡ is_other byte }
{
    !is_semicolon(byte)
}

fn has_others_alone(word: &[u8]) -> bool
    ensures { result ≡ list_all is_other word.now }
{
    word.iter().all(|byte| is_other(*byte))
}

/// Whether the word has one byte or more, and no semicolon.
#[tactic(auto, unfolding(msc_text::specs::Reader::Steps::is_plain))]
pub(crate) fn is_plain(word: &[u8]) -> bool
    ensures { result ≡ is_plain word.now }
{
    !word.is_empty() && has_others_alone(word)
}

fn are_digits(bytes: &[u8]) -> bool
    ensures { result ≡ list_all is_ascii_digit bytes.now }
{
    bytes.iter().all(|byte| byte.is_ascii_digit())
}

/// Whether the word is a decimal number without leading zeros.
#[tactic(auto, unfolding(schedule::specs::FirstLines::is_number))]
pub(crate) fn is_number(word: &[u8]) -> bool
    ensures { result ≡ is_number word.now }
{
    match word {
        [] => false,
        [first, rest @ ..] => {
            first.is_ascii_digit() && are_digits(rest) && (rest.is_empty() || *first != b'0')
        }
    }
}
