//! Runs of bytes of one kind.
ghost use Rattle.std.specs.Prelude.{◌≡◌, ◌≤◌, ◌<◌, not, length, position, IfSome};
ghost use Rattle.texts.specs.Words.{Finds};
ghost use Rattle.diagram_plantuml_arrows.specs.Runs.{is_in, run_length, run_at, behind_run, behind_byte};

use texts::bytes::{is_blank, is_word_byte};

/// A kind of bytes.
#[derive(Clone, Copy, Debug)]
pub enum Class {
    /// The bytes of a word for a participant: letters, digits, `_`, `.`, `@`, and all bytes beyond ASCII.
    Name,
    /// Letters, digits and `_`.
    Word,
    /// The bytes of a style's name: letters, digits, `_` and `.`.
    Style,
    Digit,
    Dash,
    /// The signs of activations.
    Sign,
    /// Any byte that is no blank.
    Solid,
    /// Any byte that is neither a blank nor a colon.
    Colour,
    /// Any byte but a quotation mark.
    Quoted,
    /// Any byte but a closing bracket.
    Bracketed,
}

fn is_in(class: Class, byte: u8) -> bool
    ensures { result ≡ is_in class byte }
{
    match class {
        Class::Name => is_word_byte(byte) || byte == b'.' || byte == b'@' || 128 <= byte,
        Class::Word => is_word_byte(byte),
        Class::Style => is_word_byte(byte) || byte == b'.',
        Class::Digit => byte.is_ascii_digit(),
        Class::Dash => byte == b'-',
        Class::Sign => byte == b'+' || byte == b'*' || byte == b'!' || byte == b'-',
        Class::Solid => !is_blank(byte),
        Class::Colour => !is_blank(byte) && byte != b':',
        Class::Quoted => byte != b'"',
        Class::Bracketed => byte != b']',
    }
}

/// The place of the first byte of another kind.
fn first_other(class: Class, bytes: &[u8]) -> Option<usize>
    ensures value { result ≡ position (λ b. not (is_in class b)) bytes.now }
    ensures within { IfSome result (λ place. place < length bytes.now) }
{
    bytes.iter().position(|byte| !is_in(class, *byte))
}

/// The number of bytes of this kind at the beginning.
#[tactic(auto, unfolding(crate::specs::Runs::run_length))]
pub fn run_length(class: Class, bytes: &[u8]) -> usize
    ensures value { result ≡ run_length class bytes.now }
    ensures within { result ≤ length bytes.now }
{
    match first_other(class, bytes) {
        None => bytes.len(),
        Some(place) => place,
    }
}

/// The bytes of this kind at the beginning, and the text after them. There is at least one.
#[tactic(auto, unfolding(crate::specs::Runs::run_at))]
pub fn run_at(class: Class, bytes: &[u8]) -> Option<(&[u8], &[u8])>
    ensures shorter { IfSome result (λ run. length run.1.now < length bytes.now) }
    ensures run { Finds (λ run. (run.0.now, run.1.now)) result (run_at class bytes.now) }
{
    let length = run_length(class, bytes);
    if length == 0 {
        None
    } else {
        Some((&bytes[..length], &bytes[length..]))
    }
}

/// The text after the bytes of this kind at the beginning.
#[tactic(auto, unfolding(crate::specs::Runs::behind_run))]
pub fn behind_run(class: Class, bytes: &[u8]) -> &[u8]
    ensures { result.now ≡ behind_run class bytes.now }
{
    &bytes[run_length(class, bytes)..]
}

/// The text after this byte, if it comes next.
pub fn behind_byte(known: u8, bytes: &[u8]) -> Option<&[u8]>
    ensures shorter { IfSome result (λ rest. length rest.now < length bytes.now) }
    ensures rest { Finds (λ rest. rest.now) result (behind_byte known bytes.now) }
{
    match bytes {
        [byte, rest @ ..] if *byte == known => Some(rest),
        _ => None,
    }
}
