//! The lengths of words, comments and texts in quotation marks, in bytes.
ghost use Rattle.std.specs.Prelude.{◌≡◌, ◌≤◌, ◌<◌, ◌==◌, not, length, position, IfSome};
ghost use Rattle.diagram_mscgen.specs.Grammar.Lengths.{word_length, comment_length, closing, is_closing};
ghost use Rattle.texts.specs.Bytes.Classes.{is_word_byte};

use texts::bytes::{begins, is_word_byte};

/// The place of the first byte that can't be in a word.
fn first_other(bytes: &[u8]) -> Option<usize>
    ensures value { result ≡ position (λ b. not (is_word_byte b)) bytes.now }
    ensures within { IfSome result (λ place. place < length bytes.now) }
{
    bytes.iter().position(|byte| !is_word_byte(*byte))
}

/// The length of the word at the beginning of the bytes.
#[tactic(auto, unfolding(crate::specs::Grammar::Lengths::word_length))]
pub(crate) fn word_length(bytes: &[u8]) -> usize
    ensures value { result ≡ word_length bytes.now }
    ensures within { result ≤ length bytes.now }
{
    match first_other(bytes) {
        None => bytes.len(),
        Some(place) => place,
    }
}

/// The length of a comment after its `/*`.
#[tactic(auto, unfolding(crate::specs::Grammar::Lengths::comment_length))]
pub(crate) fn comment_length(bytes: &[u8]) -> usize
    ensures value { result ≡ comment_length bytes.now }
    ensures within { result ≤ length bytes.now }
{
    let mut passed = 0;
    let mut rest = bytes;
    'bytes: while let [_, others @ ..] = rest {
        if begins(rest, b"*/") {
            return passed + 2;
        }
        passed += 1;
        rest = others;
    }
    passed
}

fn is_closing(before: u8, byte: u8) -> bool
    ensures { result ≡ is_closing before byte }
{
    byte == b'"' && before != b'\\'
}

/// The number of bytes before the quotation mark that ends a text. `first` is the byte before them.
#[tactic(auto, unfolding(crate::specs::Grammar::Lengths::closing), using(crate::proofs::GrammarLemmas::ByteLoops::moved_on))]
pub(crate) fn closing(first: u8, bytes: &[u8]) -> Option<usize>
    ensures value { result ≡ closing first bytes.now }
    ensures within { IfSome result (λ place. place < length bytes.now) }
{
    let mut before = first;
    let mut passed = 0;
    let mut rest = bytes;
    'bytes: while let [byte, others @ ..] = rest {
        if is_closing(before, *byte) {
            return Some(passed);
        }
        before = *byte;
        passed += 1;
        rest = others;
    }
    None
}
