//! Splits words at commas and at `=`.
ghost use Rattle.std.specs.Prelude.{◌≡◌, map, position, None, Some, IfOk, MatchOption};
ghost use Rattle.texts.specs.Words.{is_comma};
ghost use Rattle.texts.specs.Lines.{parts};
ghost use Rattle.mscview_requests.specs.Words.Words.{is_equals, round};

use std::alloc::{AllocError, Global};
use texts::is_comma;

fn is_equals(byte: u8) -> bool
    ensures { result ≡ is_equals byte }
{
    byte == b'='
}

/// The parts of a word, which commas join.
pub(crate) fn comma_parts(alloc: Global, word: &[u8]) -> Result<Vec<&[u8]>, AllocError>
    ensures { IfOk result (λ v. map (λ w. w.now) v.items ≡ parts 44 word.now) }
{
    let mut parts = Vec::new(alloc);
    for part in word.split(|byte| is_comma(*byte)) {
        parts.push(part)?;
    }
    Ok(parts)
}

/// The index of the first `=`.
fn equals_in(word: &[u8]) -> Option<usize>
    ensures { result ≡ position is_equals word.now }
{
    word.iter().position(|byte| is_equals(*byte))
}

/// The parts of a word before and after its first `=`.
pub(crate) fn round_equals(word: &[u8]) -> Option<(&[u8], &[u8])>
    ensures { MatchOption result (round is_equals word.now ≡ None) (λ cut. round is_equals word.now ≡ Some (cut.0.now, cut.1.now)) }
{
    match equals_in(word) {
        None => None,
        Some(place) => Some((&word[..place], &word[place + 1..])),
    }
}
