//! Words at the beginning and the end of bytes.
ghost use Rattle.std.specs.Prelude.{◌≡◌, ◌≤◌, ◌<◌, ◌+◌, ◌^◌, if◌then◌else◌, length, not, position, IfSome, IsTrue, map, nat_eq};
ghost use Rattle.std.specs.List.{starts_with};
ghost use Rattle.texts.specs.Words.{Finds, blank_length, behind_blanks, kept, end_stripped, stripped, begins, behind_word, ends_word, behind_keyword, behind_keyword_of, skip_word, first_place, place_of, begins_blank, is_comma};
ghost use Rattle.texts.specs.Bytes.Classes.{is_blank};
ghost use Rattle.texts.specs.Bytes.Words.{is_spelled};

use crate::bytes::{is_blank, is_spelled};

/// The place of the first byte that isn't a blank.
fn first_other(bytes: &[u8]) -> Option<usize>
    ensures value { result ≡ position (λ b. not (is_blank b)) bytes.now }
    ensures within { IfSome result (λ place. place < length bytes.now) }
{
    bytes.iter().position(|byte| !is_blank(*byte))
}

/// The number of blanks at the beginning of the bytes.
#[tactic(auto, unfolding(crate::specs::Words::blank_length))]
pub fn blank_length(bytes: &[u8]) -> usize
    ensures value { result ≡ blank_length bytes.now }
    ensures within { result ≤ length bytes.now }
{
    match first_other(bytes) {
        None => bytes.len(),
        Some(place) => place,
    }
}

/// The bytes after the blanks at their beginning.
#[tactic(auto, unfolding(crate::specs::Words::behind_blanks))]
pub fn behind_blanks(bytes: &[u8]) -> &[u8]
    ensures value { result.now ≡ behind_blanks bytes.now }
    ensures within { length result.now ≤ length bytes.now }
{
    &bytes[blank_length(bytes)..]
}

/// The number of bytes that are kept with the byte at this place, if `so_far` of those before it are.
fn kept_with(so_far: usize, place: usize, byte: u8) -> usize
    requires { place + 1 < 2 ^ 64 }
    ensures { result ≡ (if is_blank byte then so_far else place + 1) }
{
    if is_blank(byte) { so_far } else { place + 1 }
}

/// The number of bytes up to the last one that isn't a blank.
#[tactic(auto, using(crate::proofs::ByteLoops::kept_next, crate::proofs::ByteLoops::kept_all))]
fn kept(bytes: &[u8]) -> usize
    ensures value { result ≡ kept bytes.now }
    ensures within { result ≤ length bytes.now }
{
    let mut so_far = 0;
    for (place, byte) in bytes.iter().enumerate() {
        so_far = kept_with(so_far, place, *byte);
    }
    so_far
}

/// The bytes without the blanks after the last other byte.
#[tactic(auto, unfolding(crate::specs::Words::end_stripped))]
pub fn end_stripped(bytes: &[u8]) -> &[u8]
    ensures value { result.now ≡ end_stripped bytes.now }
    ensures within { length result.now ≤ length bytes.now }
{
    &bytes[..kept(bytes)]
}

/// The bytes without the blanks at both ends.
#[tactic(auto, unfolding(crate::specs::Words::stripped))]
pub fn stripped(bytes: &[u8]) -> &[u8]
    ensures value { result.now ≡ stripped bytes.now }
    ensures within { length result.now ≤ length bytes.now }
{
    end_stripped(behind_blanks(bytes))
}

/// Whether the bytes begin with this word. ASCII case is ignored.
#[tactic(auto, unfolding(crate::specs::Words::begins))]
pub fn begins(known: &[u8], bytes: &[u8]) -> bool
    ensures value { result ≡ begins known.now bytes.now }
    ensures within { IsTrue result → length known.now ≤ length bytes.now }
{
    known.len() <= bytes.len() && is_spelled(known, &bytes[..known.len()])
}

/// The bytes after this word, if they begin with it. ASCII case is ignored.
#[tactic(auto, unfolding(crate::specs::Words::behind_word))]
pub fn behind_word<'a>(known: &[u8], bytes: &'a [u8]) -> Option<&'a [u8]>
    ensures rest { Finds (λ rest. rest.now) result (behind_word known.now bytes.now) }
    ensures within { IfSome result (λ rest. length rest.now + length known.now ≡ length bytes.now) }
{
    if begins(known, bytes) {
        Some(&bytes[known.len()..])
    } else {
        None
    }
}

/// Whether the bytes are empty or begin with a blank.
pub fn ends_word(bytes: &[u8]) -> bool
    ensures { result ≡ ends_word bytes.now }
{
    match bytes {
        [] => true,
        [byte, ..] => is_blank(*byte),
    }
}

/// Whether the byte is a comma.
pub fn is_comma(byte: u8) -> bool
    ensures { result ≡ is_comma byte }
{
    byte == b','
}

/// Whether the bytes begin with a blank.
pub fn begins_blank(bytes: &[u8]) -> bool
    ensures { result ≡ begins_blank bytes.now }
{
    match bytes {
        [] => false,
        [byte, ..] => is_blank(*byte),
    }
}

/// The bytes after this word, if they begin with it, and nothing or a blank follows it. ASCII case is ignored.
#[tactic(auto, unfolding(crate::specs::Words::behind_keyword))]
pub fn behind_keyword<'a>(known: &[u8], bytes: &'a [u8]) -> Option<&'a [u8]>
    ensures rest { Finds (λ rest. rest.now) result (behind_keyword known.now bytes.now) }
    ensures within { IfSome result (λ rest. length rest.now ≤ length bytes.now) }
{
    match behind_word(known, bytes) {
        Some(rest) if ends_word(rest) => Some(rest),
        _ => None,
    }
}

/// The bytes after the first of these words with which they begin, and which nothing or a blank follows. ASCII case is
/// ignored.
pub fn behind_keyword_of<'a>(words: &[&[u8]], bytes: &'a [u8]) -> Option<&'a [u8]>
    ensures rest { Finds (λ rest. rest.now) result (behind_keyword_of (map (λ known. known.now) words.now) bytes.now) }
    ensures within { IfSome result (λ rest. length rest.now ≤ length bytes.now) }
{
    for known in words {
        if let Some(rest) = behind_keyword(*known, bytes) {
            return Some(rest);
        }
    }
    None
}

/// The bytes after this word, if they begin with it; otherwise all bytes. ASCII case is ignored.
#[tactic(auto, unfolding(crate::specs::Words::skip_word))]
pub fn skip_word<'a>(known: &[u8], bytes: &'a [u8]) -> &'a [u8]
    ensures rest { result.now ≡ skip_word known.now bytes.now }
    ensures within { length result.now ≤ length bytes.now }
{
    match behind_word(known, bytes) {
        Some(rest) => rest,
        None => bytes,
    }
}

/// The place of the first occurrence of this byte.
pub fn first_place(known: u8, bytes: &[u8]) -> Option<usize>
    ensures value { result ≡ first_place known bytes.now }
    ensures within { IfSome result (λ place. place < length bytes.now) }
{
    bytes.iter().position(|byte| *byte == known)
}

/// Whether the bytes begin with exactly these.
pub fn begins_with(bytes: &[u8], known: &[u8]) -> bool
    ensures value { result ≡ starts_with nat_eq bytes.now known.now }
    ensures within { IsTrue result → length known.now ≤ length bytes.now }
{
    bytes.starts_with(known)
}

/// The place of the first occurrence of the known bytes.
#[tactic(auto, unfolding(crate::specs::Words::place_of), using(crate::proofs::ByteLoops::moved_on))]
pub fn place_of(known: &[u8], bytes: &[u8]) -> Option<usize>
    ensures value { result ≡ place_of known.now bytes.now }
    ensures within { IfSome result (λ place. place + length known.now ≤ length bytes.now) }
{
    let mut passed = 0;
    let mut rest = bytes;
    'bytes: while let [_, others @ ..] = rest {
        if begins_with(rest, known) {
            return Some(passed);
        }
        passed += 1;
        rest = others;
    }
    None
}
