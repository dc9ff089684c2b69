//! The words of notes and dividers that a reader of statements ignores, taken from the text.
ghost use Rattle.std.specs.Prelude.{◌≡◌, ◌≤◌, length, map, not, position, IfSome};
ghost use Rattle.diagram_import.specs.Margin.Sources.{least, up_to, first_line, words_at, note_words, is_sign, behind_signs, divider_words};

use crate::{from_column, without_lines};
use diagram_statements::{Place, line_length};
use texts::bytes::is_blank;
use texts::{first_place, place_of};

/// The words that end a note of several lines.
const NOTE_ENDS: [&[u8]; 6] = [
    b"end note",
    b"endnote",
    b"end hnote",
    b"endhnote",
    b"end rnote",
    b"endrnote",
];

/// The signs that end a divider.
const DIVIDER_ENDS: [&[u8]; 2] = [b"==", b"..."];

/// The lesser of a length and the first place of these bytes.
fn least(so_far: usize, known: &[u8], text: &[u8]) -> usize
    requires { so_far ≤ length text.now }
    ensures value { result ≡ least text.now so_far known.now }
    ensures within { result ≤ length text.now }
{
    match place_of(known, text) {
        Some(place) => so_far.min(place),
        None => so_far,
    }
}

/// The text before the first of these ends.
#[tactic(auto, unfolding(crate::specs::Margin::Sources::up_to))]
fn up_to<'a>(ends: &[&[u8]], text: &'a [u8]) -> &'a [u8]
    ensures { result.now ≡ up_to (map (λ known. known.now) ends.now) text.now }
{
    let mut length = text.len();
    for known in ends {
        length = least(length, *known, text);
    }
    &text[..length]
}

/// The line of this place, from the place on.
#[tactic(auto, unfolding(crate::specs::Margin::Sources::words_at))]
fn words_at(text: &[u8], place: Place) -> &[u8]
    ensures { result.now ≡ words_at text.now place }
{
    let rest = without_lines(text, place.line.saturating_sub(1));
    from_column(&rest[..line_length(rest)], place.column)
}

/// The words of a note that begins at this place: those after its colon, or in the lines below it.
#[tactic(auto, unfolding(crate::specs::Margin::Sources::note_words))]
pub(crate) fn note_words(text: &[u8], place: Place) -> &[u8]
    ensures { result.now ≡ note_words text.now place }
{
    let words = words_at(text, place);
    match first_place(b':', words) {
        Some(colon) => &words[colon + 1..],
        None => up_to(&NOTE_ENDS, without_lines(text, place.line)),
    }
}

/// Whether a byte is a sign or a blank of a divider.
fn is_sign(byte: u8) -> bool
    ensures { result ≡ is_sign byte }
{
    byte == b'=' || byte == b'.' || is_blank(byte)
}

/// The place of the first byte that isn't one.
fn first_word(bytes: &[u8]) -> Option<usize>
    ensures value { result ≡ position (λ b. not (is_sign b)) bytes.now }
    ensures within { IfSome result (λ place. place ≤ length bytes.now) }
{
    bytes.iter().position(|byte| !is_sign(*byte))
}

/// The words between the signs and blanks of a divider, or the bytes if there are no words.
#[tactic(auto, unfolding(crate::specs::Margin::Sources::behind_signs))]
fn behind_signs(bytes: &[u8]) -> &[u8]
    ensures { result.now ≡ behind_signs bytes.now }
{
    match first_word(bytes) {
        Some(place) => up_to(&DIVIDER_ENDS, &bytes[place..]),
        None => bytes,
    }
}

/// The words of a divider that begins at this place, without its signs.
#[tactic(auto, unfolding(crate::specs::Margin::Sources::divider_words))]
pub(crate) fn divider_words(text: &[u8], place: Place) -> &[u8]
    ensures { result.now ≡ divider_words text.now place }
{
    behind_signs(words_at(text, place))
}
