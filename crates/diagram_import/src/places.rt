//! The words that are reported for a place.
ghost use Rattle.std.specs.Prelude.{◌≡◌, ◌<◌, ◌-◌, ◌==◌, length, position, IfOk, IfSome};
ghost use Rattle.diagram_import.specs.Shown.{before, without_lines, from_column, shown_from, words_at};

use diagram_statements::behind_line;
use diagrams::Place;
use std::alloc::{AllocError, Global};
use texts::bytes::printable;

/// The place of the first byte with this value.
fn place_of(text: &[u8], byte: u8) -> Option<usize>
    ensures value { result ≡ position (λ b. b == byte) text.now }
    ensures within { IfSome result (λ place. place < length text.now) }
{
    text.iter().position(|b| *b == byte)
}

/// The text before the first byte with this value.
#[tactic(auto, unfolding(crate::specs::Shown::before))]
fn before(text: &[u8], byte: u8) -> &[u8]
    ensures { result.now ≡ before byte text.now }
{
    match place_of(text, byte) {
        Some(place) => &text[..place],
        None => text,
    }
}

/// The text without its first `count` lines.
pub fn without_lines(text: &[u8], count: u64) -> &[u8]
    ensures { result.now ≡ without_lines count text.now }
{
    let mut rest = text;
    for line in 0..count {
        let _ = line;
        rest = behind_line(rest);
    }
    rest
}

/// The first 40 bytes at most, as they are shown.
fn shown(alloc: Global, bytes: &[u8]) -> Result<Vec<u8>, AllocError>
    ensures { IfOk result (λ words. words.items ≡ shown_from 1 bytes.now) }
{
    bytes
        .iter()
        .take(40)
        .map(|byte| printable(*byte))
        .collect(alloc)
}

/// The line from this column on. Columns are counted from 1.
pub fn from_column(line: &[u8], column: u64) -> &[u8]
    ensures { result.now ≡ from_column column line.now }
{
    let behind = column.saturating_sub(1);
    if behind < line.len() as u64 {
        &line[behind as usize..]
    } else {
        &line[line.len()..]
    }
}

/// The words that are reported for a place: at most 40 bytes of its line, with `?` for each that doesn't print.
#[tactic(auto, unfolding(crate::specs::Shown::words_at))]
pub(crate) fn words_at(alloc: Global, text: &[u8], place: Place) -> Result<Vec<u8>, AllocError>
    ensures { IfOk result (λ words. words.items ≡ words_at text.now place) }
{
    let rest = without_lines(text, place.line.saturating_sub(1));
    let line = before(before(rest, b'\n'), b'\r');
    shown(alloc, from_column(line, place.column))
}
