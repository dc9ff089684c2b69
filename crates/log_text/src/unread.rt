//! The first line with a match that isn't read, and the line about it.
ghost use Rattle.std.specs.Prelude.{◌≡◌, length, map, option_map, IfOk};
ghost use Rattle.regex.specs.Bytes.{regex_pattern, regex_names};
ghost use Rattle.log_formats.specs.Patterns.Groups.{AreAmong};
ghost use Rattle.log_formats.specs.Patterns.Unread as patterns;
ghost use Rattle.texts.specs.Writing.{Adds};
ghost use Rattle.log_text.specs.Spots.{spot_view};
ghost use Rattle.log_text.specs.Unread.{shown_word, shown_line, line_of, absent_line, word_line, unread_line_text, unread_text};

use crate::faults::group_word;
use crate::spot::{Spot, spot_of};
use log_formats::patterns::{Expression, Group, Unread, first_unread};
use log_lines::{LineRange, Place};
use std::alloc::{AllocError, Global};
use texts::bytes::printable;
use texts::pieces::{Piece, add_pieces};
use texts::{Out, TextBuffer, WriteError};

/// The first line with a match of the expression that isn't read.
#[derive(Debug, Drop)]
pub enum UnreadLine {
    /// This group takes no part in its match.
    Absent(Place, Group),
    /// Its direction is this word, which is unknown. The word has at most 40 bytes, as they are shown.
    Word(Place, Vec<u8>),
}

/// The word as refusals show it: at most 40 bytes, with `?` for each that doesn't print.
fn shown_word(alloc: Global, word: &[u8]) -> Result<Vec<u8>, AllocError>
    ensures { IfOk result (λ shown. shown.items ≡ shown_word word.now) }
{
    word.iter()
        .take(40)
        .map(|byte| printable(*byte))
        .collect(alloc)
}

/// The line and the reason, with the word as it is shown.
fn shown_line(
    alloc: Global,
    line: log_formats::patterns::UnreadLine<'_>,
) -> Result<UnreadLine, AllocError>
    ensures { IfOk result (λ shown. line_of shown ≡ shown_line (patterns.unread_line_view line.entry)) }
{
    match line.why {
        Unread::Absent(group) => Ok(UnreadLine::Absent(line.place, group)),
        Unread::Word(word) => {
            let word = shown_word(alloc, word)?;
            Ok(UnreadLine::Word(line.place, word))
        }
    }
}

/// The first line of the texts with a match of the expression that isn't read. It fails only if there is no memory.
pub fn first_shown(
    alloc: Global,
    expression: &Expression,
    range: LineRange,
    texts: &[&[u8]],
) -> Result<Option<UnreadLine>, AllocError>
    requires { AreAmong (length (regex_names expression.now.regex)) expression.now.groups }
    ensures { IfOk result (λ line. option_map line_of line
        ≡ option_map shown_line (patterns.first_unread expression.now.groups expression.now.more (regex_pattern expression.now.regex) range (map (λ text. text.now) texts.now))) }
{
    match first_unread(alloc, expression, range, texts)? {
        None => Ok(None),
        Some(line) => {
            let shown = shown_line(alloc, line)?;
            Ok(Some(shown))
        }
    }
}

/// Adds that a group takes no part in a line's match.
#[tactic(auto, unfolding(crate::specs::Unread::absent_line))]
fn add_absent<'x, V: Out>(
    text: &mut TextBuffer<'_, V>,
    spot: Spot<'x>,
    word: &'x [u8],
) -> Result<(), WriteError>
    ensures { Adds V.sink text.old text.new result (absent_line (spot_view spot.entry) word.now) }
{
    add_pieces(
        text,
        &[
            Piece::Bytes(spot.front),
            Piece::Bytes(spot.separator),
            Piece::Number(spot.line),
            Piece::Bytes(b" matches the expression, but its group "),
            Piece::Bytes(word),
            Piece::Bytes(b" takes no part\n"),
        ],
    )
}

/// Adds that a line's word for the direction is unknown.
#[tactic(auto, unfolding(crate::specs::Unread::word_line))]
fn add_word<'x, V: Out>(
    text: &mut TextBuffer<'_, V>,
    spot: Spot<'x>,
    word: &'x [u8],
) -> Result<(), WriteError>
    ensures { Adds V.sink text.old text.new result (word_line (spot_view spot.entry) word.now) }
{
    add_pieces(
        text,
        &[
            Piece::Bytes(spot.front),
            Piece::Bytes(spot.separator),
            Piece::Number(spot.line),
            Piece::Bytes(b" matches the expression, but its dir is \""),
            Piece::Bytes(word),
            Piece::Bytes(b"\"\n"),
        ],
    )
}

/// Adds the line about a line that the expression matches.
fn add_unread_line<V: Out>(
    text: &mut TextBuffer<'_, V>,
    files: &[&[u8]],
    line: &UnreadLine,
) -> Result<(), WriteError>
    ensures { Adds V.sink text.old text.new result (unread_line_text (map (λ file. file.now) files.now) line.now) }
{
    match line {
        UnreadLine::Absent(place, group) => {
            let spot = spot_of(files, *place);
            add_absent(text, spot, group_word(*group))
        }
        UnreadLine::Word(place, word) => {
            let spot = spot_of(files, *place);
            add_word(text, spot, word.as_slice())
        }
    }
}

/// Adds the line about a line that the expression matches, if there is one.
pub fn add_unread<V: Out>(
    text: &mut TextBuffer<'_, V>,
    files: &[&[u8]],
    line: &Option<UnreadLine>,
) -> Result<(), WriteError>
    ensures { Adds V.sink text.old text.new result (unread_text (map (λ file. file.now) files.now) line.now) }
{
    match line {
        None => Ok(()),
        Some(line) => add_unread_line(text, files, line),
    }
}
