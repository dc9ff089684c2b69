//! How many lines of a log are of a kind.
ghost use Rattle.std.specs.Prelude.{map};
ghost use Rattle.texts.specs.Writing.{Adds};
ghost use Rattle.log_text.specs.Counts.{one_line, several_line, others_text, one_line_of, several_line_of, others_of_text};
ghost use Rattle.log_text.specs.Spots.{spot_view};

use crate::spot::{Spot, spot_of};
use log_lines::Others;
use texts::pieces::{Piece, add_pieces};
use texts::{Out, TextBuffer, WriteError};

/// Adds that there is one thing of a kind, with its line.
#[tactic(auto, unfolding(crate::specs::Counts::one_line))]
fn add_one<'x, V: Out>(
    text: &mut TextBuffer<'_, V>,
    words: &'x [u8],
    spot: Spot<'x>,
) -> Result<(), WriteError>
    ensures { Adds V.sink text.old text.new result (one_line words.now (spot_view spot.entry)) }
{
    add_pieces(
        text,
        &[
            Piece::Bytes(b"1 "),
            Piece::Bytes(words),
            Piece::Bytes(b", "),
            Piece::Bytes(spot.front),
            Piece::Bytes(spot.separator),
            Piece::Number(spot.line),
            Piece::Bytes(b"\n"),
        ],
    )
}

/// Adds the number of things of a kind, with the line of the first.
#[tactic(auto, unfolding(crate::specs::Counts::several_line))]
fn add_several<'x, V: Out>(
    text: &mut TextBuffer<'_, V>,
    count: u64,
    words: &'x [u8],
    spot: Spot<'x>,
) -> Result<(), WriteError>
    ensures { Adds V.sink text.old text.new result (several_line count words.now (spot_view spot.entry)) }
{
    add_pieces(
        text,
        &[
            Piece::Number(count),
            Piece::Bytes(b" "),
            Piece::Bytes(words),
            Piece::Bytes(b", the first is "),
            Piece::Bytes(spot.front),
            Piece::Bytes(spot.separator),
            Piece::Number(spot.line),
            Piece::Bytes(b"\n"),
        ],
    )
}

/// Adds the number of things of a kind, if there are some.
pub fn add_others<V: Out>(
    text: &mut TextBuffer<'_, V>,
    files: &[&[u8]],
    one: &[u8],
    several: &[u8],
    others: Option<Others>,
) -> Result<(), WriteError>
    ensures { Adds V.sink text.old text.new result (others_text (map (λ file. file.now) files.now) one.now several.now others) }
{
    match others {
        None => Ok(()),
        Some(others) => {
            let spot = spot_of(files, others.first);
            if others.count == 1 {
                add_one(text, one, spot)
            } else {
                add_several(text, others.count, several, spot)
            }
        }
    }
}

/// Adds that one of the lines is of a kind.
#[tactic(auto, unfolding(crate::specs::Counts::one_line_of))]
fn add_one_of<'x, V: Out>(
    text: &mut TextBuffer<'_, V>,
    lines: u64,
    words: &'x [u8],
    spot: Spot<'x>,
) -> Result<(), WriteError>
    ensures { Adds V.sink text.old text.new result (one_line_of lines words.now (spot_view spot.entry)) }
{
    add_pieces(
        text,
        &[
            Piece::Bytes(b"1 of "),
            Piece::Number(lines),
            Piece::Bytes(b" "),
            Piece::Bytes(words),
            Piece::Bytes(b", "),
            Piece::Bytes(spot.front),
            Piece::Bytes(spot.separator),
            Piece::Number(spot.line),
            Piece::Bytes(b"\n"),
        ],
    )
}

/// Adds the number of lines of a kind, among all, with the first of them.
#[tactic(auto, unfolding(crate::specs::Counts::several_line_of))]
fn add_several_of<'x, V: Out>(
    text: &mut TextBuffer<'_, V>,
    count: u64,
    lines: u64,
    words: &'x [u8],
    spot: Spot<'x>,
) -> Result<(), WriteError>
    ensures { Adds V.sink text.old text.new result (several_line_of count lines words.now (spot_view spot.entry)) }
{
    add_pieces(
        text,
        &[
            Piece::Number(count),
            Piece::Bytes(b" of "),
            Piece::Number(lines),
            Piece::Bytes(b" "),
            Piece::Bytes(words),
            Piece::Bytes(b", the first is "),
            Piece::Bytes(spot.front),
            Piece::Bytes(spot.separator),
            Piece::Number(spot.line),
            Piece::Bytes(b"\n"),
        ],
    )
}

/// Adds the number of lines of a kind, among all, if there are some.
pub fn add_others_of<V: Out>(
    text: &mut TextBuffer<'_, V>,
    files: &[&[u8]],
    lines: u64,
    one: &[u8],
    several: &[u8],
    others: Option<Others>,
) -> Result<(), WriteError>
    ensures { Adds V.sink text.old text.new result (others_of_text (map (λ file. file.now) files.now) lines one.now several.now others) }
{
    match others {
        None => Ok(()),
        Some(others) => {
            let spot = spot_of(files, others.first);
            if others.count == 1 {
                add_one_of(text, lines, one, spot)
            } else {
                add_several_of(text, others.count, lines, several, spot)
            }
        }
    }
}
