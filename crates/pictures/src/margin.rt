//! The margin of a picture: texts beside its rows, and lines that divide the rows.
ghost use Rattle.std.specs.Prelude.{◌≡◌, ◌≤◌, length, filter, IfOk};
ghost use Rattle.std.specs.List.{flat_map};
ghost use Rattle.texts.specs.Writing.{Adds};
ghost use Rattle.pictures.specs.Margins.{has_send, text_width, widest, margin_of, with_margin, margin_x};
ghost use Rattle.pictures.specs.Margins.{row_place, note_place, note_at, note_text, line_at, dividing_line};

use crate::columns::rows_above;
use crate::picture::Picture;
use chart::{Event, Line};
use chart_layout::margin::MarginNote;
use chart_layout::{Row, event_in};
use picture_parts::elements::Spot;
use std::alloc::{AllocError, Global};
use texts::pieces::{Piece, add_pieces};
use texts::{Out, TextBuffer, WriteError};

/// Whether a message is sent in a row.
fn has_send(lines: &[Line], row: &Row) -> bool
    ensures { result ≡ has_send lines.now row.now }
{
    match row {
        Row::Message { .. } => true,
        Row::Event(event) => match event_in(lines, event) {
            Some(Event::Send { .. }) => true,
            Some(Event::Receive { .. }) | None => false,
        },
    }
}

/// The rows in which messages are sent.
pub(crate) fn sends_in(alloc: Global, lines: &[Line], rows: &[Row]) -> Result<Vec<Row>, AllocError>
    ensures { IfOk result (λ sends. sends.items ≡ filter (has_send lines.now) rows.now) }
{
    rows.iter()
        .copied()
        .filter(|row| has_send(lines, row))
        .collect(alloc)
}

/// The width of a text in pixels, by its number of characters. At most 4,096 characters are counted.
fn text_width(characters: usize) -> u32
    ensures value { result ≡ text_width characters }
    ensures limit { result ≤ 27307 }
{
    (20 * characters.min(4096) as u32 + 2) / 3
}

/// The width of the widest of these texts.
fn widest(notes: &[MarginNote]) -> u32
    ensures { result ≡ widest notes.now }
{
    notes
        .iter()
        .fold(0, |wide: u32, note| wide.max(text_width(note.text.len())))
}

/// The width of the margin.
fn margin_of(notes: &[MarginNote]) -> u32
    ensures { result ≡ margin_of notes.now }
{
    if notes.is_empty() {
        0
    } else {
        widest(notes).saturating_add(16)
    }
}

/// The width of a picture with its margin, by its width without the margin.
pub(crate) fn with_margin(width: u32, notes: &[MarginNote]) -> u32
    ensures { result ≡ with_margin width notes.now }
{
    width.saturating_add(margin_of(notes))
}

/// The x coordinate at which the texts of the margin begin.
fn margin_x(picture: &Picture<'_>) -> u64
    ensures { result ≡ margin_x picture.now }
{
    u64::from(picture.width().saturating_sub(margin_of(picture.notes())))
}

/// The number of rows that are drawn above a row, if the row is drawn.
fn row_place(picture: &Picture<'_>, row: &Row) -> Option<u32>
    ensures { result ≡ row_place picture.now row.now }
{
    match row {
        Row::Message { send, receive } => match rows_above(picture, send) {
            Some(place) => Some(place),
            None => rows_above(picture, receive),
        },
        Row::Event(event) => rows_above(picture, event),
    }
}

/// The number of rows that are drawn above a text of the margin, if the text is drawn.
fn note_place(picture: &Picture<'_>, note: &MarginNote) -> Option<u32>
    ensures { result ≡ note_place picture.now note.now }
{
    match picture.send_row(note.above) {
        Some(row) => row_place(picture, &row),
        None => match picture.last_row() {
            Some(row) => match row_place(picture, &row) {
                Some(_) => Some(picture.count()),
                None => None,
            },
            None => Some(picture.count()),
        },
    }
}

/// Adds a text that begins at this spot.
#[tactic(auto, unfolding(crate::specs::Margins::note_at))]
fn add_note_at<W: Out>(
    text: &mut TextBuffer<'_, W>,
    at: Spot,
    words: &[u8],
) -> Result<(), WriteError>
    ensures { Adds W.sink text.old text.new result (note_at at words.now) }
{
    add_pieces(
        text,
        &[
            Piece::Bytes(b"<text class='s' x='"),
            Piece::Number(at.x),
            Piece::Bytes(b"' y='"),
            Piece::Number(at.y),
            Piece::Bytes(b"'>"),
            Piece::Escaped(words),
            Piece::Bytes(b"</text>\n"),
        ],
    )
}

/// Adds a text of the margin, if it is drawn.
fn add_note<W: Out>(
    text: &mut TextBuffer<'_, W>,
    picture: &Picture<'_>,
    x: u64,
    note: &MarginNote,
) -> Result<(), WriteError>
    ensures { Adds W.sink text.old text.new result (note_text picture.now x note.now) }
{
    match note_place(picture, note) {
        Some(place) => {
            let at = Spot {
                x,
                y: u64::from(place) * 24 + 76,
            };
            add_note_at(text, at, note.text.as_slice())
        }
        None => text.add(b""),
    }
}

/// Adds a line that divides the rows, up to this spot.
#[tactic(auto, unfolding(crate::specs::Margins::line_at))]
fn add_line_at<W: Out>(text: &mut TextBuffer<'_, W>, end: Spot) -> Result<(), WriteError>
    ensures { Adds W.sink text.old text.new result (line_at end) }
{
    add_pieces(
        text,
        &[
            Piece::Bytes(b"<path stroke-dasharray='2 4' d='M16 "),
            Piece::Number(end.y),
            Piece::Bytes(b"H"),
            Piece::Number(end.x),
            Piece::Bytes(b"'/>\n"),
        ],
    )
}

/// Adds the dividing line of a text, if it has one that is drawn.
fn add_dividing_line<W: Out>(
    text: &mut TextBuffer<'_, W>,
    picture: &Picture<'_>,
    x: u64,
    note: &MarginNote,
) -> Result<(), WriteError>
    ensures { Adds W.sink text.old text.new result (dividing_line picture.now x note.now) }
{
    if !note.divides {
        return text.add(b"");
    }
    match note_place(picture, note) {
        Some(place) => {
            let end = Spot {
                x: x.saturating_sub(16),
                y: u64::from(place) * 24 + 72,
            };
            add_line_at(text, end)
        }
        None => text.add(b""),
    }
}

fn add_notes<W: Out>(
    text: &mut TextBuffer<'_, W>,
    picture: &Picture<'_>,
    x: u64,
    notes: &[MarginNote],
) -> Result<(), WriteError>
    ensures { Adds W.sink text.old text.new result (flat_map (note_text picture.now x) notes.now) }
{
    for note in notes {
        add_note(text, picture, x, note)?;
    }
    Ok(())
}

fn add_lines<W: Out>(
    text: &mut TextBuffer<'_, W>,
    picture: &Picture<'_>,
    x: u64,
    notes: &[MarginNote],
) -> Result<(), WriteError>
    ensures { Adds W.sink text.old text.new result (flat_map (dividing_line picture.now x) notes.now) }
{
    for note in notes {
        add_dividing_line(text, picture, x, note)?;
    }
    Ok(())
}

/// Adds the texts of the margin.
pub(crate) fn add_margin<W: Out>(
    text: &mut TextBuffer<'_, W>,
    picture: &Picture<'_>,
) -> Result<(), WriteError>
    ensures { Adds W.sink text.old text.new result (flat_map (note_text picture.now (margin_x picture.now)) picture.now.notes) }
{
    add_notes(text, picture, margin_x(picture), picture.notes())
}

/// Adds the dividing lines.
pub(crate) fn add_dividing_lines<W: Out>(
    text: &mut TextBuffer<'_, W>,
    picture: &Picture<'_>,
) -> Result<(), WriteError>
    ensures { Adds W.sink text.old text.new result (flat_map (dividing_line picture.now (margin_x picture.now)) picture.now.notes) }
{
    add_lines(text, picture, margin_x(picture), picture.notes())
}
