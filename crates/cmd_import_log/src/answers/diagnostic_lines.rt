//! The warnings that name lines of a log, or events of its chart.
ghost use Rattle.std.specs.Prelude.{◌≤◌, length, map, All};
ghost use Rattle.std.specs.List.{flat_map};
ghost use Rattle.texts.specs.Writing.{Adds};
ghost use Rattle.log_text.specs.Spots.{spot_view};
ghost use Rattle.cmd_import_log.specs.Answers.DiagnosticLines.{lost_line, lost_text, overtaking_line, overtaking_text, freed_line, freed_text, invented_line, invented_text};

use crate::answers::overtaking::Overtaking;
use chart::{EventNo, Names};
use log_lines::Place;
use log_text::{Spot, spot_of};
use texts::pieces::{Piece, add_pieces};
use texts::{Out, TextBuffer, WriteError, named};

/// Adds a line whose message is lost.
#[tactic(auto, unfolding(crate::specs::Answers::DiagnosticLines::lost_line))]
fn add_lost<V: Out>(text: &mut TextBuffer<'_, V>, spot: Spot<'_>) -> Result<(), WriteError>
    ensures { Adds V.sink text.old text.new result (lost_line (spot_view spot.entry)) }
{
    add_pieces(
        text,
        &[
            Piece::Bytes(spot.front),
            Piece::Bytes(spot.separator),
            Piece::Number(spot.line),
            Piece::Bytes(b" is lost\n"),
        ],
    )
}

/// Adds the line at this place, whose message is lost.
fn add_lost_at<V: Out>(
    text: &mut TextBuffer<'_, V>,
    files: &[&[u8]],
    place: Place,
) -> Result<(), WriteError>
    ensures { Adds V.sink text.old text.new result (lost_text (map (λ file. file.now) files.now) place) }
{
    add_lost(text, spot_of(files, place))
}

/// Adds the lines whose messages are lost.
pub(crate) fn add_all_lost<V: Out>(
    text: &mut TextBuffer<'_, V>,
    files: &[&[u8]],
    lost: &[Place],
) -> Result<(), WriteError>
    ensures { Adds V.sink text.old text.new result (flat_map (lost_text (map (λ file. file.now) files.now)) lost.now) }
{
    for place in lost {
        add_lost_at(text, files, *place)?;
    }
    Ok(())
}

/// Adds a line whose message overtakes another one.
#[tactic(auto, unfolding(crate::specs::Answers::DiagnosticLines::overtaking_line))]
fn add_overtaking<'x, V: Out>(
    text: &mut TextBuffer<'_, V>,
    spot: Spot<'x>,
    overtaken: Spot<'x>,
) -> Result<(), WriteError>
    ensures { Adds V.sink text.old text.new result (overtaking_line (spot_view spot.entry) (spot_view overtaken.entry)) }
{
    add_pieces(
        text,
        &[
            Piece::Bytes(spot.front),
            Piece::Bytes(spot.separator),
            Piece::Number(spot.line),
            Piece::Bytes(b" overtakes "),
            Piece::Bytes(overtaken.front),
            Piece::Bytes(overtaken.separator),
            Piece::Number(overtaken.line),
            Piece::Bytes(b": this lane isn't first in, first out\n"),
        ],
    )
}

/// Adds a message that overtakes another one.
fn add_message<V: Out>(
    text: &mut TextBuffer<'_, V>,
    files: &[&[u8]],
    message: Overtaking,
) -> Result<(), WriteError>
    ensures { Adds V.sink text.old text.new result (overtaking_text (map (λ file. file.now) files.now) message) }
{
    let line = spot_of(files, message.line);
    let overtaken = spot_of(files, message.overtaken);
    add_overtaking(text, line, overtaken)
}

/// Adds the lines whose messages overtake.
pub(crate) fn add_all_overtaking<V: Out>(
    text: &mut TextBuffer<'_, V>,
    files: &[&[u8]],
    overtaking: &[Overtaking],
) -> Result<(), WriteError>
    ensures { Adds V.sink text.old text.new result (flat_map (overtaking_text (map (λ file. file.now) files.now)) overtaking.now) }
{
    for message in overtaking {
        add_message(text, files, *message)?;
    }
    Ok(())
}

/// Adds a line whose receive is freed.
#[tactic(auto, unfolding(crate::specs::Answers::DiagnosticLines::freed_line))]
fn add_freed<V: Out>(text: &mut TextBuffer<'_, V>, spot: Spot<'_>) -> Result<(), WriteError>
    ensures { Adds V.sink text.old text.new result (freed_line (spot_view spot.entry)) }
{
    add_pieces(
        text,
        &[
            Piece::Bytes(spot.front),
            Piece::Bytes(spot.separator),
            Piece::Number(spot.line),
            Piece::Bytes(b" takes no send of the log, for it would close a cycle\n"),
        ],
    )
}

/// Adds the line at this place, whose receive is freed.
fn add_freed_at<V: Out>(
    text: &mut TextBuffer<'_, V>,
    files: &[&[u8]],
    place: Place,
) -> Result<(), WriteError>
    ensures { Adds V.sink text.old text.new result (freed_text (map (λ file. file.now) files.now) place) }
{
    add_freed(text, spot_of(files, place))
}

/// Adds the lines whose receives are freed.
pub(crate) fn add_all_freed<V: Out>(
    text: &mut TextBuffer<'_, V>,
    files: &[&[u8]],
    freed: &[Place],
) -> Result<(), WriteError>
    ensures { Adds V.sink text.old text.new result (flat_map (freed_text (map (λ file. file.now) files.now)) freed.now) }
{
    for place in freed {
        add_freed_at(text, files, *place)?;
    }
    Ok(())
}

/// Adds an invented send.
#[tactic(auto, unfolding(crate::specs::Answers::DiagnosticLines::invented_line))]
fn add_invented<V: Out>(
    text: &mut TextBuffer<'_, V>,
    name: &[u8],
    index: u64,
) -> Result<(), WriteError>
    ensures { Adds V.sink text.old text.new result (invented_line name.now index) }
{
    add_pieces(
        text,
        &[
            Piece::Bytes(name),
            Piece::Bytes(b" "),
            Piece::Number(index),
            Piece::Bytes(b" is invented: the log begins in the middle\n"),
        ],
    )
}

/// Adds an invented send, by its event number.
fn add_event<V: Out>(
    text: &mut TextBuffer<'_, V>,
    names: &Names,
    event: EventNo,
) -> Result<(), WriteError>
    requires { event.instance ≤ length names.now }
    ensures { Adds V.sink text.old text.new result (invented_text names.now event) }
{
    let name = named(names, event.instance);
    add_invented(text, name.as_bytes(), u64::from(event.index))
}

/// Adds the invented sends.
pub(crate) fn add_all_invented<V: Out>(
    text: &mut TextBuffer<'_, V>,
    names: &Names,
    invented: &[EventNo],
) -> Result<(), WriteError>
    requires { All (λ e. e.instance ≤ length names.now) invented.now }
    ensures { Adds V.sink text.old text.new result (flat_map (invented_text names.now) invented.now) }
{
    for event in invented {
        add_event(text, names, *event)?;
    }
    Ok(())
}
