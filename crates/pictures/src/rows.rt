//! The rows of a picture: arrows with their labels, and the points of events.
ghost use Rattle.std.specs.Prelude.{◌≡◌};
ghost use Rattle.std.specs.List.{flat_map};
ghost use Rattle.texts.specs.Writing.{Adds};
ghost use Rattle.pictures.specs.Pictures.{cell_of, end_of, event_of};
ghost use Rattle.pictures.specs.RowText.{leaving, coming, message, toward, waiting_ends, waiting, both, slanted};
ghost use Rattle.pictures.specs.RowText.{level, sent, has_end, received, alone, row_text};

use crate::labels::{Side, add_cut_label, add_event_label, add_point};
use crate::picture::Picture;
use crate::spots::{Cell, aside, cut_spot, height, on_line};
use chart::{Event, EventNo, InstanceNo};
use chart_layout::Row;
use picture_parts::columns::Column;
use picture_parts::elements::{Spot, add_arrow, add_ring};
use texts::{Out, TextBuffer, WriteError};

/// Adds a send whose message is cut.
#[tactic(auto, using(texts::proofs::Writes::joining), unfolding(crate::specs::RowText::leaving))]
fn add_leaving<W: Out>(
    text: &mut TextBuffer<'_, W>,
    picture: &Picture<'_>,
    event: &EventNo,
    to: InstanceNo,
    cell: &Cell,
) -> Result<(), WriteError>
    ensures { Adds W.sink text.old text.new result (leaving picture.now event.now to cell.now) }
{
    add_arrow(text, on_line(cell), aside(cell))?;
    add_cut_label(text, picture, event, Side::Receiver, to, cut_spot(cell))?;
    add_point(text, picture, event, cell)
}

/// Adds a receive whose message is cut.
#[tactic(auto, using(texts::proofs::Writes::joining), unfolding(crate::specs::RowText::coming))]
fn add_coming<W: Out>(
    text: &mut TextBuffer<'_, W>,
    picture: &Picture<'_>,
    event: &EventNo,
    from: InstanceNo,
    cell: &Cell,
) -> Result<(), WriteError>
    ensures { Adds W.sink text.old text.new result (coming picture.now event.now from cell.now) }
{
    add_arrow(text, aside(cell), on_line(cell))?;
    add_cut_label(text, picture, event, Side::Sender, from, cut_spot(cell))?;
    add_point(text, picture, event, cell)
}

/// Adds the arrow of a message from its send to its receive, with its label.
#[tactic(auto, using(texts::proofs::Writes::joining), unfolding(crate::specs::RowText::message))]
fn add_message<W: Out>(
    text: &mut TextBuffer<'_, W>,
    picture: &Picture<'_>,
    event: &EventNo,
    from: &Cell,
    to: &Cell,
) -> Result<(), WriteError>
    ensures { Adds W.sink text.old text.new result (message picture.now event.now from.now to.now) }
{
    add_arrow(text, on_line(from), on_line(to))?;
    let level = from.place == to.place;
    add_event_label(text, picture, event, level, from, &to.column)
}

/// The spots of the arrow's tip of a waiting message, and of the circle beside it.
fn waiting_ends(cell: &Cell, column: &Column) -> (Spot, Spot)
    ensures { result ≡ waiting_ends cell.now column.now }
{
    let y = height(cell.place);
    let x = u64::from(column.x);
    if cell.column.x < column.x {
        let room = u64::from(column.room.left);
        let tip = x.saturating_sub(room + 8);
        let circle = x.saturating_sub(room + 4);
        return (Spot { x: tip, y }, Spot { x: circle, y });
    }
    let end = x + u64::from(column.room.right);
    (Spot { x: end + 8, y }, Spot { x: end + 4, y })
}

/// Adds the arrow of a waiting message, and the open circle at its end, beside the room of the column's lifeline.
#[tactic(auto, using(texts::proofs::Writes::joining), unfolding(crate::specs::RowText::toward))]
fn add_toward<W: Out>(
    text: &mut TextBuffer<'_, W>,
    cell: &Cell,
    column: &Column,
) -> Result<(), WriteError>
    ensures { Adds W.sink text.old text.new result (toward cell.now column.now) }
{
    let (tip, circle) = waiting_ends(cell, column);
    add_arrow(text, on_line(cell), tip)?;
    add_ring(text, circle)
}

/// Adds a send whose message waits for the instance of a column.
#[tactic(auto, using(texts::proofs::Writes::joining), unfolding(crate::specs::RowText::waiting))]
fn add_waiting<W: Out>(
    text: &mut TextBuffer<'_, W>,
    picture: &Picture<'_>,
    event: &EventNo,
    cell: &Cell,
    column: &Column,
) -> Result<(), WriteError>
    ensures { Adds W.sink text.old text.new result (waiting picture.now event.now cell.now column.now) }
{
    add_toward(text, cell, column)?;
    add_event_label(text, picture, event, true, cell, column)?;
    add_point(text, picture, event, cell)
}

/// Adds both ends of a message.
#[tactic(auto, using(texts::proofs::Writes::joining), unfolding(crate::specs::RowText::both))]
fn add_both<W: Out>(
    text: &mut TextBuffer<'_, W>,
    picture: &Picture<'_>,
    send: &EventNo,
    receive: &EventNo,
    from: &Cell,
    to: &Cell,
) -> Result<(), WriteError>
    ensures { Adds W.sink text.old text.new result (both picture.now send.now receive.now from.now to.now) }
{
    add_message(text, picture, send, from, to)?;
    add_point(text, picture, send, from)?;
    add_point(text, picture, receive, to)
}

/// Adds a message with a level arrow, or the end of it that is drawn.
fn add_level<W: Out>(
    text: &mut TextBuffer<'_, W>,
    picture: &Picture<'_>,
    send: &EventNo,
    receive: &EventNo,
) -> Result<(), WriteError>
    ensures { Adds W.sink text.old text.new result
        (level picture.now send.now receive.now (cell_of picture.now send.now) (cell_of picture.now receive.now)) }
{
    match (picture.cell_of(send), picture.cell_of(receive)) {
        (Some(from), Some(to)) => add_both(text, picture, send, receive, &from, &to),
        (Some(from), None) => add_leaving(text, picture, send, receive.instance, &from),
        (None, Some(to)) => add_coming(text, picture, receive, send.instance, &to),
        (None, None) => text.add(b""),
    }
}

/// Adds a send above its receive, with the arrow down to it.
#[tactic(auto, using(texts::proofs::Writes::joining), unfolding(crate::specs::RowText::slanted))]
fn add_slanted<W: Out>(
    text: &mut TextBuffer<'_, W>,
    picture: &Picture<'_>,
    event: &EventNo,
    from: &Cell,
    to: &Cell,
) -> Result<(), WriteError>
    ensures { Adds W.sink text.old text.new result (slanted picture.now event.now from.now to.now) }
{
    add_message(text, picture, event, from, to)?;
    add_point(text, picture, event, from)
}

/// Adds a send that is alone in its row.
fn add_sent<W: Out>(
    text: &mut TextBuffer<'_, W>,
    picture: &Picture<'_>,
    event: &EventNo,
    to: InstanceNo,
    cell: &Cell,
) -> Result<(), WriteError>
    ensures { Adds W.sink text.old text.new result
        (sent picture.now event.now to cell.now (end_of picture.now event.now)) }
{
    match picture.end_of(event) {
        Some(receive) => match picture.cell_of(&receive) {
            Some(end) => add_slanted(text, picture, event, cell, &end),
            None => add_leaving(text, picture, event, to, cell),
        },
        None => match picture.column_of(to) {
            Some(column) => add_waiting(text, picture, event, cell, &column),
            None => add_leaving(text, picture, event, to, cell),
        },
    }
}

/// Whether the other end of the event's message is drawn.
fn has_end(picture: &Picture<'_>, event: &EventNo) -> bool
    ensures { result ≡ has_end picture.now event.now }
{
    match picture.end_of(event) {
        Some(end) => picture.cell_of(&end).is_some(),
        None => false,
    }
}

/// Adds a receive that is alone in its row.
fn add_received<W: Out>(
    text: &mut TextBuffer<'_, W>,
    picture: &Picture<'_>,
    event: &EventNo,
    from: InstanceNo,
    cell: &Cell,
) -> Result<(), WriteError>
    ensures { Adds W.sink text.old text.new result (received picture.now event.now from cell.now) }
{
    if has_end(picture, event) {
        add_point(text, picture, event, cell)
    } else {
        add_coming(text, picture, event, from, cell)
    }
}

/// Adds an event that is alone in its row.
fn add_alone<W: Out>(
    text: &mut TextBuffer<'_, W>,
    picture: &Picture<'_>,
    event: &EventNo,
) -> Result<(), WriteError>
    ensures { Adds W.sink text.old text.new result
        (alone picture.now event.now (cell_of picture.now event.now) (event_of picture.now event.now)) }
{
    let Some(cell) = picture.cell_of(event) else {
        return text.add(b"");
    };
    let Some(found) = picture.event_of(event) else {
        return text.add(b"");
    };
    match found {
        Event::Send { to, .. } => add_sent(text, picture, event, to, &cell),
        Event::Receive { from, .. } => add_received(text, picture, event, from, &cell),
    }
}

fn add_row<W: Out>(
    text: &mut TextBuffer<'_, W>,
    picture: &Picture<'_>,
    row: &Row,
) -> Result<(), WriteError>
    ensures { Adds W.sink text.old text.new result (row_text picture.now row.now) }
{
    match row {
        Row::Message { send, receive } => add_level(text, picture, send, receive),
        Row::Event(event) => add_alone(text, picture, event),
    }
}

/// Adds rows.
pub(crate) fn add_rows<W: Out>(
    text: &mut TextBuffer<'_, W>,
    picture: &Picture<'_>,
    rows: &[Row],
) -> Result<(), WriteError>
    ensures { Adds W.sink text.old text.new result (flat_map (row_text picture.now) rows.now) }
{
    for row in rows {
        add_row(text, picture, row)?;
    }
    Ok(())
}
