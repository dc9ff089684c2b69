//! The labels of messages, and the points and numbers of events.
ghost use Rattle.std.specs.Prelude.{◌≡◌};
ghost use Rattle.texts.specs.Instances.{name_at};
ghost use Rattle.texts.specs.Writing.{Adds};
ghost use Rattle.pictures.specs.RowText.{message_name, side_text, number_at, point, label_of, event_label, cut_label};

use crate::picture::Picture;
use crate::spots::{Cell, are_near, height, label_x, number_of, number_spot, on_line};
use chart::{EventNo, InstanceNo};
use picture_parts::columns::{Column, name_width};
use picture_parts::elements::{
    Spot, add_group_end, add_label, add_label_end, add_label_start, add_number, add_point_start,
};
use texts::{Out, TextBuffer, WriteError, named};

/// The side of a message on which the instance without a column is.
#[derive(Clone, Copy)]
pub(crate) enum Side {
    Receiver,
    Sender,
}

#[tactic(auto, unfolding(crate::specs::RowText::side_text))]
fn word_of(side: &Side) -> &[u8]
    ensures { result.now ≡ side_text side.now }
{
    match side {
        Side::Receiver => b" to ",
        Side::Sender => b" from ",
    }
}

/// Adds the name of the event's message, or nothing if there is no such event.
fn add_message_name<W: Out>(
    text: &mut TextBuffer<'_, W>,
    picture: &Picture<'_>,
    event: &EventNo,
) -> Result<(), WriteError>
    ensures { Adds W.sink text.old text.new result (message_name picture.now event.now) }
{
    match picture.event_of(event) {
        Some(found) => {
            let name = found.name();
            text.add(name.as_bytes())
        }
        None => text.add(b""),
    }
}

/// Adds the name of an instance, if it has one.
fn add_instance_name<W: Out>(
    text: &mut TextBuffer<'_, W>,
    picture: &Picture<'_>,
    instance: InstanceNo,
) -> Result<(), WriteError>
    ensures { Adds W.sink text.old text.new result (name_at picture.now.names instance) }
{
    let names = picture.names();
    if instance.place() < names.len() {
        let name = named(names, instance);
        text.add(name.as_bytes())
    } else {
        text.add(b"")
    }
}

/// Adds the number of an event, if the picture has numbers.
fn add_number_at<W: Out>(
    text: &mut TextBuffer<'_, W>,
    picture: &Picture<'_>,
    event: &EventNo,
    cell: &Cell,
) -> Result<(), WriteError>
    ensures { Adds W.sink text.old text.new result (number_at picture.now event.now cell.now) }
{
    if !picture.has_numbers() {
        return text.add(b"");
    }
    let number = u64::from(event.index);
    if cell.column.room.mirrored {
        add_number(text, b"e", number_spot(cell), number)
    } else {
        add_number(text, b"n", number_spot(cell), number)
    }
}

/// Adds the group of an event.
#[tactic(auto, using(texts::proofs::Writes::joining), unfolding(crate::specs::RowText::point))]
pub(crate) fn add_point<W: Out>(
    text: &mut TextBuffer<'_, W>,
    picture: &Picture<'_>,
    event: &EventNo,
    cell: &Cell,
) -> Result<(), WriteError>
    ensures { Adds W.sink text.old text.new result (point picture.now event.now cell.now) }
{
    let number = u64::from(event.index);
    add_point_start(text, number_of(event.instance), number, on_line(cell))?;
    add_number_at(text, picture, event, cell)?;
    add_group_end(text)
}

/// Adds the label of a message with this name, from the cell to a column.
fn add_label_of<W: Out>(
    text: &mut TextBuffer<'_, W>,
    name: &[u8],
    level: bool,
    from: &Cell,
    to: &Column,
) -> Result<(), WriteError>
    ensures { Adds W.sink text.old text.new result (label_of name.now level from.now to.now) }
{
    let near = are_near(&from.column, to);
    let x = label_x(level, &from.column, to, name_width(name, near));
    add_label(text, near, name, x, height(from.place))
}

/// Adds the label of an event's message.
pub(crate) fn add_event_label<W: Out>(
    text: &mut TextBuffer<'_, W>,
    picture: &Picture<'_>,
    event: &EventNo,
    level: bool,
    from: &Cell,
    to: &Column,
) -> Result<(), WriteError>
    ensures { Adds W.sink text.old text.new result (event_label picture.now event.now level from.now to.now) }
{
    match picture.event_of(event) {
        Some(found) => {
            let name = found.name();
            add_label_of(text, name.as_bytes(), level, from, to)
        }
        None => add_label_of(text, b"", level, from, to),
    }
}

/// Adds the label of a message that is cut, with the name of the instance on its other side. A message is cut if this
/// instance has no column.
#[tactic(auto, using(texts::proofs::Writes::joining), unfolding(crate::specs::RowText::cut_label))]
pub(crate) fn add_cut_label<W: Out>(
    text: &mut TextBuffer<'_, W>,
    picture: &Picture<'_>,
    event: &EventNo,
    side: Side,
    other: InstanceNo,
    at: Spot,
) -> Result<(), WriteError>
    ensures { Adds W.sink text.old text.new result (cut_label picture.now event.now side other at) }
{
    add_label_start(text, at)?;
    add_message_name(text, picture, event)?;
    text.add(word_of(&side))?;
    add_instance_name(text, picture, other)?;
    add_label_end(text)
}
