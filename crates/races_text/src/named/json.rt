//! The races of a receive as JSON.
ghost use Rattle.std.specs.Prelude.{◌≡◌, ◌∷◌, IfOk};
ghost use Rattle.std.specs.List.{flat_map};
ghost use Rattle.chart.specs.Events.{ith};
ghost use Rattle.chart.specs.Ranges.{IsRange, events_of};
ghost use Rattle.texts.specs.Writing.{Adds};
ghost use Rattle.msc_text.specs.ChartText.{message_at};
ghost use Rattle.races_text.specs.Named.JsonText.{partner_at, number_text, message_and_sender, range_front, comma_before};
ghost use Rattle.races_text.specs.Named.JsonText.{message_text, range_text, next_text, object_text};
ghost use Rattle.races_text.specs.Named.Listing.{has_ranges};
ghost use Rattle.races_text.specs.Named.Words.{word_text};

use crate::named::kept::KeptRanges;
use crate::named::plain::last_of;
use crate::named::words::{Word, add_message_at, add_name, add_word};
use chart::{Event, EventNo, EventRange, Names};
use itoa::Buffer;
use shown_races::event_at;
use texts::{Out, TextBuffer, WriteError};

/// Adds the name of an event's partner, or nothing without an event.
fn add_partner_at<W: Out>(
    text: &mut TextBuffer<'_, W>,
    names: &Names,
    event: &Option<Event>,
) -> Result<(), WriteError>
    ensures { Adds W.sink text.old text.new result (partner_at names.now event.now) }
{
    match event {
        Some(event) => add_name(text, names, event.partner()),
        None => text.add(b""),
    }
}

/// Adds the beginning of an object, up to the receive's number. F24: a put failed.
#[tactic(auto, using(texts::proofs::Writes::joining), unfolding(crate::specs::Named::JsonText::number_text))]
pub fn add_number<W: Out>(
    text: &mut TextBuffer<'_, W>,
    names: &Names,
    receive: &EventNo,
) -> Result<(), WriteError>
    ensures { Adds W.sink text.old text.new result (number_text names.now receive.now) }
{
    add_word(text, Word::Instance)?;
    add_name(text, names, receive.instance)?;
    add_word(text, Word::Receive)?;
    text.add_number(u64::from(receive.index))
}

/// Adds the part of an object after the receive's number, up to the list of its ranges. F24: a put failed.
#[tactic(auto, using(texts::proofs::Writes::joining), unfolding(crate::specs::Named::JsonText::message_and_sender))]
pub fn add_message_and_sender<W: Out>(
    text: &mut TextBuffer<'_, W>,
    names: &Names,
    event: &Option<Event>,
) -> Result<(), WriteError>
    ensures { Adds W.sink text.old text.new result (message_and_sender names.now event.now) }
{
    add_word(text, Word::Message)?;
    add_message_at(text, event)?;
    add_word(text, Word::Sender)?;
    add_partner_at(text, names, event)?;
    add_word(text, Word::Ranges)
}

/// Adds the beginning of a range, up to the list of its messages. F24: a put failed.
#[tactic(auto, unfolding(crate::specs::Named::JsonText::range_front))]
pub fn add_range_front<W: Out>(
    text: &mut TextBuffer<'_, W>,
    first: u32,
    last: u32,
) -> Result<(), WriteError>
    ensures { Adds W.sink text.old text.new result (range_front first last) }
{
    let mut front = Buffer::new();
    let mut back = Buffer::new();
    text.add_all(&[
        b"{\"first\":",
        front.format(first).as_bytes(),
        b",\"last\":",
        back.format(last).as_bytes(),
        b",\"messages\":[",
    ])
}

/// Adds a comma before each message of a range except the first.
fn add_comma<W: Out>(text: &mut TextBuffer<'_, W>, is_first: bool) -> Result<(), WriteError>
    ensures { Adds W.sink text.old text.new result (comma_before is_first) }
{
    if is_first {
        text.add(b"")
    } else {
        add_word(text, Word::Next)
    }
}

/// Adds the message of an event, in the range whose first event has the number `first`.
#[tactic(auto, using(texts::proofs::Writes::joining), unfolding(crate::specs::Named::JsonText::message_text))]
fn add_message<W: Out>(
    text: &mut TextBuffer<'_, W>,
    events: &[Event],
    first: u32,
    event: EventNo,
) -> Result<(), WriteError>
    ensures { Adds W.sink text.old text.new result (message_text events.now first event) }
{
    add_comma(text, event.index == first)?;
    add_word(text, Word::Quote)?;
    add_message_at(text, &event_at(events, event.index as usize))?;
    add_word(text, Word::Quote)
}

/// Adds the messages of a range. F24: a put failed.
pub fn add_messages<W: Out>(
    text: &mut TextBuffer<'_, W>,
    events: &[Event],
    range: &EventRange,
) -> Result<(), WriteError>
    requires { IsRange range.now }
    ensures { Adds W.sink text.old text.new result
        (flat_map (message_text events.now range.now.first.index) (events_of range.now)) }
{
    for number in 0..range.count {
        add_message(text, events, range.first.index, range.event(number))?;
    }
    Ok(())
}

/// Adds a range.
#[tactic(auto, using(texts::proofs::Writes::joining), unfolding(crate::specs::Named::JsonText::range_text))]
fn add_range<W: Out>(
    text: &mut TextBuffer<'_, W>,
    events: &[Event],
    range: &EventRange,
) -> Result<(), WriteError>
    requires { IsRange range.now }
    ensures { Adds W.sink text.old text.new result (range_text events.now range.now) }
{
    add_range_front(text, range.first.index, last_of(range))?;
    add_messages(text, events, range)?;
    add_word(text, Word::EndRange)
}

/// Adds a range after another one.
#[tactic(auto, using(texts::proofs::Writes::joining), unfolding(crate::specs::Named::JsonText::next_text))]
fn add_next<W: Out>(
    text: &mut TextBuffer<'_, W>,
    events: &[Event],
    range: &EventRange,
) -> Result<(), WriteError>
    requires { IsRange range.now }
    ensures { Adds W.sink text.old text.new result (next_text events.now range.now) }
{
    add_word(text, Word::Next)?;
    add_range(text, events, range)
}

/// Adds the ranges after the first one.
fn add_others<W: Out>(
    text: &mut TextBuffer<'_, W>,
    events: &[Event],
    ranges: KeptRanges<'_>,
) -> Result<(), WriteError>
    ensures { Adds W.sink text.old text.new result (flat_map (next_text events.now) ranges.entry) }
{
    let mut ranges = ranges;
    while let Some(range) = ranges.next_range() {
        add_next(text, events, &range)?;
    }
    Ok(())
}

/// Adds the object of a receive with these ranges.
#[tactic(auto, using(texts::proofs::Writes::joining))]
fn add_object<W: Out>(
    text: &mut TextBuffer<'_, W>,
    names: &Names,
    events: &[Event],
    receive: &EventNo,
    first: &EventRange,
    others: KeptRanges<'_>,
) -> Result<(), WriteError>
    requires { IsRange first.now }
    ensures { Adds W.sink text.old text.new result
        (object_text names.now events.now receive.now (first.now ∷ others.entry)) }
{
    let index = receive.index as usize;
    let event = event_at(events, index);
    add_number(text, names, receive)?;
    add_message_and_sender(text, names, &event)?;
    add_range(text, events, first)?;
    add_others(text, events, others)?;
    add_word(text, Word::EndObject)
}

/// Adds an object if there are ranges. It returns whether there are any.
pub(crate) fn add_ranges<W: Out>(
    text: &mut TextBuffer<'_, W>,
    names: &Names,
    events: &[Event],
    receive: &EventNo,
    ranges: KeptRanges<'_>,
) -> Result<bool, WriteError>
    ensures object { Adds W.sink text.old text.new result (object_text names.now events.now receive.now ranges.entry) }
    ensures has { IfOk result (λ has. has ≡ has_ranges ranges.entry) }
{
    let mut ranges = ranges;
    let Some(first) = ranges.next_range() else {
        return Ok(false);
    };
    add_object(text, names, events, receive, &first, ranges)?;
    Ok(true)
}
