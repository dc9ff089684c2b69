//! The earlier events that a receive may come before, each named by its message.
ghost use Rattle.std.specs.Prelude.{All};
ghost use Rattle.std.specs.List.{flat_map};
ghost use Rattle.chart.specs.Ranges.{IsRange};
ghost use Rattle.texts.specs.Writing.{Adds};
ghost use Rattle.diagram_export.specs.Earlier.{sent_to, received_from, event_words, event_named, up_to, range_named, next_named, ranges_named};

use crate::export::Export;
use crate::part::{Part, add_parts};
use crate::word::Word;
use chart::{Event, EventNo, EventRange, InstanceNo, Name};
use texts::{Out, TextBuffer, WriteError};

#[tactic(auto, unfolding(crate::specs::Earlier::sent_to))]
fn add_sent_to<W: Out>(
    text: &mut TextBuffer<'_, W>,
    export: &Export<'_>,
    to: InstanceNo,
    name: &Name,
) -> Result<(), WriteError>
    ensures { Adds W.sink text.old text.new result (sent_to export.now to name.now) }
{
    add_parts(
        text,
        &[
            Part::Name(Some(*name)),
            Part::Word(Word::To),
            Part::Name(export.names().name(to)),
        ],
    )
}

#[tactic(auto, unfolding(crate::specs::Earlier::received_from))]
fn add_received_from<W: Out>(
    text: &mut TextBuffer<'_, W>,
    export: &Export<'_>,
    from: InstanceNo,
    name: &Name,
) -> Result<(), WriteError>
    ensures { Adds W.sink text.old text.new result (received_from export.now from name.now) }
{
    add_parts(
        text,
        &[
            Part::Name(Some(*name)),
            Part::Word(Word::From),
            Part::Name(export.names().name(from)),
        ],
    )
}

/// Adds an event, named by its message, if there is one.
fn add_words<W: Out>(
    text: &mut TextBuffer<'_, W>,
    export: &Export<'_>,
    event: Option<Event>,
) -> Result<(), WriteError>
    ensures { Adds W.sink text.old text.new result (event_words export.now event) }
{
    let Some(event) = event else {
        return text.add(b"");
    };
    match event {
        Event::Send { to, .. } => add_sent_to(text, export, to, &event.name()),
        Event::Receive { from, .. } => add_received_from(text, export, from, &event.name()),
    }
}

/// Adds an event of the chart, named by its message.
fn add_event<W: Out>(
    text: &mut TextBuffer<'_, W>,
    export: &Export<'_>,
    event: &EventNo,
) -> Result<(), WriteError>
    ensures { Adds W.sink text.old text.new result (event_named export.now event.now) }
{
    add_words(text, export, export.event_of(event))
}

#[tactic(auto, using(texts::proofs::Writes::joining), unfolding(crate::specs::Earlier::up_to))]
fn add_up_to<W: Out>(
    text: &mut TextBuffer<'_, W>,
    export: &Export<'_>,
    first: &EventNo,
    last: &EventNo,
) -> Result<(), WriteError>
    ensures { Adds W.sink text.old text.new result (up_to export.now first.now last.now) }
{
    add_event(text, export, first)?;
    text.add(Word::UpTo.as_bytes())?;
    add_event(text, export, last)
}

/// Adds the events of a range.
#[tactic(auto, unfolding(crate::specs::Earlier::range_named))]
fn add_range<W: Out>(
    text: &mut TextBuffer<'_, W>,
    export: &Export<'_>,
    range: &EventRange,
) -> Result<(), WriteError>
    requires { IsRange range.now }
    ensures { Adds W.sink text.old text.new result (range_named export.now range.now) }
{
    let last = range.event(range.count - 1);
    if range.count == 1 {
        add_event(text, export, &range.first)
    } else {
        add_up_to(text, export, &range.first, &last)
    }
}

/// Adds the events of a range after those of another one.
#[tactic(auto, using(texts::proofs::Writes::joining), unfolding(crate::specs::Earlier::next_named))]
fn add_next_range<W: Out>(
    text: &mut TextBuffer<'_, W>,
    export: &Export<'_>,
    range: &EventRange,
) -> Result<(), WriteError>
    requires { IsRange range.now }
    ensures { Adds W.sink text.old text.new result (next_named export.now range.now) }
{
    text.add(Word::Comma.as_bytes())?;
    add_range(text, export, range)
}

fn add_next_ranges<W: Out>(
    text: &mut TextBuffer<'_, W>,
    export: &Export<'_>,
    ranges: &[EventRange],
) -> Result<(), WriteError>
    requires { All IsRange ranges.now }
    ensures { Adds W.sink text.old text.new result (flat_map (next_named export.now) ranges.now) }
{
    for range in ranges {
        add_next_range(text, export, range)?;
    }
    Ok(())
}

/// Adds the events of ranges, joined by commas.
#[tactic(auto, using(texts::proofs::Writes::joining))]
pub(crate) fn add_ranges<W: Out>(
    text: &mut TextBuffer<'_, W>,
    export: &Export<'_>,
    ranges: &[EventRange],
) -> Result<(), WriteError>
    requires { All IsRange ranges.now }
    ensures { Adds W.sink text.old text.new result (ranges_named export.now ranges.now) }
{
    match ranges {
        [] => text.add(b""),
        [first, others @ ..] => {
            add_range(text, export, first)?;
            add_next_ranges(text, export, others)
        }
    }
}
