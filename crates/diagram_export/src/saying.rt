//! The sayings of the rows of a layout.
ghost use Rattle.std.specs.Prelude.{◌≡◌};
ghost use Rattle.diagram_export.specs.Sayings.{has_late, level, sent, received, alone, saying_of, is_end, has_parted};

use crate::export::Export;
use chart::{Event, EventNo, InstanceNo, Name};
use chart_layout::Row;
use diagram_tool::Tool;

/// The saying of a row: its content, in the terms of a tool.
#[derive(Clone, Copy)]
pub(crate) enum Saying {
    /// A message with both ends in this row.
    Arrow {
        from: InstanceNo,
        to: InstanceNo,
        name: Name,
    },
    /// A message that nobody receives.
    Lost {
        from: InstanceNo,
        to: InstanceNo,
        name: Name,
    },
    /// A message that ends this many of the tool's rows further down.
    Late {
        from: InstanceNo,
        to: InstanceNo,
        name: Name,
        rows: u32,
    },
    /// The send of a message whose receive is in another row.
    Sends {
        at: InstanceNo,
        to: InstanceNo,
        name: Name,
    },
    /// The receive of a message whose send is in another row.
    Receives {
        at: InstanceNo,
        from: InstanceNo,
        name: Name,
    },
    /// Nothing: an arrow ends here.
    Space,
}

/// Whether the tool has arrows that end lower than they begin.
fn has_late(tool: Tool) -> bool
    ensures { result ≡ has_late tool }
{
    match tool {
        Tool::Mscgen => true,
        Tool::PlantUml | Tool::Mermaid => false,
    }
}

/// The saying of a level message.
fn level(send: &EventNo, receive: &EventNo, event: Option<Event>) -> Saying
    ensures { result ≡ level send.now receive.now event }
{
    match event {
        None => Saying::Space,
        Some(event) => Saying::Arrow {
            from: send.instance,
            to: receive.instance,
            name: event.name(),
        },
    }
}

/// The saying of a send alone, given its receive.
fn sent(
    export: &Export<'_>,
    send: &EventNo,
    to: InstanceNo,
    name: Name,
    receive: Option<EventNo>,
) -> Saying
    ensures { result ≡ sent export.now send.now to name receive }
{
    let from = send.instance;
    match receive {
        None => Saying::Lost { from, to, name },
        Some(receive) if has_late(export.tool()) => Saying::Late {
            from,
            to,
            name,
            rows: export.skip(send, &receive),
        },
        Some(_) => Saying::Sends { at: from, to, name },
    }
}

/// The saying of a receive alone.
fn received(tool: Tool, at: InstanceNo, from: InstanceNo, name: Name) -> Saying
    ensures { result ≡ received tool at from name }
{
    if has_late(tool) {
        Saying::Space
    } else {
        Saying::Receives { at, from, name }
    }
}

/// The saying of an event alone.
fn alone(export: &Export<'_>, at: &EventNo, event: Option<Event>) -> Saying
    ensures { result ≡ alone export.now at.now event }
{
    let Some(event) = event else {
        return Saying::Space;
    };
    match event {
        Event::Send { to, name } => sent(export, at, to, name, export.end_of(at)),
        Event::Receive { from, .. } => received(export.tool(), at.instance, from, event.name()),
    }
}

/// The saying of a row.
pub(crate) fn saying_of(export: &Export<'_>, row: &Row) -> Saying
    ensures { result ≡ saying_of export.now row.now }
{
    match row {
        Row::Message { send, receive } => level(send, receive, export.event_of(send)),
        Row::Event(event) => alone(export, event, export.event_of(event)),
    }
}

/// Whether a saying is one end of a message alone.
fn is_end(saying: &Saying) -> bool
    ensures { result ≡ is_end saying.now }
{
    match saying {
        Saying::Sends { .. } | Saying::Receives { .. } => true,
        _ => false,
    }
}

/// Whether the two ends of some message are separate notes, because the tool can't draw the message as an arrow.
pub fn has_parted(export: &Export<'_>) -> bool
    ensures { result ≡ has_parted export.now }
{
    export
        .rows()
        .iter()
        .any(|row| is_end(&saying_of(export, row)))
}
