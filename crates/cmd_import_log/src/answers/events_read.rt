//! The warnings that count a log's events, and name hosts with lines of their own and without.
ghost use Rattle.std.specs.Prelude.{length};
ghost use Rattle.std.specs.List.{flat_map};
ghost use Rattle.texts.specs.Writing.{Adds};
ghost use Rattle.cmd_import_log.specs.Answers.EventsRead.{one_event_line, several_events_line, events_text, lineless_text, lined_text, read_text};

use chart::{Name, Names};
use texts::pieces::{Piece, add_pieces};
use texts::{Out, TextBuffer, WriteError};

/// Adds that one event is read, with the number of hosts.
#[tactic(auto, unfolding(crate::specs::Answers::EventsRead::one_event_line))]
fn add_one_event<V: Out>(text: &mut TextBuffer<'_, V>, hosts: u64) -> Result<(), WriteError>
    ensures { Adds V.sink text.old text.new result (one_event_line hosts) }
{
    add_pieces(
        text,
        &[
            Piece::Bytes(b"1 event of "),
            Piece::Number(hosts),
            Piece::Bytes(b" hosts is read\n"),
        ],
    )
}

/// Adds that several events are read, with the number of hosts.
#[tactic(auto, unfolding(crate::specs::Answers::EventsRead::several_events_line))]
fn add_several_events<V: Out>(
    text: &mut TextBuffer<'_, V>,
    events: u64,
    hosts: u64,
) -> Result<(), WriteError>
    ensures { Adds V.sink text.old text.new result (several_events_line events hosts) }
{
    add_pieces(
        text,
        &[
            Piece::Number(events),
            Piece::Bytes(b" events of "),
            Piece::Number(hosts),
            Piece::Bytes(b" hosts are read\n"),
        ],
    )
}

/// Adds the numbers of events and hosts.
fn add_events_read<V: Out>(
    text: &mut TextBuffer<'_, V>,
    events: u64,
    hosts: u64,
) -> Result<(), WriteError>
    ensures { Adds V.sink text.old text.new result (events_text events hosts) }
{
    if events == 1 {
        add_one_event(text, hosts)
    } else {
        add_several_events(text, events, hosts)
    }
}

/// Adds a host without a line of its own.
#[tactic(auto, unfolding(crate::specs::Answers::EventsRead::lineless_text))]
fn add_lineless<V: Out>(text: &mut TextBuffer<'_, V>, name: &[u8]) -> Result<(), WriteError>
    ensures { Adds V.sink text.old text.new result (lineless_text name.now) }
{
    add_pieces(
        text,
        &[
            Piece::Bytes(name),
            Piece::Bytes(b" has no line of its own\n"),
        ],
    )
}

/// Adds the hosts without a line of their own.
pub(crate) fn add_all_lineless<V: Out>(
    text: &mut TextBuffer<'_, V>,
    names: &[Name],
) -> Result<(), WriteError>
    ensures { Adds V.sink text.old text.new result (flat_map lineless_text names.now) }
{
    for name in names {
        add_lineless(text, name.as_bytes())?;
    }
    Ok(())
}

/// Adds a host with lines of its own.
#[tactic(auto, unfolding(crate::specs::Answers::EventsRead::lined_text))]
fn add_lined<V: Out>(text: &mut TextBuffer<'_, V>, name: &[u8]) -> Result<(), WriteError>
    ensures { Adds V.sink text.old text.new result (lined_text name.now) }
{
    add_pieces(
        text,
        &[Piece::Bytes(name), Piece::Bytes(b" has lines of its own\n")],
    )
}

/// Adds the hosts with lines of their own.
pub(crate) fn add_all_lined<V: Out>(
    text: &mut TextBuffer<'_, V>,
    names: &[Name],
) -> Result<(), WriteError>
    ensures { Adds V.sink text.old text.new result (flat_map lined_text names.now) }
{
    for name in names {
        add_lined(text, name.as_bytes())?;
    }
    Ok(())
}

/// Adds the number of events of hosts with these names, and the hosts without a line of their own.
#[tactic(auto, using(texts::proofs::Writes::joining), unfolding(crate::specs::Answers::EventsRead::read_text))]
pub(crate) fn add_read<V: Out>(
    text: &mut TextBuffer<'_, V>,
    events: u64,
    names: &Names,
    lineless: &[Name],
) -> Result<(), WriteError>
    ensures { Adds V.sink text.old text.new result (read_text events (length names.now) lineless.now) }
{
    add_events_read(text, events, names.len() as u64)?;
    add_all_lineless(text, lineless)
}
