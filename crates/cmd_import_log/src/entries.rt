//! The entries of a log, made from its lines.
ghost use Rattle.std.specs.Prelude.{◌≡◌, None, length, map, IfOk, OnOk, IfErr};
ghost use Rattle.log_chart.specs.Entries.{HaveStreams};
ghost use Rattle.log_chart.specs.Cycles.Freeing.{AreAmong, HaveLanes};
ghost use Rattle.log_lines.specs.Names.Naming.{named_view};
ghost use Rattle.cmd_import_log.specs.Entries.{entry_place, host_event_of, entries_in, names_in, fault_in};
ghost use Rattle.cmd_import_log.specs.Imported.{IsRefused};

use crate::diagnostics::log_place;
use crate::error::LogImportError;
use log_chart::named::{HostEvent, Log, LogError, entries_of};
use log_lines::Place;
use log_lines::names::{NamedLine, NamedLog};
use std::alloc::{AllocError, Global};

/// The place of a line, as entries have it.
fn entry_place(place: Place) -> log_chart::Place
    ensures { result ≡ entry_place place }
{
    log_chart::Place {
        file: place.text,
        line: place.line,
    }
}

/// The event of a line.
fn host_event_of(line: &NamedLine) -> HostEvent
    ensures { result ≡ host_event_of line.now }
{
    HostEvent {
        host: line.host,
        sends: line.sends,
        peer: line.peer,
        name: line.name,
        id: line.id,
        place: entry_place(line.place),
    }
}

/// The events of all lines.
fn host_events(alloc: Global, lines: &[NamedLine]) -> Result<Vec<HostEvent>, AllocError>
    ensures { IfOk result (λ events. events.items ≡ map host_event_of lines.now) }
{
    lines.iter().map(|line| host_event_of(line)).collect(alloc)
}

/// The entries of these lines. The hosts are in the order of their names in this log. F8: there are more than 32
/// hosts. F13: a host is its own peer.
pub(crate) fn entries_in(alloc: Global, named: &NamedLog) -> Result<Log, LogImportError>
    ensures names { IfOk result (λ log. log.names ≡ names_in (named_view named.now)) }
    ensures entries { IfOk result (λ log. log.entries.items ≡ entries_in (named_view named.now)) }
    ensures streams { IfOk result (λ log. HaveStreams log.entries.items) }
    ensures lanes { IfOk result (λ log. HaveLanes log.entries.items) }
    ensures among { IfOk result (λ log. AreAmong (length log.names) log.entries.items) }
    ensures faultless { OnOk result (fault_in (named_view named.now) ≡ None) }
    ensures refused { IfErr result (IsRefused (named_view named.now)) }
{
    let events = host_events(alloc, &named.lines)?;
    match entries_of(alloc, named.hosts.names(), &events) {
        Ok(log) => Ok(log),
        Err(LogError::Instances) => Err(LogImportError::Instances),
        Err(LogError::Memory) => Err(LogImportError::Memory),
        Err(LogError::ToItself(place)) => Err(LogImportError::ToItself(log_place(&place))),
    }
}
