//! The entries of a log.
ghost use Rattle.std.specs.Prelude.{◌≡◌, ◌≤◌, ◌++◌, ◌∷◌, [], suc, length, None, IfOk, OnOk, IfErr};
ghost use Rattle.chart.specs.declared.instance.TheConstants.{MAX_INSTANCES};
ghost use Rattle.log_chart.specs.Entries.{HaveStreams};
ghost use Rattle.log_chart.specs.Named.Entering.{place_in, with_word, kind_of, entry_in, with_line, entries_from, hosts_from};
ghost use Rattle.log_chart.specs.Cycles.Freeing.{AreAmong, HaveLanes};
ghost use Rattle.log_chart.specs.Named.Faults.{fault_in, fault_of, IsRefusal, IsHostRefusal};
ghost use Rattle.log_chart.specs.Named.Logs.{before_of, begun, IsRefusalOf};
ghost use Rattle.log_chart.specs.declared.named.entering.LogError.TheVariants.{Memory};

use crate::named::host_event::HostEvent;
use crate::named::hosts::instance_in;
use crate::named::stream::{Stream, number_in, number_of, stream_between};
use crate::{Entry, Kind, Place};
use chart::{InstanceNo, Name, Names, NamesError};
use indexmap::IndexSet;
use std::alloc::{AllocError, AllocFailed, Global};
use thiserror::Error;

/// Why lines make no log.
#[derive(Clone, Copy, Debug, PartialEq, Eq, Error)]
pub enum LogError {
    /// F6: a growth was refused.
    #[error("there is no memory left")]
    Memory,
    /// F8: there are more than 32 hosts.
    #[error("there are too many instances")]
    Instances,
    /// F13: in this line a host sends a message to itself, or receives one from itself.
    #[error("an instance sends no message to itself")]
    ToItself(Place),
}

impl From<AllocError> for LogError {
    ghost from_gives = { λ _ e. e ≡ Memory };

    fn from(_e: AllocError) -> LogError {
        LogError::Memory
    }
}

impl<T: Drop> From<AllocFailed<T>> for LogError {
    ghost from_gives = { λ _ e. e ≡ Memory };

    fn from(_e: AllocFailed<T>) -> LogError {
        LogError::Memory
    }
}

/// What the lines so far gave.
#[derive(Drop)]
struct Reading {
    hosts: Names,
    /// The names of messages without ids.
    names: IndexSet<Name>,
    streams: IndexSet<Stream>,
    entries: Vec<Entry>,
}

/// The instance of a host. F8 refuses the 33rd.
fn host_in(hosts: &mut Names, name: Name) -> Result<InstanceNo, LogError>
    requires few { length hosts.old ≤ MAX_INSTANCES }
    ensures instance { IfOk result (λ p. p ≡ suc (place_in hosts.old name)) }
    ensures kept { OnOk result (hosts.new ≡ with_word hosts.old name) }
    ensures few { OnOk result (length hosts.new ≤ MAX_INSTANCES) }
    ensures refused { IfErr result (IsHostRefusal hosts.old name) }
{
    match instance_in(hosts, name) {
        Ok(instance) => Ok(instance),
        Err(NamesError::Instances) => Err(LogError::Instances),
        Err(NamesError::Memory) => Err(LogError::Memory),
        Err(NamesError::Duplicate) => unreachable!(),
    }
}

fn kind_of(event: &HostEvent) -> Kind
    ensures { result ≡ kind_of event.now }
{
    if event.sends {
        Kind::Send
    } else {
        Kind::Receive
    }
}

impl Reading {
    /// Adds one more line. Of the faults of one line F8 comes before F13.
    fn add(&mut self, event: &HostEvent) -> Result<(), LogError>
        requires few { length self.old.hosts ≤ MAX_INSTANCES }
        ensures before { OnOk result (before_of self.new ≡ with_line (before_of self.old) event.now) }
        ensures entry { OnOk result (self.new.entries.items
            ≡ self.old.entries.items ++ entry_in (before_of self.old) event.now ∷ []) }
        ensures few { OnOk result (length self.new.hosts ≤ MAX_INSTANCES) }
        ensures faultless { OnOk result (fault_in (before_of self.old) event.now ≡ None) }
        ensures refused { IfErr result (IsRefusal (fault_in (before_of self.old) event.now)) }
    {
        let host = host_in(&mut self.hosts, event.host)?;
        let peer = host_in(&mut self.hosts, event.peer)?;
        if host == peer {
            return Err(LogError::ToItself(event.place));
        }
        let number = number_in(&mut self.names, event.id, event.name)?;
        let stream = number_of(&mut self.streams, stream_between(host, peer, event, number))?;
        self.entries.push(Entry {
            host,
            host_name: event.host,
            kind: kind_of(event),
            peer,
            name: event.name,
            stream,
            place: event.place,
        })?;
        Ok(())
    }
}

/// The entries of a log, and the names of its hosts.
#[derive(Debug, Drop)]
pub struct Log {
    pub names: Names,
    pub entries: Vec<Entry>,
}

/// The entries of these lines, in their order. The instances are these hosts and then those of the lines, each line's
/// host before its peer. Along a lane messages are of one stream if they have the same id or, if neither has an id, the
/// same name.
///
/// F8 refuses exactly a 33rd host, and F13 exactly a host that is its own peer. The first line with one of these
/// decides, and of the faults of one line F8 comes first. F6 may be the answer at any point.
pub fn entries_of(alloc: Global, hosts: &[Name], lines: &[HostEvent]) -> Result<Log, LogError>
    ensures names { IfOk result (λ log. log.names ≡ hosts_from (begun hosts.now) lines.now) }
    ensures entries { IfOk result (λ log. log.entries.items ≡ entries_from (begun hosts.now) lines.now) }
    ensures streams { IfOk result (λ log. HaveStreams log.entries.items) }
    ensures lanes { IfOk result (λ log. HaveLanes log.entries.items) }
    ensures among { IfOk result (λ log. AreAmong (length log.names) log.entries.items) }
    ensures faultless { OnOk result (fault_of hosts.now lines.now ≡ None) }
    ensures first { IfErr result (IsRefusal (fault_of hosts.now lines.now)) }
    ensures refused { IfErr result (IsRefusalOf hosts.now lines.now) }
{
    let mut reading = Reading {
        hosts: Names::new(alloc),
        names: IndexSet::new(alloc),
        streams: IndexSet::new(alloc),
        entries: Vec::new(alloc),
    };
    for host in hosts {
        host_in(&mut reading.hosts, *host)?;
    }
    for line in lines {
        reading.add(line)?;
    }
    Ok(Log {
        names: reading.hosts,
        entries: reading.entries,
    })
}
