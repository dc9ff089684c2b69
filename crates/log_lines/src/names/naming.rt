//! The names of hosts and of messages.
ghost use Rattle.std.specs.Prelude.{◌≡◌, map, option_map, IfOk, OnOk};
ghost use Rattle.diagram_labels.specs.Labels.{with_label, name_of};
ghost use Rattle.log_lines.specs.Events.{logged_event_view, event_view};
ghost use Rattle.log_lines.specs.Reading.{with_other};
ghost use Rattle.log_lines.specs.Names.Hosts.{peer_view, host_of};
ghost use Rattle.log_lines.specs.Names.Naming.{sends, named_view, nothing_named, with_hosts, ids_with, id_number, with_event, with_logged, named};

use crate::names::hosts::{Peer, host_of};
use crate::names::ids::Ids;
use crate::names::line::NamedLine;
use crate::{Act, LoggedEvent, Others, one_more};
use diagram_labels::LabelNames;
use std::alloc::{AllocError, Global};

/// The lines of a log with names, and the words of the log for each name.
#[derive(Debug, Drop)]
pub struct NamedLog {
    /// The words for hosts, and the name of each.
    pub hosts: LabelNames,
    /// The words for messages, and the name of each.
    pub messages: LabelNames,
    pub ids: Ids,
    pub lines: Vec<NamedLine>,
    /// The skipped events, of messages of a host to itself.
    pub own: Option<Others>,
}

/// Whether the host sends.
fn sends(act: Act) -> bool
    ensures { result ≡ sends act }
{
    match act {
        Act::Send => true,
        Act::Receive => false,
    }
}

/// The number of the id, if there is one.
fn id_number(alloc: Global, ids: &mut Ids, id: Option<&[u8]>) -> Result<Option<usize>, AllocError>
    ensures number { IfOk result (λ number. number ≡ id_number ids.new (option_map (λ w. w.now) id.entry)) }
    ensures kept { OnOk result (ids.new ≡ ids_with ids.old (option_map (λ w. w.now) id.entry)) }
{
    match id {
        None => Ok(None),
        Some(text) => {
            let number = ids.number(alloc, text)?;
            Ok(Some(number))
        }
    }
}

impl NamedLog {
    /// No lines. It takes no memory.
    fn new(alloc: Global) -> NamedLog
        ensures { named_view result ≡ nothing_named }
    {
        NamedLog {
            hosts: LabelNames::new(alloc),
            messages: LabelNames::new(alloc),
            ids: Ids::new(alloc),
            lines: Vec::new(alloc),
            own: None,
        }
    }

    /// Adds an event of this host, with the other end of the message at this peer.
    fn add_event(
        &mut self,
        alloc: Global,
        host: &[u8],
        peer: &[u8],
        logged: &LoggedEvent<'_>,
    ) -> Result<(), AllocError>
        ensures { OnOk result (named_view self.new ≡ with_event host.now peer.now (logged_event_view logged.now) (named_view self.old)) }
    {
        let host = self.hosts.name(alloc, host)?;
        let peer = self.hosts.name(alloc, peer)?;
        let name = self.messages.name(alloc, logged.event.name)?;
        let id = id_number(alloc, &mut self.ids, logged.event.id)?;
        self.lines.push(NamedLine {
            host,
            sends: sends(logged.event.act),
            peer,
            name,
            id,
            place: logged.place,
        })?;
        Ok(())
    }

    /// Adds an event. `peers` has the log's other words for hosts.
    fn add(
        &mut self,
        alloc: Global,
        peers: &[Peer<'_>],
        logged: &LoggedEvent<'_>,
    ) -> Result<(), AllocError>
        ensures { OnOk result (named_view self.new ≡ with_logged (map peer_view peers.now) (logged_event_view logged.now) (named_view self.old)) }
    {
        let host = host_of(peers, logged.event.host);
        let peer = host_of(peers, logged.event.peer);
        if host == peer {
            self.own = Some(one_more(self.own, logged.place));
            return Ok(());
        }
        self.add_event(alloc, host, peer, logged)
    }
}

/// The events of a log with names of hosts and of messages. Each name follows the rule for labels, in the order in
/// which the labels come. The hosts in `hosts` come first. Events of messages of a host to itself are skipped and
/// counted.
///
/// F6: it fails only if there is no memory.
#[tactic(auto, unfolding(crate::specs::Names::Naming::named))]
pub fn named(
    alloc: Global,
    hosts: &[&[u8]],
    peers: &[Peer<'_>],
    logged: &[LoggedEvent<'_>],
) -> Result<NamedLog, AllocError>
    ensures { IfOk result (λ log. named_view log
        ≡ named (map (λ w. w.now) hosts.now) (map peer_view peers.now) (map logged_event_view logged.now)) }
{
    let mut log = NamedLog::new(alloc);
    for host in hosts {
        log.hosts.name(alloc, host)?;
    }
    for event in logged {
        log.add(alloc, peers, event)?;
    }
    Ok(log)
}
