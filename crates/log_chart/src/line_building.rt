//! The lines of the hosts of a log.
ghost use Rattle.std.specs.Prelude.{◌≡◌, ◌≤◌, length, IfOk};
ghost use Rattle.chart.specs.declared.instance.TheConstants.{MAX_INSTANCES};
ghost use Rattle.log_chart.specs.Begun.{begun, behind};
ghost use Rattle.log_chart.specs.BegunTables.{HoldsRising, AreNumberedBelow};
ghost use Rattle.log_chart.specs.Chains.{AreChains};
ghost use Rattle.log_chart.specs.Entries.{HaveStreams};
ghost use Rattle.log_chart.specs.Fates.{fates};
ghost use Rattle.log_chart.specs.HostLines.{lines_from, kept, host_lines};
ghost use Rattle.log_chart.specs.Matching.{matched};

use crate::begun::{Begun, begun_sends};
use crate::chains::Chains;
use crate::entry::Entry;
use crate::fate::Fate;
use crate::host_line::{behind_of, items_of};
use crate::item::Item;
use crate::losing::sift;
use crate::matching::{LogLine, matched};
use crate::name_order::{HostName, hosts_by_name};
use chart::InstanceNo;
use std::alloc::{AllocError, Global};
use std::marker::Model;

/// The events of a host. A contract sees them as a list.
#[derive(Drop)]
pub struct HostLine {
    items: Vec<Item>,
}

impl Model for HostLine {
    ghost use Rattle.std.specs.Prelude.{List};
    ghost use Rattle.log_chart.specs.declared.item.Item.{Item};

    ghost Value = { List Item };

    ghost view = { λ l. l.items.items };
}

impl HostLine {
    /// The events, in their order.
    pub fn as_slice(&self) -> &[Item]
        ensures { result.now ≡ self.now }
    {
        self.items.as_slice()
    }
}

/// The lines of the hosts of a log, and the steps that led to them.
#[derive(Drop)]
pub struct HostLines {
    /// Each line of the log, with the send that it takes.
    pub matched: Vec<LogLine>,
    /// The fate of each of these lines.
    pub fates: Vec<Fate>,
    /// The invented sends.
    pub given: Vec<Begun>,
    /// The events of each host, in the order of the hosts' numbers.
    pub lines: Vec<HostLine>,
}

/// The lines of the hosts. `hosts` has the hosts in the order of their names.
fn lines_of(
    alloc: Global,
    hosts: &[HostName],
    lines: &[LogLine],
    given: &[Begun],
    behind_sends: &Chains,
) -> Result<Vec<HostLine>, AllocError>
    requires count { length hosts.now ≤ MAX_INSTANCES }
    requires behind { AreChains behind_sends.now.first.items behind_sends.now.next.items (behind given.now) }
    requires rising { HoldsRising behind_sends.now }
    requires within { AreNumberedBelow (length behind_sends.now.first.items) lines.now }
    ensures { IfOk result (λ made. made.items ≡ lines_from hosts.now lines.now given.now 1 (length hosts.now)) }
{
    let mut made = Vec::new(alloc);
    for place in 0..hosts.len() {
        let host = InstanceNo::at_place(place);
        made.push(HostLine {
            items: items_of(alloc, hosts, lines, given, behind_sends, host)?,
        })?;
    }
    Ok(made)
}

/// The lines of a log that stay, each receive with the send that it takes.
///
/// F6: it fails only if there is no memory.
pub fn kept_lines(alloc: Global, log: &[Entry]) -> Result<Vec<LogLine>, AllocError>
    requires { HaveStreams log.now }
    ensures { IfOk result (λ lines. lines.items ≡ kept log.now) }
{
    let matched = matched(alloc, log)?;
    let sifted = sift(alloc, &matched)?;
    Ok(sifted.staying)
}

/// The lines of the `count` hosts of a log.
///
/// Each receive takes the first send of its stream that no receive above it took. Lost messages and messages that
/// overtake are skipped. For a receive without a send its peer gets an invented one. This is directly after the send of
/// the last message above the receive on its lane that isn't skipped. If there is none, it is at the head of the peer's
/// line, by the names of the receivers.
///
/// F6: it fails only if there is no memory.
pub fn host_lines(alloc: Global, count: usize, log: &[Entry]) -> Result<HostLines, AllocError>
    requires count { count ≤ MAX_INSTANCES }
    requires streams { HaveStreams log.now }
    ensures matched { IfOk result (λ built. built.matched.items ≡ matched log.now) }
    ensures fates { IfOk result (λ built. built.fates.items ≡ fates (matched log.now)) }
    ensures given { IfOk result (λ built. built.given.items ≡ begun (kept log.now)) }
    ensures lines { IfOk result (λ built. built.lines.items ≡ host_lines count log.now) }
{
    let matched = matched(alloc, log)?;
    let sifted = sift(alloc, &matched)?;
    let given = begun_sends(alloc, &sifted.staying)?;
    let behind_sends = behind_of(alloc, log.len(), &given)?;
    let hosts = hosts_by_name(alloc, count, log)?;
    let lines = lines_of(alloc, &hosts, &sifted.staying, &given, &behind_sends)?;
    Ok(HostLines {
        matched,
        fates: sifted.fates,
        given,
        lines,
    })
}
