//! The events of each host.
ghost use Rattle.std.specs.Prelude.{◌≡◌, ◌<◌, ◌++◌, ℕ, List, length, map, IfOk, OnOk};
ghost use Rattle.log_chart.specs.Begun.{behind as behind_numbers, heads, heads_to};
ghost use Rattle.log_chart.specs.BegunTables.{AreGiven, HoldsRising, AreNumberedBelow};
ghost use Rattle.log_chart.specs.Chains.{AreChains};
ghost use Rattle.log_chart.specs.Items.{invented, items_by, heads_in, items_of};

use crate::begun::Begun;
use crate::chains::Chains;
use crate::item::{Item, invented, item_of};
use crate::matching::{LogLine, is_send};
use crate::name_order::HostName;
use chart::InstanceNo;
use std::alloc::{AllocError, Global};

/// The receives whose invented sends directly follow another send, by the number of the other send's line.
pub(crate) fn behind_of(alloc: Global, count: usize, given: &[Begun]) -> Result<Chains, AllocError>
    requires { AreGiven count given.now }
    ensures chains { IfOk result (λ chains. AreChains chains.first.items chains.next.items (behind_numbers given.now)) }
    ensures rising { IfOk result HoldsRising }
    ensures lists { IfOk result (λ chains. length chains.first.items ≡ count) }
{
    let mut chains = Chains::new(alloc, count)?;
    let mut left = given.len();
    'given: while left > 0 {
        left -= 1;
        let begun = given[left];
        if let Some(send) = begun.behind {
            chains.put_first(send, begun.receive);
        }
    }
    Ok(chains)
}

/// The invented sends at the head of a host's line. It fails only if there is no memory.
fn heads(alloc: Global, given: &[Begun], host: InstanceNo) -> Result<Vec<Begun>, AllocError>
    ensures { IfOk result (λ found. found.items ≡ heads given.now host) }
{
    given
        .iter()
        .copied()
        .filter(|begun| begun.behind.is_none() && begun.sender == host)
        .collect(alloc)
}

/// Adds those of them to one receiver.
fn push_heads_to(
    items: &mut Vec<Item>,
    heads: &[Begun],
    receiver: InstanceNo,
) -> Result<(), AllocError>
    ensures { OnOk result (items.new.items ≡ items.old.items ++ map (invented receiver) (heads_to heads.now receiver)) }
{
    for begun in heads {
        if begun.receiver == receiver {
            items.push(invented(receiver, begun.receive))?;
        }
    }
    Ok(())
}

/// Adds those of them to these hosts, one host after another.
fn push_heads(items: &mut Vec<Item>, heads: &[Begun], hosts: &[HostName]) -> Result<(), AllocError>
    ensures { OnOk result (items.new.items ≡ items.old.items ++ heads_in heads.now hosts.now) }
{
    for receiver in hosts {
        push_heads_to(items, heads, receiver.host)?;
    }
    Ok(())
}

/// Adds the invented sends that directly follow the send of a line.
fn push_behind(items: &mut Vec<Item>, behind: &Chains, line: &LogLine) -> Result<(), AllocError>
    requires rising { HoldsRising behind.now }
    requires within { line.now.number < length behind.now.first.items }
    ensures { (lists : ℕ → List ℕ) → AreChains behind.now.first.items behind.now.next.items lists
        → OnOk result (items.new.items ≡ items.old.items ++ map (invented line.now.entry.peer) (lists line.now.number)) }
{
    let mut next = behind.first_of(line.number);
    'numbers: while let Some(number) = next {
        items.push(invented(line.entry.peer, number))?;
        next = behind.next_of(number);
    }
    Ok(())
}

/// Adds what a line of the log gives to a host's line.
fn push_items(
    items: &mut Vec<Item>,
    behind: &Chains,
    line: &LogLine,
    host: InstanceNo,
) -> Result<(), AllocError>
    requires rising { HoldsRising behind.now }
    requires within { line.now.number < length behind.now.first.items }
    ensures { (given : List Begun) → AreChains behind.now.first.items behind.now.next.items (behind_numbers given)
        → OnOk result (items.new.items ≡ items.old.items ++ items_by given host line.now) }
{
    if line.entry.host != host {
        return Ok(());
    }
    items.push(item_of(line))?;
    if is_send(line.entry.kind) {
        push_behind(items, behind, line)?;
    }
    Ok(())
}

/// The events of a host: those of its lines that stay, and the invented sends. `hosts` has all hosts in the order of
/// their names. It fails only if there is no memory.
pub(crate) fn items_of(
    alloc: Global,
    hosts: &[HostName],
    lines: &[LogLine],
    given: &[Begun],
    behind: &Chains,
    host: InstanceNo,
) -> Result<Vec<Item>, AllocError>
    requires behind { AreChains behind.now.first.items behind.now.next.items (behind_numbers given.now) }
    requires rising { HoldsRising behind.now }
    requires within { AreNumberedBelow (length behind.now.first.items) lines.now }
    ensures { IfOk result (λ items. items.items ≡ items_of hosts.now lines.now given.now host) }
{
    let mut items = Vec::new(alloc);
    push_heads(&mut items, &heads(alloc, given, host)?, hosts)?;
    for line in lines {
        push_items(&mut items, behind, line, host)?;
    }
    Ok(items)
}
