//! The turns that free receives of one host.
ghost use Rattle.std.specs.Prelude.{◌≡◌, ◌<◌, ◌≤◌, ℕ, List, length, IfOk, OnOk, slice_index_or};
ghost use Rattle.log_chart.specs.Chains.{AreChains};
ghost use Rattle.log_chart.specs.Entries.{HaveStreams};
ghost use Rattle.log_chart.specs.HostLines.{kept};
ghost use Rattle.log_chart.specs.Cycles.Freeing.{IsFirst, freed, Settles, AreAmong};
ghost use Rattle.log_chart.specs.Cycles.Turns.{IsPlain, left_before, takers};
ghost use Rattle.log_chart.specs.declared.entry.Entry.{Entry as EntryView};

use crate::chains::Chains;
use crate::cycles::searches::{all_apart, is_on_cycle, no_pasts};
use crate::cycles::sources::sources_of;
use crate::matching::{send_for, sends_of};
use crate::{Entry, Kind, kept_lines};
use std::alloc::{AllocError, Global};

/// Frees a receive.
pub(crate) fn free(log: &mut [Entry], number: usize)
    requires { number < length log.old }
    ensures { log.new ≡ freed number log.old }
{
    let entry = log[number];
    log[number] = Entry {
        kind: Kind::Freed,
        ..entry
    };
}

/// The sends of each stream that no line above this one takes. It fails only if there is no memory.
fn left_before(alloc: Global, log: &[Entry], number: usize) -> Result<Chains, AllocError>
    requires streams { HaveStreams log.now }
    requires number { number ≤ length log.now }
    ensures lists { IfOk result (λ chains. length chains.first.items ≡ length log.now) }
    ensures left { IfOk result (λ chains. AreChains chains.first.items chains.next.items (left_before log.now number)) }
{
    let mut left = sends_of(alloc, log)?;
    for place in 0..number {
        send_for(&mut left, &log[place]);
    }
    Ok(left)
}

/// Frees a receive of a host to which each lane has one stream, and then those of the host's later receives that the
/// next turns free. It fails only if there is no memory.
pub(crate) fn free_along(
    alloc: Global,
    log: &mut [Entry],
    first: &Entry,
    number: usize,
) -> Result<(), AllocError>
    requires streams { HaveStreams log.old }
    requires number { number < length log.old }
    requires first { first.now ≡ slice_index_or log.old number first.now }
    requires plain { IsPlain first.now log.old }
    requires on { IsFirst (kept log.old) number }
    ensures streams { OnOk result (HaveStreams log.new) }
    ensures among { OnOk result ((hosts : ℕ) → AreAmong hosts log.old → AreAmong hosts log.new) }
    ensures fewer { OnOk result (takers log.new < takers log.old) }
    ensures turns { OnOk result ((out : List EntryView) → Settles log.new out → Settles log.old out) }
{
    let lines = kept_lines(alloc, log)?;
    let others = all_apart(alloc, &lines, first.host)?;
    let sources = sources_of(alloc, log.len(), &others)?;
    let mut pasts = no_pasts(alloc, log.len())?;
    let mut left = left_before(alloc, log, number)?;
    free(log, number);
    for place in number + 1..log.len() {
        let entry = log[place];
        if is_on_cycle(&sources, &mut pasts, &left, first.host, &entry, place)? {
            free(log, place);
        } else {
            send_for(&mut left, &entry);
        }
    }
    Ok(())
}
