//! The first receive of a log that comes before itself.
ghost use Rattle.std.specs.Prelude.{ℕ, ◌≡◌, ◌<◌, ◌≤◌, ◌==◌, ◌&&◌, [], length, true, false, is_some, slice_index_or, IfOk, MatchOption};
ghost use Rattle.chart.specs.declared.instance.TheConstants.{MAX_INSTANCES};
ghost use Rattle.log_chart.specs.Cycles.Choosing.{is_ahead, IsFound, IsAheadToo, HasPassed};
ghost use Rattle.log_chart.specs.Cycles.Freeing.{IsOnCycle, is_sooner, IsFirst, HasNone};
ghost use Rattle.log_chart.specs.Cycles.Searching.{IsClosed, AreBefore};
ghost use Rattle.log_chart.specs.Cycles.Sources.{AreLines, HaveHosts, IsDirect, AreSources};

use crate::LogLine;
use crate::cycles::past::Past;
use crate::cycles::sources::{Sources, sources_of};
use chart::InstanceNo;
use std::alloc::{AllocError, Global};

/// Whether a line comes sooner than another one: its host has the lesser name, byte by byte, or they are of one host
/// and it is above.
fn is_sooner(line: &LogLine, other: &LogLine) -> bool
    ensures { result ≡ is_sooner line.now other.now }
{
    let names = line
        .entry
        .host_name
        .as_bytes()
        .cmp(other.entry.host_name.as_bytes());
    names.then(line.number.cmp(&other.number)).is_lt()
}

/// Whether a line comes sooner than the line that was found, if one was found.
fn is_ahead(line: &LogLine, found: &Option<LogLine>) -> bool
    ensures { result ≡ is_ahead line.now found.now }
{
    match found {
        None => true,
        Some(other) => is_sooner(line, other),
    }
}

/// Whether a line is the host's, and comes sooner than the line that was found.
fn is_own(line: &LogLine, host: InstanceNo, found: &Option<LogLine>) -> bool
    ensures { result ≡ (line.now.entry.host == host && is_ahead line.now found.now) }
{
    line.entry.host == host && is_ahead(line, found)
}

/// Whether a line takes a send and comes before itself. `past` has what comes before the line.
fn is_on_cycle(line: &LogLine, past: &Past) -> bool
    ensures { result ≡ (is_some line.now.send && slice_index_or past.now.seen.items line.now.number false) }
{
    line.send.is_some() && past.has(line.number)
}

/// The soonest line so far, after one more line.
fn soonest_with(
    past: &mut Past,
    sources: &Sources,
    line: &LogLine,
    host: InstanceNo,
    soonest: Option<LogLine>,
) -> Result<Option<LogLine>, AllocError>
    requires within { (a b : ℕ) → IsDirect sources.now.above.items sources.now.sends.items a b
        → a < length past.old.seen.items }
    requires stack { past.old.stack.items ≡ [] }
    requires closed { IsClosed sources.now.above.items sources.now.sends.items past.old.seen.items }
    requires before { line.now.entry.host ≡ host
        → AreBefore sources.now.above.items sources.now.sends.items past.old.seen.items line.now.number }
    ensures { IfOk result (λ next. HasPassed sources.now.above.items sources.now.sends.items line.now host soonest
        past.old.seen.items past.old.stack.items past.new.seen.items past.new.stack.items next) }
{
    if !is_own(line, host, &soonest) {
        return Ok(soonest);
    }
    past.pass(sources, line.number)?;
    if is_on_cycle(line, past) {
        Ok(Some(*line))
    } else {
        Ok(soonest)
    }
}

/// The soonest line of `found` and of those lines of a host that take a logged send and come before themselves. The log
/// has `count` lines. It fails only if there is no memory.
fn soonest_of_host(
    alloc: Global,
    count: usize,
    sources: &Sources,
    lines: &[LogLine],
    host: InstanceNo,
    found: Option<LogLine>,
) -> Result<Option<LogLine>, AllocError>
    requires lines { AreLines count lines.now }
    requires sources { AreSources lines.now count sources.now.above.items sources.now.sends.items }
    requires found { IsFound lines.now found }
    ensures found { IfOk result (IsFound lines.now) }
    ensures ahead { IfOk result (λ soonest. IsAheadToo soonest found) }
    ensures soonest { IfOk result (λ soonest. (j : ℕ) (on : IsOnCycle lines.now j) → on.line.entry.host ≡ host
        → is_ahead on.line soonest ≡ true → ⊥) }
{
    let mut past = Past::nothing(alloc, count)?;
    let mut soonest = found;
    for line in lines {
        soonest = soonest_with(&mut past, sources, line, host, soonest)?;
    }
    Ok(soonest)
}

/// The line that is freed, of those that take a logged send and come before themselves. It is one of the host with the
/// least name, and of this host the first. The log has `count` lines and `hosts` hosts. It fails only if there is no
/// memory.
pub(crate) fn first_on_cycle(
    alloc: Global,
    count: usize,
    hosts: usize,
    lines: &[LogLine],
) -> Result<Option<usize>, AllocError>
    requires hosts { hosts ≤ MAX_INSTANCES }
    requires lines { AreLines count lines.now }
    requires among { HaveHosts hosts lines.now }
    ensures { IfOk result (λ found. MatchOption found (HasNone lines.now) (IsFirst lines.now)) }
{
    let sources = sources_of(alloc, count, lines)?;
    let mut found = None;
    for place in 0..hosts {
        let host = InstanceNo::at_place(place);
        found = soonest_of_host(alloc, count, &sources, lines, host, found)?;
    }
    match found {
        None => Ok(None),
        Some(line) => Ok(Some(line.number)),
    }
}
