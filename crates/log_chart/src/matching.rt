//! Which receive takes which send.
ghost use Rattle.std.specs.Prelude.{◌≡◌, ◌<◌, ◌≤◌, ℕ, List, length, All, IfOk};
ghost use Rattle.log_chart.specs.Chains.{AreChains, first_of};
ghost use Rattle.log_chart.specs.Entries.{is_send, takes, HaveStreams};
ghost use Rattle.log_chart.specs.Matching.{sends_from, send_for, left_after, matched};

use crate::chains::Chains;
use crate::entry::{Entry, Kind};
use std::alloc::{AllocError, Global};

/// A line of a log with the send that it takes.
#[derive(Clone, Copy, Debug)]
pub struct LogLine {
    /// Its number among the lines of the log, from 0.
    pub number: usize,
    pub entry: Entry,
    /// The number of the line whose message it receives, if it takes a send.
    pub send: Option<usize>,
}

/// Whether a line is a send. Otherwise it is a receive.
pub fn is_send(kind: Kind) -> bool
    ensures { result ≡ is_send kind }
{
    match kind {
        Kind::Send => true,
        Kind::Receive | Kind::Freed => false,
    }
}

/// Whether it takes a send of the log.
pub(crate) fn takes(kind: Kind) -> bool
    ensures { result ≡ takes kind }
{
    match kind {
        Kind::Receive => true,
        Kind::Send | Kind::Freed => false,
    }
}

/// The sends of each stream. It fails only if there is no memory.
pub(crate) fn sends_of(alloc: Global, log: &[Entry]) -> Result<Chains, AllocError>
    requires { HaveStreams log.now }
    ensures lists { IfOk result (λ chains. length chains.first.items ≡ length log.now) }
    ensures sends { IfOk result (λ chains. AreChains chains.first.items chains.next.items (sends_from 0 log.now)) }
{
    let mut sends = Chains::new(alloc, log.len())?;
    let mut count = log.len();
    'entries: while count > 0 {
        count -= 1;
        let entry = &log[count];
        if is_send(entry.kind) {
            sends.put_first(entry.stream, count);
        }
    }
    Ok(sends)
}

/// The send that a line takes, of those that remain.
pub(crate) fn send_for(left: &mut Chains, entry: &Entry) -> Option<usize>
    requires { entry.now.stream < length left.old.first.items }
    ensures lists { length left.new.first.items ≡ length left.old.first.items }
    ensures value { (lists : ℕ → List ℕ) → AreChains left.old.first.items left.old.next.items lists
        → result ≡ send_for lists entry.now }
    ensures left { (lists : ℕ → List ℕ) → AreChains left.old.first.items left.old.next.items lists
        → AreChains left.new.first.items left.new.next.items (left_after lists entry.now) }
{
    if takes(entry.kind) {
        left.take_first(entry.stream)
    } else {
        None
    }
}

/// The lines of a log, each receive with its send. Along a lane a receive takes the first send with its id or, without
/// an id, with its name that no receive above it took. It fails only if there is no memory.
pub(crate) fn matched(alloc: Global, log: &[Entry]) -> Result<Vec<LogLine>, AllocError>
    requires { HaveStreams log.now }
    ensures { IfOk result (λ lines. lines.items ≡ matched log.now) }
{
    let mut left = sends_of(alloc, log)?;
    let mut lines = Vec::new(alloc);
    for (number, entry) in log.iter().enumerate() {
        let send = send_for(&mut left, entry);
        lines.push(LogLine {
            number,
            entry: *entry,
            send,
        })?;
    }
    Ok(lines)
}
