//! Hosts with one stream on each lane to them.
ghost use Rattle.std.specs.Prelude.{◌≡◌, IfOk, All, slice_index_or, None, Some};
ghost use Rattle.std.specs.Bool.{IsTrue};
ghost use Rattle.log_chart.specs.Entries.{HaveStreams};
ghost use Rattle.log_chart.specs.Cycles.Turns.{IsPlain, IsPlainLine};

use crate::Entry;
use crate::cycles::sources::{entry_of, nothing};
use crate::losing::{receiver_of, sender_of};
use chart::{InstanceNo, MAX_INSTANCES};
use std::alloc::{AllocError, Global};

/// The lanes to a host.
#[derive(Drop)]
struct Lanes {
    /// The sender of each stream.
    senders: Vec<Option<usize>>,
    /// The stream of each sender.
    streams: Vec<Option<usize>>,
}

/// Whether there is a number, and it is this one.
fn is_number(entry: Option<usize>, number: usize) -> bool
    ensures { IsTrue result → entry ≡ Some number }
{
    match entry {
        None => false,
        Some(other) => other == number,
    }
}

impl Lanes {
    /// A lane's last line tells its stream. It fails only if there is no memory.
    fn to(alloc: Global, log: &[Entry], host: InstanceNo) -> Result<Lanes, AllocError>
        requires { HaveStreams log.now }
    {
        let mut senders = nothing(alloc, log.len())?;
        let mut streams = nothing(alloc, MAX_INSTANCES + 1)?;
        for entry in log {
            if receiver_of(entry) == host {
                let sender = sender_of(entry).number();
                senders[entry.stream] = Some(sender);
                streams[sender] = Some(entry.stream);
            }
        }
        Ok(Lanes { senders, streams })
    }

    /// Whether a line has the stream of its lane, and the name of its host.
    fn have(&self, first: &Entry, entry: &Entry) -> bool
        ensures { IsTrue result → IsPlainLine (λ c. slice_index_or self.now.senders.items c None)
            (λ q. slice_index_or self.now.streams.items q None) first.now entry.now }
    {
        let is_named = entry.host_name.as_bytes() == first.host_name.as_bytes();
        if is_named != (entry.host == first.host) {
            return false;
        }
        let sender = entry_of(&self.senders, entry.stream);
        if receiver_of(entry) == first.host {
            let number = sender_of(entry).number();
            is_number(sender, number) && is_number(entry_of(&self.streams, number), entry.stream)
        } else {
            sender.is_none()
        }
    }

    /// Whether each line has the stream of its lane, and the name of its host.
    fn have_all(&self, first: &Entry, log: &[Entry]) -> bool
        ensures { IsTrue result → All (IsPlainLine (λ c. slice_index_or self.now.senders.items c None)
            (λ q. slice_index_or self.now.streams.items q None) first.now) log.now }
    {
        log.iter().all(|entry| self.have(first, entry))
    }
}

/// Whether each lane to a line's host has one stream, which no other lane has, and the host has a name of its own. It
/// fails only if there is no memory.
pub(crate) fn is_plain(alloc: Global, log: &[Entry], first: &Entry) -> Result<bool, AllocError>
    requires { HaveStreams log.now }
    ensures { IfOk result (λ plain. IsTrue plain → IsPlain first.now log.now) }
{
    let lanes = Lanes::to(alloc, log, first.host)?;
    Ok(lanes.have_all(first, log))
}
