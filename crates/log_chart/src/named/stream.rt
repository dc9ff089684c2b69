//! What a send and its receive have in common.
ghost use Rattle.std.specs.Prelude.{◌≡◌, ℕ, List, IfOk, OnOk};
ghost use Rattle.std.specs.List.{position_or_len};
ghost use Rattle.log_chart.specs.Named.Entering.{place_in, with_word, same_stream, with_stream, number_in, names_with, stream_of};

use crate::named::host_event::HostEvent;
use chart::{InstanceNo, Name};
use indexmap::IndexSet;
use std::alloc::AllocError;

/// The messages of one lane with one id, or without an id and with one name.
#[derive(Clone, Copy, Debug, PartialEq, Eq, Hash)]
pub(crate) struct Stream {
    pub sender: InstanceNo,
    pub receiver: InstanceNo,
    /// Whether `number` is that of an id. Otherwise it is that of a name.
    pub has_id: bool,
    pub number: usize,
}

/// The number of a stream. A new stream is added. It fails only if there is no memory.
pub(crate) fn number_of(streams: &mut IndexSet<Stream>, stream: Stream) -> Result<usize, AllocError>
    ensures number { IfOk result (λ number. number ≡ position_or_len (same_stream stream) streams.old.keys) }
    ensures kept { OnOk result (streams.new.keys ≡ with_stream streams.old.keys stream) }
{
    let (number, _) = streams.insert_full(stream)?;
    Ok(number)
}

/// The place of a name among the names of messages, from 0. A new name is added. It fails only if there is no memory.
fn place_of(names: &mut IndexSet<Name>, name: Name) -> Result<usize, AllocError>
    ensures place { IfOk result (λ place. place ≡ place_in names.old.keys name) }
    ensures kept { OnOk result (names.new.keys ≡ with_word names.old.keys name) }
{
    let (place, _) = names.insert_full(name)?;
    Ok(place)
}

/// The number of a message's id or, without an id, the place of its name. It fails only if there is no memory.
pub(crate) fn number_in(
    names: &mut IndexSet<Name>,
    id: Option<usize>,
    name: Name,
) -> Result<usize, AllocError>
    ensures number { IfOk result (λ number. number ≡ number_in names.old.keys id name) }
    ensures kept { OnOk result (names.new.keys ≡ names_with names.old.keys id name) }
{
    match id {
        Some(number) => Ok(number),
        None => place_of(names, name),
    }
}

/// The stream of a line between these two instances, with this number.
pub(crate) fn stream_between(
    host: InstanceNo,
    peer: InstanceNo,
    event: &HostEvent,
    number: usize,
) -> Stream
    ensures { (names : List (List ℕ)) → number ≡ number_in names event.now.id event.now.name
        → result ≡ stream_of names host peer event.now }
{
    if event.sends {
        Stream {
            sender: host,
            receiver: peer,
            has_id: event.id.is_some(),
            number,
        }
    } else {
        Stream {
            sender: peer,
            receiver: host,
            has_id: event.id.is_some(),
            number,
        }
    }
}
