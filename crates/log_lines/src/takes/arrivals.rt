//! The streams of messages that arrived.
ghost use Rattle.std.specs.Prelude.{◌≡◌, ◌++◌, ◌∷◌, [], ℕ, List, Some, map, filter_map, if◌then◌else◌, IfOk, OnOk};
ghost use Rattle.std.specs.Map.{lookup};
ghost use Rattle.log_lines.specs.Takes.Arrivals.{same_key, same_as, stream_of, arrived_key, arrival_of, arrivals_in};
ghost use Rattle.log_lines.specs.Takes.Messages.{KeyView, key_view};
ghost use Rattle.log_lines.specs.Takes.Observations.{arrived_view};
ghost use Rattle.log_lines.specs.declared.takes.key.Key.{Key};

use crate::takes::key::Key;
use crate::takes::messages::key_of;
use crate::takes::observations::Arrived;
use indexmap::IndexMap;
use log_chart::Entry;
use race_verdicts::Arrival;
use std::alloc::{AllocError, Global};

/// Stores this stream for the key.
fn put<'a>(
    streams: &mut IndexMap<Key<'a>, usize>,
    key: Key<'a>,
    stream: usize,
) -> Result<(), AllocError>
    ensures { OnOk result ((q : Key) → lookup (same_as q) streams.new.entries
        ≡ (if same_key (key_view key.entry) (key_view q) then Some stream else lookup (same_as q) streams.old.entries)) }
{
    streams.insert(key, stream)?;
    Ok(())
}

/// For each key, the stream of the first line with this key.
fn streams_of<'a>(
    alloc: Global,
    keys: &[Key<'a>],
    entries: &[Entry],
) -> Result<IndexMap<Key<'a>, usize>, AllocError>
    ensures { IfOk result (λ streams. (q : Key) → lookup (same_as q) streams.entries
        ≡ stream_of (map key_view keys.now) (map (λ e. e.stream) entries.now) (key_view q)) }
{
    let mut streams = IndexMap::new(alloc);
    let mut count = keys.len().min(entries.len());
    'lines: while count > 0 {
        count -= 1;
        put(&mut streams, keys[count], entries[count].stream)?;
    }
    Ok(streams)
}

/// The key of a message that arrived.
fn arrived_key<'a>(arrived: &Arrived<'a>) -> Key<'a>
    ensures { key_view result ≡ arrived_key (arrived_view arrived.now) }
{
    key_of(arrived.peer, arrived.host, arrived.name, arrived.id)
}

/// The stream of the key, if it has one.
fn stream_in<'a>(streams: &IndexMap<Key<'a>, usize>, key: Key<'a>) -> Option<usize>
    ensures { result ≡ lookup (same_as key.entry) streams.now.entries }
{
    streams.get(&key).copied()
}

/// The arrival of a message, if its stream is one of the lines'.
fn arrival_of<'a>(streams: &IndexMap<Key<'a>, usize>, arrived: &Arrived<'a>) -> Option<Arrival>
    ensures { (keys : List KeyView) → (numbers : List ℕ)
        → ((q : Key) → lookup (same_as q) streams.now.entries ≡ stream_of keys numbers (key_view q))
        → result ≡ arrival_of keys numbers (arrived_view arrived.now) }
{
    match stream_in(streams, arrived_key(arrived)) {
        Some(stream) => Some(Arrival {
            stream,
            at: arrived.at,
        }),
        None => None,
    }
}

/// Adds the arrival of a message, if its stream is one of the lines'.
fn add<'a>(
    streams: &IndexMap<Key<'a>, usize>,
    arrived: &Arrived<'a>,
    arrivals: &mut Vec<Arrival>,
) -> Result<(), AllocError>
    ensures { OnOk result ((keys : List KeyView) → (numbers : List ℕ)
        → ((q : Key) → lookup (same_as q) streams.now.entries ≡ stream_of keys numbers (key_view q))
        → arrivals.new.items ≡ arrivals.old.items ++ filter_map (arrival_of keys numbers) (arrived_view arrived.now ∷ [])) }
{
    match arrival_of(streams, arrived) {
        Some(arrival) => {
            arrivals.push(arrival)?;
            Ok(())
        }
        None => Ok(()),
    }
}

/// The arrivals of messages whose streams are the lines'.
#[tactic(auto, unfolding(crate::specs::Takes::Arrivals::arrivals_in))]
fn arrivals_by<'a>(
    alloc: Global,
    streams: &IndexMap<Key<'a>, usize>,
    arrived: &[Arrived<'a>],
) -> Result<Vec<Arrival>, AllocError>
    ensures { IfOk result (λ arrivals. (keys : List KeyView) → (numbers : List ℕ)
        → ((q : Key) → lookup (same_as q) streams.now.entries ≡ stream_of keys numbers (key_view q))
        → arrivals.items ≡ arrivals_in keys numbers (map arrived_view arrived.now)) }
{
    let mut arrivals = Vec::new(alloc);
    for message in arrived {
        add(streams, message, &mut arrivals)?;
    }
    Ok(arrivals)
}

/// The arrivals of messages that also have lines. `keys` and `entries` are those of the lines. It takes time in
/// proportion to the numbers of lines and of arrivals.
pub fn arrivals_in<'a>(
    alloc: Global,
    keys: &[Key<'a>],
    entries: &[Entry],
    arrived: &[Arrived<'a>],
) -> Result<Vec<Arrival>, AllocError>
    ensures { IfOk result (λ arrivals. arrivals.items
        ≡ arrivals_in (map key_view keys.now) (map (λ e. e.stream) entries.now) (map arrived_view arrived.now)) }
{
    let streams = streams_of(alloc, keys, entries)?;
    arrivals_by(alloc, &streams, arrived)
}
