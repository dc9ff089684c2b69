//! The lines of a log with messages from one host to another.
ghost use Rattle.std.specs.Prelude.{◌≡◌, map, option_map, IfOk};
ghost use Rattle.log_lines.specs.Events.{logged_event_view};
ghost use Rattle.log_lines.specs.Names.Hosts.{peer_view};
ghost use Rattle.race_verdicts.specs.Recordings.{words_view};
ghost use Rattle.log_lines.specs.Takes.Messages.{line_words, words_in, key_view, key_of, key_by, line_key, keys_in, is_between};

use crate::names::{Peer, host_of};
use crate::takes::key::Key;
use crate::{Act, LoggedEvent};
use race_verdicts::LineWords;
use std::alloc::{AllocError, Global};

/// Whether the line's message goes from one host to another.
fn is_between(peers: &[Peer<'_>], logged: &LoggedEvent<'_>) -> bool
    ensures { result ≡ is_between (map peer_view peers.now) (logged_event_view logged.now) }
{
    host_of(peers, logged.event.host) != host_of(peers, logged.event.peer)
}

/// The host, the peer and the message's name on a line. `peers` has the log's other words for hosts.
fn line_words<'a>(peers: &[Peer<'a>], logged: &LoggedEvent<'a>) -> LineWords<'a>
    ensures { words_view result ≡ line_words (map peer_view peers.now) (logged_event_view logged.now) }
{
    LineWords {
        host: host_of(peers, logged.event.host),
        peer: host_of(peers, logged.event.peer),
        name: logged.event.name,
    }
}

/// The same for each line with a message from one host to another.
#[tactic(auto, unfolding(crate::specs::Takes::Messages::words_in))]
pub fn words_in<'a>(
    alloc: Global,
    peers: &[Peer<'a>],
    logged: &[LoggedEvent<'a>],
) -> Result<Vec<LineWords<'a>>, AllocError>
    ensures { IfOk result (λ words. map words_view words.items ≡ words_in (map peer_view peers.now) (map logged_event_view logged.now)) }
{
    let mut words = Vec::new(alloc);
    for line in logged {
        if is_between(peers, line) {
            words.push(line_words(peers, line))?;
        }
    }
    Ok(words)
}

/// The key of a message with this name and id on the lane.
pub(crate) fn key_of<'a>(
    sender: &'a [u8],
    receiver: &'a [u8],
    name: &'a [u8],
    id: Option<&'a [u8]>,
) -> Key<'a>
    ensures { key_view result ≡ key_of sender.now receiver.now name.now (option_map (λ w. w.now) id.entry) }
{
    match id {
        Some(word) => Key {
            sender,
            receiver,
            has_id: true,
            word,
        },
        None => Key {
            sender,
            receiver,
            has_id: false,
            word: name,
        },
    }
}

/// The key of a line.
fn line_key<'a>(peers: &[Peer<'a>], logged: &LoggedEvent<'a>) -> Key<'a>
    ensures { key_view result ≡ line_key (map peer_view peers.now) (logged_event_view logged.now) }
{
    let host = host_of(peers, logged.event.host);
    let peer = host_of(peers, logged.event.peer);
    match logged.event.act {
        Act::Send => key_of(host, peer, logged.event.name, logged.event.id),
        Act::Receive => key_of(peer, host, logged.event.name, logged.event.id),
    }
}

/// The key of each line with a message from one host to another. `peers` has the log's other words for hosts.
#[tactic(auto, unfolding(crate::specs::Takes::Messages::keys_in))]
pub fn keys_in<'a>(
    alloc: Global,
    peers: &[Peer<'a>],
    logged: &[LoggedEvent<'a>],
) -> Result<Vec<Key<'a>>, AllocError>
    ensures { IfOk result (λ keys. map key_view keys.items ≡ keys_in (map peer_view peers.now) (map logged_event_view logged.now)) }
{
    let mut keys = Vec::new(alloc);
    for line in logged {
        if is_between(peers, line) {
            keys.push(line_key(peers, line))?;
        }
    }
    Ok(keys)
}
