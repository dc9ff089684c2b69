//! Hosts for which a log has several words.
ghost use Rattle.std.specs.Prelude.{◌≡◌, map, bytes_eq};
ghost use Rattle.std.specs.List.{list_any};
ghost use Rattle.log_lines.specs.Names.Hosts.{peer_view, host_of};

/// A host, and other words that a log has for it.
#[derive(Clone, Copy, Debug)]
pub struct Peer<'a> {
    pub name: &'a [u8],
    pub words: &'a [&'a [u8]],
}

/// Whether a host has the word.
fn has_word(words: &[&[u8]], word: &[u8]) -> bool
    ensures { result ≡ list_any (bytes_eq word.now) (map (λ w. w.now) words.now) }
{
    for known in words {
        if word == *known {
            return true;
        }
    }
    false
}

/// The host for a word of the log. It is the first host that has the word, or else the host with the word as its name.
pub fn host_of<'a>(peers: &[Peer<'a>], word: &'a [u8]) -> &'a [u8]
    ensures { result.now ≡ host_of (map peer_view peers.now) word.now }
{
    for peer in peers {
        if has_word(peer.words, word) {
            return peer.name;
        }
    }
    word
}
