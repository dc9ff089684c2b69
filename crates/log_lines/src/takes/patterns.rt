//! The patterns that a receive would have taken, by the words of its line.
ghost use Rattle.std.specs.Prelude.{◌≡◌, ◌<◌, length, map, option_map};
ghost use Rattle.log_lines.specs.Names.Hosts.{peer_view};
ghost use Rattle.race_verdicts.specs.Recordings.{pattern_view};
ghost use Rattle.log_lines.specs.Takes.Patterns.{sender_of, parted, pattern_in, pattern_of, is_misspelled, short_pattern};

use crate::begins_rest;
use crate::names::{Peer, host_of};
use race_verdicts::Pattern;
use texts::first_place;

/// The sender that a word stands for.
fn sender_of<'a>(peers: &[Peer<'a>], word: &'a [u8]) -> &'a [u8]
    ensures { result.now ≡ sender_of (map peer_view peers.now) word.now }
{
    if word == b"*".as_slice() {
        word
    } else {
        host_of(peers, word)
    }
}

/// PEER and NAMES, which the colon at this index separates. Neither may be empty.
fn parted<'a>(peers: &[Peer<'a>], text: &'a [u8], colon: usize) -> Option<Pattern<'a>>
    requires { colon < length text.now }
    ensures { option_map pattern_view result ≡ parted (map peer_view peers.now) text.now colon }
{
    if colon == 0 || text.len() == colon + 1 {
        return None;
    }
    Some(Pattern {
        peer: sender_of(peers, &text[..colon]),
        names: &text[colon + 1..],
    })
}

/// The pattern in PEER:NAMES. A misspelled text has no pattern.
fn pattern_in<'a>(peers: &[Peer<'a>], text: &'a [u8]) -> Option<Pattern<'a>>
    ensures { option_map pattern_view result ≡ pattern_in (map peer_view peers.now) text.now }
{
    let colon = first_place(b':', text)?;
    parted(peers, text, colon)
}

/// The pattern in a word `takes=PEER:NAMES`. A misspelled word has no pattern.
#[tactic(auto, unfolding(crate::specs::Takes::Patterns::pattern_of))]
pub(crate) fn pattern_of<'a>(peers: &[Peer<'a>], word: &'a [u8]) -> Option<Pattern<'a>>
    ensures { option_map pattern_view result ≡ pattern_of (map peer_view peers.now) word.now }
{
    if begins_rest(word) {
        pattern_in(peers, &word[6..])
    } else {
        None
    }
}

/// Whether a word begins with `takes=`, but is misspelled.
#[tactic(auto, unfolding(crate::specs::Takes::Patterns::is_misspelled))]
pub(crate) fn is_misspelled(word: &[u8]) -> bool
    ensures { result ≡ is_misspelled word.now }
{
    if !begins_rest(word) {
        return false;
    }
    match pattern_of(&[], word) {
        Some(_) => false,
        None => true,
    }
}

/// The pattern in a word PEER:NAMES, which may begin with `takes=`.
#[tactic(auto, unfolding(crate::specs::Takes::Patterns::short_pattern))]
pub(crate) fn short_pattern<'a>(peers: &[Peer<'a>], word: &'a [u8]) -> Option<Pattern<'a>>
    ensures { option_map pattern_view result ≡ short_pattern (map peer_view peers.now) word.now }
{
    if begins_rest(word) {
        pattern_in(peers, &word[6..])
    } else {
        pattern_in(peers, word)
    }
}
