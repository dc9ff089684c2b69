//! The values of `--hosts` and of `--peer`.
ghost use Rattle.std.specs.Prelude.{◌≡◌, map, option_map, IfOk};
ghost use Rattle.std.specs.List.{list_any};
ghost use Rattle.log_lines.specs.Names.Hosts.{peer_view};
ghost use Rattle.mscview_requests.specs.Words.Hosts.{is_empty, AreHosts, AreFirst, IsPeer, peer_word_view};
ghost use Rattle.mscview_requests.specs.Words.Words.{AreRead, Reads};

use crate::words::parts::{comma_parts, round_equals};
use cmd_base::ProgramError;
use log_lines::names::Peer;
use std::alloc::{AllocError, AllocFailed, Global};

/// The value of `--peer`: a host, and other names that the log has for it.
#[derive(Drop)]
pub struct PeerWord<'a> {
    pub name: &'a [u8],
    pub words: Vec<&'a [u8]>,
}

fn is_empty(word: &[u8]) -> bool
    ensures { result ≡ is_empty word.now }
{
    word.is_empty()
}

/// Whether one of these words is empty.
fn has_empty(words: &[&[u8]]) -> bool
    ensures { result ≡ list_any is_empty (map (λ w. w.now) words.now) }
{
    for word in words {
        if is_empty(*word) {
            return true;
        }
    }
    false
}

/// The parts of a word, which commas join. G1: a part is empty.
fn words_by<'a>(alloc: Global, word: &'a [u8]) -> Result<Vec<&'a [u8]>, ProgramError>
    ensures { Reads result (λ words. map (λ w. w.now) words.items) (AreHosts word.now) }
{
    let words = match comma_parts(alloc, word) {
        Ok(words) => words,
        Err(AllocError) => return Err(ProgramError::Memory),
    };
    if has_empty(words.as_slice()) {
        return Err(ProgramError::Usage);
    }
    Ok(words)
}

/// The hosts that come first, or none without a word. G1: a host's name is empty.
pub fn hosts_by<'a>(alloc: Global, word: Option<&'a str>) -> Result<Vec<&'a [u8]>, ProgramError>
    ensures { Reads result (λ hosts. map (λ w. w.now) hosts.items) (AreFirst (option_map (λ w. w.now) word.entry)) }
{
    match word {
        None => Ok(Vec::new(alloc)),
        Some(word) => words_by(alloc, word.as_bytes()),
    }
}

/// A host with its other names, by a word. G1: the word isn't `NAME=NAME,NAME..`.
fn peer_by<'a>(alloc: Global, word: &'a [u8]) -> Result<PeerWord<'a>, ProgramError>
    ensures { Reads result peer_word_view (IsPeer word.now) }
{
    let Some((name, words)) = round_equals(word) else {
        return Err(ProgramError::Usage);
    };
    if is_empty(name) {
        return Err(ProgramError::Usage);
    }
    Ok(PeerWord {
        name,
        words: words_by(alloc, words)?,
    })
}

/// The values of all `--peer` options. G1: one of them isn't `NAME=NAME,NAME..`.
pub fn peer_words<'a>(alloc: Global, words: &[&'a str]) -> Result<Vec<PeerWord<'a>>, ProgramError>
    ensures { Reads result (λ peers. map peer_word_view peers.items) (AreRead IsPeer (map (λ w. w.now) words.now)) }
{
    let mut peers = Vec::new(alloc);
    for word in words {
        let peer = peer_by(alloc, word.as_bytes())?;
        match peers.push(peer) {
            Ok(()) => {}
            Err(AllocFailed { .. }) => return Err(ProgramError::Memory),
        }
    }
    Ok(peers)
}

/// A host with its other names, as the option of an import.
fn peer_of<'a>(word: &'a PeerWord<'_>) -> Peer<'a>
    ensures { peer_view result ≡ peer_word_view word.now }
{
    Peer {
        name: word.name,
        words: word.words.as_slice(),
    }
}

/// The hosts with their other names, as the options of an import.
pub fn peers_of<'a>(alloc: Global, words: &'a [PeerWord<'_>]) -> Result<Vec<Peer<'a>>, AllocError>
    ensures { IfOk result (λ peers. map peer_view peers.items ≡ map peer_word_view words.now) }
{
    words.iter().map(|word| peer_of(word)).collect(alloc)
}
