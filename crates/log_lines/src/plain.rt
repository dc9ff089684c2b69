//! Lines of an application's log: `HOST DIR [to or from] PEER NAME [ID] [REST]`.
ghost use Rattle.std.specs.Prelude.{◌≡◌, map, option_map};
ghost use Rattle.log_lines.specs.Events.{line_view};
ghost use Rattle.log_lines.specs.Plain.{is_send_word, is_receive_word, is_preposition, direction_of, behind_preposition, begins_rest, id_in, event_of, directed, line_by};

use crate::event::{Act, Event, LineSays};
use texts::begins_with;
use texts::bytes::is_spelled;

/// The meaning of a line's second word.
#[derive(Clone, Copy, Debug, PartialEq, Eq)]
pub enum Direction {
    Sends,
    Receives,
    /// A message arrived. Another line reports its receive.
    Arrives,
    Unknown,
}

/// Whether the word stands for sending.
fn is_send_word(word: &[u8]) -> bool
    ensures { result ≡ is_send_word word.now }
{
    is_spelled(b"send", word)
        || is_spelled(b"sent", word)
        || is_spelled(b"tx", word)
        || is_spelled(b"out", word)
        || is_spelled(b"->", word)
        || is_spelled(b">", word)
}

/// Whether the word stands for receiving.
fn is_receive_word(word: &[u8]) -> bool
    ensures { result ≡ is_receive_word word.now }
{
    is_spelled(b"recv", word)
        || is_spelled(b"receive", word)
        || is_spelled(b"received", word)
        || is_spelled(b"rx", word)
        || is_spelled(b"in", word)
        || is_spelled(b"<-", word)
        || is_spelled(b"<", word)
}

/// Whether the word is a preposition, which may come before the peer.
fn is_preposition(word: &[u8]) -> bool
    ensures { result ≡ is_preposition word.now }
{
    is_spelled(b"to", word) || is_spelled(b"from", word)
}

/// The meaning of the word, which is case-insensitive.
#[tactic(auto, unfolding(crate::specs::Plain::direction_of))]
pub fn direction_of(word: &[u8]) -> Direction
    ensures { result ≡ direction_of word.now }
{
    if is_send_word(word) {
        Direction::Sends
    } else if is_receive_word(word) {
        Direction::Receives
    } else if is_spelled(b"arrive", word) {
        Direction::Arrives
    } else {
        Direction::Unknown
    }
}

/// The words from the peer on. A preposition before the peer is dropped if at least two words follow it.
pub fn behind_preposition<'w, 'a>(words: &'w [&'a [u8]]) -> &'w [&'a [u8]]
    ensures { map (λ w. w.now) result.now ≡ behind_preposition (map (λ w. w.now) words.now) }
{
    match words {
        [word, peer, name, others @ ..] => {
            if is_preposition(*word) {
                &words[1..]
            } else {
                words
            }
        }
        _ => words,
    }
}

/// Whether the word begins the rest of a line, which is ignored.
pub fn begins_rest(word: &[u8]) -> bool
    ensures { result ≡ begins_rest word.now }
{
    begins_with(word, b"takes=")
}

/// The id of a message, in the words after its name.
pub fn id_in<'a>(words: &[&'a [u8]]) -> Option<&'a [u8]>
    ensures { option_map (λ w. w.now) result ≡ id_in (map (λ w. w.now) words.now) }
{
    match words {
        [word, ..] => {
            if begins_rest(*word) {
                None
            } else {
                Some(*word)
            }
        }
        [] => None,
    }
}

/// The meaning of a line on which a host did this with a message. `words` begin with the peer and the message's name.
fn event_of<'a>(host: &'a [u8], act: Act, words: &[&'a [u8]]) -> LineSays<'a>
    ensures { line_view result ≡ event_of host.now act (map (λ w. w.now) words.now) }
{
    match words {
        [peer, name, others @ ..] => LineSays::Event(Event {
            host,
            act,
            peer: *peer,
            name: *name,
            id: id_in(others),
        }),
        _ => LineSays::Other,
    }
}

/// The meaning of a line, by its host, its direction and the words from the peer on.
fn directed<'a>(host: &'a [u8], direction: Direction, words: &[&'a [u8]]) -> LineSays<'a>
    ensures { line_view result ≡ directed host.now direction (map (λ w. w.now) words.now) }
{
    match direction {
        Direction::Sends => event_of(host, Act::Send, words),
        Direction::Receives => event_of(host, Act::Receive, words),
        Direction::Arrives => LineSays::Nothing,
        Direction::Unknown => LineSays::Other,
    }
}

/// The meaning of a line with these words.
#[tactic(auto, unfolding(crate::specs::Plain::line_by))]
pub(crate) fn line_by<'a>(words: &[&'a [u8]]) -> LineSays<'a>
    ensures { line_view result ≡ line_by (map (λ w. w.now) words.now) }
{
    match words {
        [] => LineSays::Nothing,
        [host, word, others @ ..] => {
            directed(*host, direction_of(*word), behind_preposition(others))
        }
        _ => LineSays::Other,
    }
}
