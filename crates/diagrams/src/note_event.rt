//! Events that notes state.
ghost use Rattle.std.specs.Prelude.{◌≡◌, ◌<◌, ◌==◌, length, position, IfSome};
ghost use Rattle.diagrams.specs.NoteEvents.{Finds, EventWordsView, cut, direction, words_in, partner_in, note_event};
ghost use Rattle.diagrams.specs.Naming.{message_word};

use chart::{InstanceNo, Name, Names};

/// A send or a receive of a note's participant.
#[derive(Clone, Copy, Debug)]
pub(crate) struct NoteEvent {
    pub sends: bool,
    /// The instance at the other end.
    pub partner: InstanceNo,
    /// The name of the message.
    pub name: Name,
}

/// The words of a send or a receive.
#[derive(Clone, Copy)]
struct EventWords<'a> {
    sends: bool,
    message: &'a [u8],
    partner: &'a [u8],
}

/// The place of the first blank.
fn blank_in(text: &[u8]) -> Option<usize>
    ensures value { result ≡ position (λ b. b == 32) text.now }
    ensures within { IfSome result (λ place. place < length text.now) }
{
    text.iter().position(|byte| *byte == b' ')
}

/// The bytes before the first blank, and those after it.
#[tactic(auto, unfolding(crate::specs::NoteEvents::cut))]
fn cut(text: &[u8]) -> Option<(&[u8], &[u8])>
    ensures { Finds (λ parts. (parts.0.now, parts.1.now)) result (cut text.now) }
{
    match blank_in(text) {
        None => None,
        Some(place) => Some((&text[..place], &text[place + 1..])),
    }
}

/// Whether the words mean a send, if they mean an event.
#[tactic(auto, unfolding(crate::specs::NoteEvents::direction))]
fn direction(word: &[u8], preposition: &[u8]) -> Option<bool>
    ensures { result ≡ direction word.now preposition.now }
{
    if word == b"out".as_slice() && preposition == b"to".as_slice() {
        Some(true)
    } else if word == b"in".as_slice() && preposition == b"from".as_slice() {
        Some(false)
    } else {
        None
    }
}

/// The words of an event, if the text has the form of our own exports.
#[tactic(auto, unfolding(crate::specs::NoteEvents::words_in))]
fn words_in(text: &[u8]) -> Option<EventWords<'_>>
    ensures { Finds (λ words. record { sends = words.sends; message = words.message.now; partner = words.partner.now })
        result (words_in text.now) }
{
    let (word, rest) = cut(text)?;
    let (message, rest) = cut(rest)?;
    let (preposition, partner) = cut(rest)?;
    let sends = direction(word, preposition)?;
    Some(EventWords {
        sends,
        message,
        partner,
    })
}

/// The instance with this name, if the bytes are a name.
#[tactic(auto, unfolding(crate::specs::NoteEvents::partner_in))]
fn partner_in(names: &Names, word: &[u8]) -> Option<InstanceNo>
    ensures { result ≡ partner_in names.now word.now }
{
    match Name::new(word) {
        Ok(name) => names.instance(name),
        Err(_) => None,
    }
}

/// The event that a note at an instance states, if it states one with another instance.
#[tactic(auto, unfolding(crate::specs::NoteEvents::note_event))]
pub(crate) fn note_event(names: &Names, own: InstanceNo, text: &[u8]) -> Option<NoteEvent>
    ensures { result ≡ note_event names.now own text.now }
{
    let words = words_in(text)?;
    let Ok(name) = Name::new(words.message) else {
        return None;
    };
    let partner = partner_in(names, words.partner)?;
    if partner == own {
        return None;
    }
    Some(NoteEvent {
        sends: words.sends,
        partner,
        name,
    })
}

/// The word for the message in a note that states an event, or no bytes.
pub(crate) fn message_word(text: &[u8]) -> &[u8]
    ensures { result.now ≡ message_word (words_in text.now) }
{
    match words_in(text) {
        Some(words) => words.message,
        None => &[],
    }
}
