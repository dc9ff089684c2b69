//! Lines of events that are read at once: their words are where those of an event are, and both names were mostly read
//! before. For any other line [`crate::reader::step`] decides what it means.
ghost use Rattle.std.specs.Prelude.{◌≡◌, ℕ, ◌<◌, IfSome};
ghost use Rattle.chart.specs.declared.keyword.Keyword.TheVariants as keywords;
ghost use Rattle.chart.specs.declared.line.TheConstants.{MAX_EVENTS};
ghost use Rattle.msc_text.specs.Reader.EventLines.{event_words, AreFound, IsEventLine};
ghost use Rattle.msc_text.specs.Reader.LastWords.{semi};
ghost use Rattle.msc_text.specs.declared.reader.state.State.TheVariants as states;

use crate::reader::state::{Region, State};
use crate::reader::step::{after_receive, inside, is_closed};
use chart::{Event, InstanceNo, MAX_EVENTS, Name, Names};
use texts::next_word;
use texts::reading::{Guesses, behind};

/// The bytes before the last one, if the last one is a semicolon.
fn before_semicolon(word: &[u8]) -> Option<&[u8]>
    ensures { IfSome result (λ name. word.now ≡ semi name.now) }
{
    match word {
        [name @ .., last] if *last == b';' => Some(name),
        _ => None,
    }
}

/// The message and the partner of `out MESSAGE to NAME;`.
fn send_words(line: &[u8]) -> Option<(&[u8], &[u8])>
    ensures { IfSome result (λ words. line.now ≡ event_words keywords.Out words.0.now keywords.To words.1.now) }
{
    let rest = behind(b"out ", line)?;
    let (message, side) = next_word(rest);
    let Some(side) = side else {
        return None;
    };
    let word = behind(b"to ", side)?;
    let partner = before_semicolon(word)?;
    Some((message, partner))
}

/// The message and the partner of `in MESSAGE from NAME;`.
fn receive_words(line: &[u8]) -> Option<(&[u8], &[u8])>
    ensures { IfSome result (λ words. line.now ≡ event_words keywords.In words.0.now keywords.From words.1.now) }
{
    let rest = behind(b"in ", line)?;
    let (message, side) = next_word(rest);
    let Some(side) = side else {
        return None;
    };
    let word = behind(b"from ", side)?;
    let partner = before_semicolon(word)?;
    Some((message, partner))
}

/// The partner and the name of the message, if both words are names and the partner is another known instance.
fn found_in(
    names: &Names,
    guesses: &mut Guesses,
    own: &Name,
    message: &[u8],
    partner: &[u8],
) -> Option<(InstanceNo, Name)>
    ensures { IfSome result (λ found. AreFound names.now own.now message.now partner.now found.0 found.1) }
{
    let Ok(Ok(instance)) = guesses.instance(names, partner) else {
        return None;
    };
    let Ok(name) = guesses.name(message) else {
        return None;
    };
    if own.as_bytes() == partner {
        return None;
    }
    Some((instance, name))
}

/// A send, which is outside of coregions.
fn send_in(
    names: &Names,
    guesses: &mut Guesses,
    own: Name,
    events: usize,
    region: Region,
    line: &[u8],
) -> Option<(Event, State)>
    requires { events < MAX_EVENTS }
    ensures { IfSome result (λ r. (open_region : ℕ)
        → IsEventLine names.now open_region (states.Inside own events region) line.now r.0 r.1) }
{
    if !is_closed(region) {
        return None;
    }
    let (message, partner) = send_words(line)?;
    let (to, name) = found_in(names, guesses, &own, message, partner)?;
    Some((
        Event::Send { to, name },
        inside(own, events + 1, Region::Closed),
    ))
}

/// A receive, which is in the open coregion.
fn receive_in(
    names: &Names,
    guesses: &mut Guesses,
    own: Name,
    events: usize,
    region: Region,
    open_region: u32,
    line: &[u8],
) -> Option<(Event, State)>
    requires { events < MAX_EVENTS }
    ensures { IfSome result (λ r. IsEventLine names.now open_region (states.Inside own events region) line.now r.0 r.1) }
{
    let (message, partner) = receive_words(line)?;
    let (from, name) = found_in(names, guesses, &own, message, partner)?;
    Some((
        Event::Receive {
            from,
            name,
            region: open_region,
        },
        inside(own, events + 1, after_receive(region)),
    ))
}

/// The event that the line describes, with the number of its partner, and the state after the line. `None` decides
/// nothing about the line.
pub(crate) fn event_in(
    names: &Names,
    guesses: &mut Guesses,
    state: &State,
    open_region: u32,
    line: &[u8],
) -> Option<(Event, State)>
    ensures { IfSome result (λ r. IsEventLine names.now open_region state.now line.now r.0 r.1) }
{
    let State::Inside {
        own,
        events,
        region,
    } = state
    else {
        return None;
    };
    if *events >= MAX_EVENTS {
        return None;
    }
    match line {
        [b'i', ..] => receive_in(names, guesses, *own, *events, *region, open_region, line),
        [b'o', ..] => send_in(names, guesses, *own, *events, *region, line),
        _ => None,
    }
}
