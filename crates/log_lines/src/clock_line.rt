//! Lines `HOST {CLOCK} EVENT` of a log for ShiViz.
ghost use Rattle.std.specs.Prelude.{◌≡◌, ◌≤◌, length, map, option_map, IfOk, IfSome};
ghost use Rattle.log_lines.specs.ClockLines.{clock_end, clock_line, is_parser, before_comma, says_out, says_in, line_in_words, event_in_words};
ghost use Rattle.log_lines.specs.Events.{clocked_view, line_view};

use crate::event::{Act, Clocked, Event, LineSays};
use crate::words::words_of;
use std::alloc::{AllocError, Global};
use texts::{first_place, place_of, stripped};

/// The end of a clock at the start of the bytes.
fn clock_end(bytes: &[u8]) -> Option<usize>
    ensures value { result ≡ clock_end bytes.now }
    ensures within { IfSome result (λ end. end ≤ length bytes.now) }
{
    match bytes {
        [b'{', ..] => match first_place(b'}', bytes) {
            Some(place) => Some(place + 1),
            None => None,
        },
        _ => None,
    }
}

/// The host, the clock and the event of a line. The event may be empty.
#[tactic(auto, unfolding(crate::specs::ClockLines::clock_line))]
pub(crate) fn clock_line(line: &[u8]) -> Option<Clocked<'_>>
    ensures { option_map clocked_view result ≡ clock_line line.now }
{
    let space = first_place(b' ', line)?;
    let behind = &line[space + 1..];
    let end = clock_end(behind)?;
    Some(Clocked {
        host: &line[..space],
        clock: &behind[..end],
        event: stripped(&behind[end..]),
    })
}

/// Whether the line is the expression of a parser. A log may begin with one.
pub(crate) fn is_parser(line: &[u8]) -> bool
    ensures { result ≡ is_parser line.now }
{
    place_of(b"(?<", line).is_some()
}

/// The part of the text before its first comma.
#[tactic(auto, unfolding(crate::specs::ClockLines::before_comma))]
fn before_comma(text: &[u8]) -> &[u8]
    ensures { result.now ≡ before_comma text.now }
{
    match first_place(b',', text) {
        Some(place) => &text[..place],
        None => text,
    }
}

/// Whether the words before and after a message's name state that it is sent.
fn says_out(direction: &[u8], preposition: &[u8]) -> bool
    ensures { result ≡ says_out direction.now preposition.now }
{
    direction == b"out".as_slice() && preposition == b"to".as_slice()
}

/// Whether they state that it is received.
fn says_in(direction: &[u8], preposition: &[u8]) -> bool
    ensures { result ≡ says_in direction.now preposition.now }
{
    direction == b"in".as_slice() && preposition == b"from".as_slice()
}

/// The meaning of these words about an event of the host.
fn line_in_words<'a>(host: &'a [u8], words: &[&'a [u8]]) -> LineSays<'a>
    ensures { line_view result ≡ line_in_words host.now (map (λ w. w.now) words.now) }
{
    match words {
        [direction, name, preposition, peer] => {
            if says_out(*direction, *preposition) {
                LineSays::Event(Event {
                    host,
                    act: Act::Send,
                    peer: *peer,
                    name: *name,
                    id: None,
                })
            } else if says_in(*direction, *preposition) {
                LineSays::Event(Event {
                    host,
                    act: Act::Receive,
                    peer: *peer,
                    name: *name,
                    id: None,
                })
            } else {
                LineSays::Other
            }
        }
        _ => LineSays::Other,
    }
}

/// The meaning of an event with its vector time, in the words of this project's exports: `out M to B` or `in M from A`.
/// The text after a comma is ignored.
#[tactic(auto, unfolding(crate::specs::ClockLines::event_in_words))]
pub(crate) fn event_in_words<'a>(
    alloc: Global,
    clocked: Clocked<'a>,
) -> Result<LineSays<'a>, AllocError>
    ensures { IfOk result (λ says. line_view says ≡ event_in_words (clocked_view clocked.entry)) }
{
    let words = words_of(alloc, before_comma(clocked.event))?;
    Ok(line_in_words(clocked.host, &words))
}
