//! The text after participants: activations, colours, links and texts.
ghost use Rattle.std.specs.Prelude.{◌≡◌, option_map};
ghost use Rattle.texts.specs.Words.{Finds};
ghost use Rattle.diagram_plantuml_arrows.specs.Tails.{tail_view, behind_view, colon_tail, link_tail, end_tail, behind_colour, behind_at, coloured_tail};

use crate::runs::{Class, behind_byte, behind_run, run_length};
use texts::{begins_with, behind_blanks, stripped};

/// The text at a statement's end, if it has one there.
#[derive(Clone, Copy, Debug)]
pub struct Tail<'a> {
    pub text: Option<&'a [u8]>,
}

/// The end of an arrow's statement: signs of activation, and a text, which may be empty.
#[derive(Clone, Copy, Debug)]
pub(crate) struct Behind<'a> {
    pub signs: &'a [u8],
    pub text: &'a [u8],
}

/// Nothing, or a colon and a text.
#[tactic(auto, unfolding(crate::specs::Tails::colon_tail))]
pub fn colon_tail(bytes: &[u8]) -> Option<Tail<'_>>
    ensures { Finds tail_view result (colon_tail bytes.now) }
{
    let rest = behind_blanks(bytes);
    if rest.is_empty() {
        return Some(Tail { text: None });
    }
    match behind_byte(b':', rest) {
        Some(text) => Some(Tail {
            text: Some(stripped(text)),
        }),
        None => None,
    }
}

/// The same after the beginning of a link.
#[tactic(auto, unfolding(crate::specs::Tails::link_tail))]
fn link_tail(bytes: &[u8]) -> Option<Tail<'_>>
    ensures { Finds tail_view result (link_tail bytes.now) }
{
    let mut rest = bytes;
    'bytes: while let [_, others @ ..] = rest {
        if begins_with(rest, b"]]") {
            if let Some(tail) = colon_tail(&rest[2..]) {
                return Some(tail);
            }
        }
        rest = others;
    }
    None
}

/// The end of a statement: a link, and a colon with a text. Each is optional.
#[tactic(auto, unfolding(crate::specs::Tails::end_tail))]
fn end_tail(bytes: &[u8]) -> Option<Tail<'_>>
    ensures { Finds tail_view result (end_tail bytes.now) }
{
    let rest = behind_blanks(bytes);
    if begins_with(rest, b"[[") {
        link_tail(&rest[2..])
    } else {
        colon_tail(rest)
    }
}

/// The text after a colour of these bytes, if one comes next.
#[tactic(auto, unfolding(crate::specs::Tails::behind_colour))]
pub fn behind_colour(class: Class, bytes: &[u8]) -> &[u8]
    ensures { result.now ≡ behind_colour class bytes.now }
{
    match behind_byte(b'#', bytes) {
        Some(colour) if run_length(class, colour) > 0 => behind_run(class, colour),
        _ => bytes,
    }
}

/// The end of a note's statement after its participants.
#[tactic(auto, unfolding(crate::specs::Tails::coloured_tail))]
pub fn coloured_tail(bytes: &[u8]) -> Option<Tail<'_>>
    ensures { Finds tail_view result (coloured_tail bytes.now) }
{
    end_tail(behind_colour(Class::Colour, behind_blanks(bytes)))
}

/// The end of an arrow's statement after its participants.
#[tactic(auto, unfolding(crate::specs::Tails::behind_at))]
pub(crate) fn behind_at(bytes: &[u8]) -> Option<Behind<'_>>
    ensures { Finds behind_view result (behind_at bytes.now) }
{
    let rest = behind_blanks(bytes);
    let length = run_length(Class::Sign, rest);
    let colour = behind_blanks(&rest[length..]);
    match end_tail(behind_colour(Class::Word, colour)) {
        Some(Tail { text: Some(text) }) => Some(Behind {
            signs: &rest[..length],
            text,
        }),
        Some(Tail { text: None }) => Some(Behind {
            signs: &rest[..length],
            text: &[],
        }),
        None => None,
    }
}
