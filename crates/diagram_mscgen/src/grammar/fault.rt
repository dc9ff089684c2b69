//! Why a text could not be read.
ghost use Rattle.std.specs.Prelude.{◌≡◌, ◌≤◌, ◌||◌, ◌==◌, length, map, position, IfSome};
ghost use Rattle.diagram_mscgen.specs.Grammar.Faults.{fault_at, fault_view, shown, shown_line, shown_length};
ghost use Rattle.texts.specs.Bytes.Classes.{printable};
ghost use Rattle.diagram_mscgen.specs.Grammar.Tokens.{seen};
ghost use Rattle.diagram_mscgen.specs.declared.grammar.fault.MscgenError.TheVariants.{Memory};

use crate::grammar::token::Token;
use std::alloc::AllocError;
use texts::bytes::{Place, START};

/// The first fault of a text.
#[derive(Clone, Copy, Debug)]
pub struct Fault<'a> {
    /// The place of the token that can't be there, or of the text's end.
    pub place: Place,
    /// The bytes there, up to the line's end: at most 40, and none at the text's end. [`printable`] defines how each of
    /// them is shown.
    pub words: &'a [u8],
}

/// Why a text was not read.
#[derive(Clone, Copy, Debug)]
pub enum MscgenError<'a> {
    /// A growth was refused.
    Memory,
    /// The text isn't in mscgen's language.
    Fault(Fault<'a>),
}

impl<'a> From<AllocError> for MscgenError<'a> {
    ghost from_gives = { λ _ e. e ≡ Memory };

    fn from(_e: AllocError) -> MscgenError<'a> {
        MscgenError::Memory
    }
}

/// The place of the first byte that ends a line.
fn line_end(rest: &[u8]) -> Option<usize>
    ensures value { result ≡ position (λ b. b == 10 || b == 13) rest.now }
    ensures within { IfSome result (λ place. place ≤ length rest.now) }
{
    rest.iter()
        .position(|byte| *byte == b'\n' || *byte == b'\r')
}

/// The number of bytes before the end of the line.
#[tactic(auto, unfolding(crate::specs::Grammar::Faults::shown_line))]
fn shown_line(rest: &[u8]) -> usize
    ensures value { result ≡ shown_line rest.now }
    ensures within { result ≤ length rest.now }
{
    match line_end(rest) {
        None => rest.len(),
        Some(place) => place,
    }
}

/// The number of bytes that are reported.
fn shown_length(rest: &[u8]) -> usize
    ensures value { result ≡ shown_length rest.now }
    ensures within { result ≤ length rest.now }
{
    let line = shown_line(rest);
    if line > 40 { 40 } else { line }
}

/// The bytes of a line that are reported, from a fault on.
#[tactic(auto, unfolding(crate::specs::Grammar::Faults::shown))]
fn shown(rest: &[u8]) -> &[u8]
    ensures { result.now ≡ shown rest.now }
{
    &rest[..shown_length(rest)]
}

/// The fault of a text whose reading stops at these tokens.
pub(crate) fn fault_at<'t, 'a>(text: &'a [u8], stop: &'t [Token<'a>]) -> Fault<'a>
    ensures { fault_view result ≡ fault_at text.now (map seen stop.now) }
{
    match stop {
        [] => Fault {
            place: START.behind(text),
            words: &[],
        },
        [token, ..] => Fault {
            place: token.place,
            words: shown(token.rest),
        },
    }
}
