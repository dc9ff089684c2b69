//! The text of a step.
ghost use Rattle.std.specs.Prelude.{◌≡◌};
ghost use Rattle.texts.specs.Writing.{Adds};
ghost use Rattle.fault_places.specs.NamedCycles.{step_text};

use crate::step::Step;
use closure::chain::rule_of;
use texts::pieces::{Piece, add_pieces};
use texts::{Out, TextBuffer, WriteError};

/// Adds a step: the line of its earlier event, the two events, and why the one is before the other. F24: a put failed.
#[tactic(auto, unfolding(crate::specs::NamedCycles::step_text))]
pub fn add_step<W: Out>(text: &mut TextBuffer<'_, W>, step: &Step) -> Result<(), WriteError>
    ensures { Adds W.sink text.old text.new result (step_text step.now) }
{
    add_pieces(
        text,
        &[
            Piece::Bytes(b"  = line "),
            Piece::Number(step.line),
            Piece::Bytes(b": "),
            Piece::Bytes(step.earlier.name.as_bytes()),
            Piece::Bytes(b" "),
            Piece::Number(u64::from(step.earlier.index)),
            Piece::Bytes(b" before "),
            Piece::Bytes(step.later.name.as_bytes()),
            Piece::Bytes(b" "),
            Piece::Number(u64::from(step.later.index)),
            Piece::Bytes(b": "),
            Piece::Bytes(rule_of(&step.rule)),
            Piece::Bytes(b"\n"),
        ],
    )
}
