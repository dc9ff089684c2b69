//! Entities: the parties between which arcs go.
ghost use Rattle.std.specs.Prelude.{◌≡◌, ◌<◌, length, map, IfOk};
ghost use Rattle.diagram_mscgen.specs.Grammar.Charts.{entity_view, entity_in};
ghost use Rattle.diagram_mscgen.specs.Grammar.Reading.{Sees};
ghost use Rattle.diagram_mscgen.specs.Grammar.Tokens.{seen};

use crate::grammar::attributes::attributes_in;
use crate::grammar::reading::{end_in, name_in};
use crate::grammar::token::Token;
use texts::bytes::Place;

/// An entity.
#[derive(Clone, Copy, Debug)]
pub struct Entity<'a> {
    /// The word by which arcs name it.
    pub word: &'a [u8],
    /// The label, if it has one, as it is written between its quotation marks. Without a label the word is shown.
    pub label: Option<&'a [u8]>,
    /// Where it begins.
    pub place: Place,
}

/// An entity with its attributes, whether it is the last, and the tokens after it.
#[tactic(auto, unfolding(crate::specs::Grammar::Charts::entity_in))]
pub(crate) fn entity_in<'t, 'a>(
    tokens: &'t [Token<'a>],
) -> Result<(Entity<'a>, bool, &'t [Token<'a>]), &'t [Token<'a>]>
    ensures entity { Sees (λ next. ((entity_view next.0, next.1), map seen next.2.now)) result
        (entity_in (map seen tokens.now)) }
    ensures shorter { IfOk result (λ next. length next.2.now < length tokens.now) }
{
    let [token, ..] = tokens else {
        return Err(tokens);
    };
    let (word, rest) = name_in(tokens)?;
    let (attributes, rest) = attributes_in(rest)?;
    let (is_last, rest) = end_in(rest)?;
    let entity = Entity {
        word,
        label: attributes.label,
        place: token.place,
    };
    Ok((entity, is_last, rest))
}
