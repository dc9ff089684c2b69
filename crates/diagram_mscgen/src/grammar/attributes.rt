//! Attributes: the names and values between `[` and `]`.
ghost use Rattle.std.specs.Prelude.{◌≡◌, ◌≤◌, ◌<◌, length, map, option_map, IfOk};
ghost use Rattle.diagram_mscgen.specs.Grammar.Attributes.{attributes_view, with_attribute};
ghost use Rattle.diagram_mscgen.specs.Grammar.Attributes.{attribute_name_in, attribute_in, attributes_at, attributes_in};
ghost use Rattle.diagram_mscgen.specs.Grammar.Reading.{Sees, Finds};
ghost use Rattle.diagram_mscgen.specs.Grammar.Tokens.{seen};

use crate::grammar::reading::{Left, behind_mark, name_in, next_word, skip_mark};
use crate::grammar::token::Token;
use crate::grammar::words::{AttributeName, attribute_name};
use texts::digits::number_in;

/// The values of attributes.
#[derive(Clone, Copy, Debug)]
pub(crate) struct Attributes<'a> {
    pub label: Option<&'a [u8]>,
    /// How many rows further down an arc ends.
    pub skip: u32,
}

/// The values without attributes.
const PLAIN: Attributes<'static> = Attributes {
    label: None,
    skip: 0,
};

/// The values with one more attribute, if its value is valid.
fn with_attribute<'a>(
    so_far: Attributes<'a>,
    name: AttributeName,
    value: &'a [u8],
) -> Option<Attributes<'a>>
    ensures { Finds attributes_view result (with_attribute (attributes_view so_far.entry) name value.now) }
{
    match name {
        AttributeName::Label => Some(Attributes {
            label: Some(value),
            skip: so_far.skip,
        }),
        AttributeName::Skip => match number_in(value) {
            Some(skip) => Some(Attributes {
                label: so_far.label,
                skip,
            }),
            None => None,
        },
        AttributeName::Style => Some(so_far),
    }
}

/// The name of an attribute, which has to come next, and the tokens after it.
#[tactic(auto, unfolding(crate::specs::Grammar::Attributes::attribute_name_in))]
fn attribute_name_in<'t, 'a>(
    tokens: &'t [Token<'a>],
) -> Result<(AttributeName, &'t [Token<'a>]), &'t [Token<'a>]>
    ensures name { Sees (λ name. (name.0, map seen name.1.now)) result (attribute_name_in (map seen tokens.now)) }
    ensures shorter { IfOk result (λ name. length name.1.now < length tokens.now) }
{
    let Some((word, rest)) = next_word(tokens) else {
        return Err(tokens);
    };
    match attribute_name(word) {
        Some(name) => Ok((name, rest)),
        None => Err(tokens),
    }
}

/// The values with one more attribute, and the tokens after it.
#[tactic(auto, unfolding(crate::specs::Grammar::Attributes::attribute_in))]
fn attribute_in<'t, 'a>(
    so_far: Attributes<'a>,
    tokens: &'t [Token<'a>],
) -> Result<(Attributes<'a>, &'t [Token<'a>]), &'t [Token<'a>]>
    ensures next { Sees (λ next. (attributes_view next.0, map seen next.1.now)) result
        (attribute_in (attributes_view so_far.entry) (map seen tokens.now)) }
    ensures shorter { IfOk result (λ next. length next.1.now < length tokens.now) }
{
    let (name, behind_name) = attribute_name_in(tokens)?;
    let value_tokens = behind_mark(b'=', behind_name)?;
    let (value, rest) = name_in(value_tokens)?;
    match with_attribute(so_far, name, value) {
        Some(more) => Ok((more, rest)),
        None => Err(value_tokens),
    }
}

/// Attributes with commas between them, and the tokens after the bracket that ends them.
fn attributes_at<'t, 'a>(
    tokens: &'t [Token<'a>],
) -> Result<(Attributes<'a>, &'t [Token<'a>]), &'t [Token<'a>]>
    ensures attributes { Sees (λ next. (attributes_view next.0, map seen next.1.now)) result
        (attributes_at (map seen tokens.now)) }
    ensures shorter { IfOk result (λ next. length next.1.now < length tokens.now) }
{
    let mut so_far = PLAIN;
    let mut left = Left { tokens };
    'attributes: loop {
        let (more, behind) = attribute_in(so_far, left.tokens)?;
        so_far = more;
        let Some(others) = skip_mark(b',', behind) else {
            let end = behind_mark(b']', behind)?;
            return Ok((so_far, end));
        };
        left = Left { tokens: others };
    }
}

/// The attributes, if there are any, and the tokens after them.
#[tactic(auto, unfolding(crate::specs::Grammar::Attributes::attributes_in))]
pub(crate) fn attributes_in<'t, 'a>(
    tokens: &'t [Token<'a>],
) -> Result<(Attributes<'a>, &'t [Token<'a>]), &'t [Token<'a>]>
    ensures attributes { Sees (λ next. (attributes_view next.0, map seen next.1.now)) result
        (attributes_in (map seen tokens.now)) }
    ensures within { IfOk result (λ next. length next.1.now ≤ length tokens.now) }
{
    match skip_mark(b'[', tokens) {
        Some(rest) => attributes_at(rest),
        None => Ok((PLAIN, tokens)),
    }
}
