//! The words, texts and signs of a text.
ghost use Rattle.std.specs.Prelude.{◌≡◌, ◌-◌, length, take, drop, Option, Some, None, option_map};
ghost use Rattle.diagram_mscgen.specs.Grammar.Tokens.{seen, inner, kind_of, kind_view, first_byte, first_token, listed};
ghost use Rattle.diagram_mscgen.specs.Grammar.Pieces.{piece_at};

use crate::grammar::piece::Shape;
use crate::grammar::relation::Relation;
use texts::bytes::Place;

/// The kind of a token.
#[derive(Clone, Copy, Debug)]
pub enum Kind<'a> {
    /// Letters, digits and `_`.
    Word(&'a [u8]),
    /// The bytes between two quotation marks.
    Text(&'a [u8]),
    /// An arc's sign.
    Sign(Relation),
    /// A row without an arc: `...`, `---` or `|||`.
    Spacer,
    /// Punctuation: one of `,`, `;`, `=`, `*` and the brackets.
    Mark(u8),
    /// Bytes that can't be read.
    Unknown,
}

/// A token of a text: a word, a text in quotation marks, a sign or a mark.
#[derive(Clone, Copy, Debug)]
pub struct Token<'a> {
    pub kind: Kind<'a>,
    /// Where it begins.
    pub place: Place,
    /// The text from its first byte on.
    pub rest: &'a [u8],
}

/// The bytes between the first one and the last one.
#[tactic(auto, unfolding(crate::specs::Grammar::Tokens::inner))]
fn inner(bytes: &[u8]) -> &[u8]
    ensures { result.now ≡ inner bytes.now }
{
    if bytes.len() < 2 {
        &[]
    } else {
        &bytes[1..bytes.len() - 1]
    }
}

fn first_byte(bytes: &[u8]) -> u8
    ensures { result ≡ first_byte bytes.now }
{
    match bytes {
        [] => 0,
        [first, ..] => *first,
    }
}

/// The kind of token that a piece with these bytes is, if it is one.
pub(crate) fn kind_of(shape: Shape, bytes: &[u8]) -> Option<Kind<'_>>
    ensures { option_map kind_view result ≡ kind_of shape bytes.now }
{
    match shape {
        Shape::Gap => None,
        Shape::Word => Some(Kind::Word(bytes)),
        Shape::Text => Some(Kind::Text(inner(bytes))),
        Shape::Sign(relation) => Some(Kind::Sign(relation)),
        Shape::Spacer => Some(Kind::Spacer),
        Shape::Mark => Some(Kind::Mark(first_byte(bytes))),
        Shape::Unknown => Some(Kind::Unknown),
    }
}
