//! The pieces of a text.
ghost use Rattle.std.specs.Prelude.{◌≡◌, ◌≤◌, ◌<◌, length, ◌+◌, Option, Some, None};
ghost use Rattle.diagram_mscgen.specs.Grammar.Pieces.{piece_at, text_by, word_or_unknown};
ghost use Rattle.diagram_mscgen.specs.Grammar.Lengths.{closing};

use crate::grammar::lengths::{closing, comment_length, word_length};
use crate::grammar::relation::Relation;
use crate::grammar::signs::sign_at;
use texts::bytes::{begins, is_white_space, is_word_byte, line_length};

/// The kind of a piece of a text.
#[derive(Clone, Copy, Debug)]
pub(crate) enum Shape {
    /// A blank or a comment.
    Gap,
    Word,
    /// A text in quotation marks.
    Text,
    Sign(Relation),
    /// A row without an arc: `...`, `---` or `|||`.
    Spacer,
    /// Punctuation.
    Mark,
    /// Bytes that can't be read.
    Unknown,
}

/// A piece of a text, with its length in bytes.
#[derive(Clone, Copy, Debug)]
pub(crate) struct Piece {
    pub shape: Shape,
    pub length: usize,
}

/// The text in quotation marks whose first mark is before these bytes.
fn text_at(bytes: &[u8]) -> Piece
    ensures piece { result ≡ text_by (length bytes.now) (closing 34 bytes.now) }
    ensures within { result.length ≤ length bytes.now + 1 }
    ensures some { 0 < result.length }
{
    match closing(b'"', bytes) {
        None => Piece {
            shape: Shape::Unknown,
            length: bytes.len() + 1,
        },
        Some(place) => Piece {
            shape: Shape::Text,
            length: place + 2,
        },
    }
}

/// The word that begins with the first byte, or the byte alone.
fn word_or_unknown(first: u8, others: &[u8]) -> Piece
    ensures piece { result ≡ word_or_unknown first others.now }
    ensures within { result.length ≤ length others.now + 1 }
    ensures some { 0 < result.length }
{
    if is_word_byte(first) {
        Piece {
            shape: Shape::Word,
            length: word_length(others) + 1,
        }
    } else {
        Piece {
            shape: Shape::Unknown,
            length: 1,
        }
    }
}

/// The piece with which the bytes begin.
#[tactic(auto, unfolding(crate::specs::Grammar::Pieces::piece_at))]
pub(crate) fn piece_at(bytes: &[u8]) -> Piece
    ensures piece { result ≡ piece_at bytes.now }
    ensures within { result.length ≤ length bytes.now }
    ensures some { 0 < length bytes.now → 0 < result.length }
{
    let [first, others @ ..] = bytes else {
        return Piece {
            shape: Shape::Gap,
            length: 0,
        };
    };
    if is_white_space(*first) {
        return Piece {
            shape: Shape::Gap,
            length: 1,
        };
    }
    if *first == b'#' || begins(bytes, b"//") {
        return Piece {
            shape: Shape::Gap,
            length: line_length(others) + 1,
        };
    }
    if begins(bytes, b"/*") {
        return Piece {
            shape: Shape::Gap,
            length: comment_length(&others[1..]) + 2,
        };
    }
    if *first == b'"' {
        return text_at(others);
    }
    match sign_at(bytes) {
        Some(sign) => sign,
        None => word_or_unknown(*first, others),
    }
}
