//! Texts, split into their tokens.
ghost use Rattle.std.specs.Prelude.{◌≡◌, ◌++◌, ◌≤◌, ◌<◌, length, map, drop, take, IfOk, OnOk};
ghost use Rattle.diagram_mscgen.specs.Grammar.Tokens.{seen, first_token, tokens_of, mark_length};
ghost use Rattle.diagram_mscgen.specs.Grammar.Pieces.{piece_at};

use crate::grammar::piece::{Piece, piece_at};
use crate::grammar::token::{Token, kind_of};
use std::alloc::{AllocError, Global};
use texts::bytes::{Place, START, begins};

/// The length of the byte order mark, or 0 if the text begins with none.
#[tactic(auto, unfolding(crate::specs::Grammar::Tokens::mark_length))]
fn mark_length(text: &[u8]) -> usize
    ensures value { result ≡ mark_length text.now }
    ensures within { result ≤ length text.now }
{
    if begins(text, b"\xef\xbb\xbf") { 3 } else { 0 }
}

/// Adds the token with which the bytes begin, if their first piece is one.
#[tactic(auto, unfolding(crate::specs::Grammar::Tokens::first_token))]
fn add_first<'a>(
    piece: Piece,
    place: Place,
    bytes: &'a [u8],
    tokens: &mut Vec<Token<'a>>,
) -> Result<(), AllocError>
    requires within { piece.length ≤ length bytes.now }
    requires first { piece ≡ piece_at bytes.now }
    ensures { OnOk result (map seen tokens.new.items ≡ map seen tokens.old.items ++ first_token place bytes.now) }
{
    match kind_of(piece.shape, &bytes[..piece.length]) {
        None => Ok(()),
        Some(kind) => {
            tokens.push(Token {
                kind,
                place,
                rest: bytes,
            })?;
            Ok(())
        }
    }
}

/// The tokens of a text.
pub fn tokens_of(alloc: Global, text: &[u8]) -> Result<Vec<Token<'_>>, AllocError>
    ensures { IfOk result (λ tokens. map seen tokens.items ≡ tokens_of text.now) }
{
    let mut tokens = Vec::new(alloc);
    let (mark, behind_mark) = text.split_at(mark_length(text));
    let mut place = START.behind(mark);
    let mut rest = behind_mark;
    'pieces: while let [_, ..] = rest {
        let piece = piece_at(rest);
        add_first(piece, place, rest, &mut tokens)?;
        let (passed, left) = rest.split_at(piece.length);
        place = place.behind(passed);
        rest = left;
    }
    Ok(tokens)
}
