//! The signs of mscgen's language.
ghost use Rattle.std.specs.Prelude.{◌≡◌, ◌≤◌, ◌<◌, length, map, IfSome};
ghost use Rattle.diagram_mscgen.specs.Grammar.Signs.{first_spelled, sign_at};

use crate::grammar::piece::{Piece, Shape};
use crate::grammar::relation::Relation;
use texts::bytes::begins;

/// Punctuation.
const MARKS: [(&[u8], Shape); 7] = [
    (b",", Shape::Mark),
    (b";", Shape::Mark),
    (b"[", Shape::Mark),
    (b"]", Shape::Mark),
    (b"{", Shape::Mark),
    (b"}", Shape::Mark),
    (b"*", Shape::Mark),
];

/// Signs of three or more bytes.
const LONG_SIGNS: [(&[u8], Shape); 10] = [
    (b"<<=>>", Shape::Sign(Relation::Both)),
    (b"<<>>", Shape::Sign(Relation::Both)),
    (b"<<=", Shape::Sign(Relation::From)),
    (b"=>>", Shape::Sign(Relation::To)),
    (b"<->", Shape::Sign(Relation::Both)),
    (b"<=>", Shape::Sign(Relation::Both)),
    (b"<:>", Shape::Sign(Relation::Both)),
    (b"---", Shape::Spacer),
    (b"...", Shape::Spacer),
    (b"|||", Shape::Spacer),
];

/// Signs of two bytes, and the mark `=`, with which some of them begin.
const SHORT_SIGNS: [(&[u8], Shape); 17] = [
    (b"->", Shape::Sign(Relation::To)),
    (b"=>", Shape::Sign(Relation::To)),
    (b">>", Shape::Sign(Relation::To)),
    (b":>", Shape::Sign(Relation::To)),
    (b"<-", Shape::Sign(Relation::From)),
    (b"<=", Shape::Sign(Relation::From)),
    (b"<<", Shape::Sign(Relation::From)),
    (b"<:", Shape::Sign(Relation::From)),
    (b"-x", Shape::Sign(Relation::LostTo)),
    (b"-X", Shape::Sign(Relation::LostTo)),
    (b"x-", Shape::Sign(Relation::LostFrom)),
    (b"X-", Shape::Sign(Relation::LostFrom)),
    (b"--", Shape::Sign(Relation::Line)),
    (b"==", Shape::Sign(Relation::Line)),
    (b"..", Shape::Sign(Relation::Line)),
    (b"::", Shape::Sign(Relation::Line)),
    (b"=", Shape::Mark),
];

/// The first of these spellings with which the bytes begin.
fn first_spelled(spellings: &[(&[u8], Shape)], bytes: &[u8]) -> Option<Piece>
    ensures value { result ≡ first_spelled (map (λ s. (s.0.now, s.1)) spellings.now) bytes.now }
    ensures within { IfSome result (λ piece. piece.length ≤ length bytes.now) }
{
    for (spelled, shape) in spellings {
        if begins(bytes, *spelled) {
            return Some(Piece {
                shape: *shape,
                length: spelled.len(),
            });
        }
    }
    None
}

/// The longest sign with which the bytes begin.
#[tactic(auto, unfolding(crate::specs::Grammar::Signs::sign_at))]
pub(crate) fn sign_at(bytes: &[u8]) -> Option<Piece>
    ensures value { result ≡ sign_at bytes.now }
    ensures within { IfSome result (λ piece. piece.length ≤ length bytes.now) }
{
    if let Some(mark) = first_spelled(&MARKS, bytes) {
        return Some(mark);
    }
    if let Some(sign) = first_spelled(&LONG_SIGNS, bytes) {
        return Some(sign);
    }
    first_spelled(&SHORT_SIGNS, bytes)
}
