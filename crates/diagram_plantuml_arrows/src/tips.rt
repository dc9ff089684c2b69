//! The ends of arrows: heads, circles and crosses.
ghost use Rattle.std.specs.Prelude.{◌≡◌};
ghost use Rattle.texts.specs.Words.{Finds, begins_blank};
ghost use Rattle.diagram_plantuml_arrows.specs.Tips.{behind_double, behind_head, cross_of, tip_at, mark_at, mark_before_blank, head_at};

use crate::runs::behind_byte;
use texts::begins_blank;
use texts::bytes::is_blank;

/// An end of an arrow.
#[derive(Clone, Copy, Debug)]
pub(crate) struct Tip {
    /// A head or a cross.
    pub has_head: bool,
    pub is_crossed: bool,
}

/// The text after this byte, once or twice.
#[tactic(auto, unfolding(crate::specs::Tips::behind_double))]
fn behind_double(known: u8, bytes: &[u8]) -> Option<&[u8]>
    ensures { Finds (λ rest. rest.now) result (behind_double known bytes.now) }
{
    let rest = behind_byte(known, bytes)?;
    match behind_byte(known, rest) {
        Some(more) => Some(more),
        None => Some(rest),
    }
}

/// The text after the head that comes next. `angle` is the byte of a whole head.
#[tactic(auto, unfolding(crate::specs::Tips::behind_head))]
fn behind_head(angle: u8, bytes: &[u8]) -> Option<&[u8]>
    ensures { Finds (λ rest. rest.now) result (behind_head angle bytes.now) }
{
    if let Some(rest) = behind_double(angle, bytes) {
        return Some(rest);
    }
    match behind_double(b'/', bytes) {
        Some(rest) => Some(rest),
        None => behind_double(b'\\', bytes),
    }
}

/// Whether a head comes next, and the text after it.
#[tactic(auto, unfolding(crate::specs::Tips::head_at))]
pub(crate) fn head_at(angle: u8, bytes: &[u8]) -> (bool, &[u8])
    ensures { (result.0, result.1.now) ≡ head_at angle bytes.now }
{
    match behind_head(angle, bytes) {
        Some(rest) => (true, rest),
        None => (false, bytes),
    }
}

/// Whether the byte is a cross, if it is a cross or a circle.
fn cross_of(byte: u8) -> Option<bool>
    ensures { result ≡ cross_of byte }
{
    if byte == b'x' || byte == b'X' {
        Some(true)
    } else if byte == b'o' || byte == b'O' {
        Some(false)
    } else {
        None
    }
}

/// Whether a cross comes next, if a cross or a circle comes next, and the text after it.
pub(crate) fn mark_at(bytes: &[u8]) -> Option<(bool, &[u8])>
    ensures { Finds (λ mark. (mark.0, mark.1.now)) result (mark_at bytes.now) }
{
    let [byte, rest @ ..] = bytes else {
        return None;
    };
    match cross_of(*byte) {
        Some(is_cross) => Some((is_cross, rest)),
        None => None,
    }
}

/// The same, if a blank comes after it.
#[tactic(auto, unfolding(crate::specs::Tips::mark_before_blank))]
pub(crate) fn mark_before_blank(bytes: &[u8]) -> Option<(bool, &[u8])>
    ensures { Finds (λ mark. (mark.0, mark.1.now)) result (mark_before_blank bytes.now) }
{
    match mark_at(bytes) {
        Some((is_cross, rest)) if begins_blank(rest) => Some((is_cross, rest)),
        _ => None,
    }
}

/// The end of an arrow before its body: a mark, if it is allowed there, and a head. At the edge a cross is no head.
#[tactic(auto, unfolding(crate::specs::Tips::tip_at))]
pub(crate) fn tip_at(is_edge: bool, is_apart: bool, bytes: &[u8]) -> (Tip, &[u8])
    ensures { (result.0, result.1.now) ≡ tip_at is_edge is_apart bytes.now }
{
    let (is_crossed, behind_mark) = match mark_at(bytes) {
        Some((is_cross, rest)) if is_apart => (is_cross, rest),
        _ => (false, bytes),
    };
    let (is_pointed, rest) = head_at(b'<', behind_mark);
    (
        Tip {
            has_head: is_pointed || (is_crossed && !is_edge),
            is_crossed,
        },
        rest,
    )
}
