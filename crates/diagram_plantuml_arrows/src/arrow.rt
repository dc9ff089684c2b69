//! Arrows: between two participants, and from or to the edge of the diagram.
ghost use Rattle.std.specs.Prelude.{◌≡◌, option_map};
ghost use Rattle.texts.specs.Words.{Finds};
ghost use Rattle.diagram_statements.specs.Statements.{arrow_view, end_view};
ghost use Rattle.diagram_plantuml_arrows.specs.Tails.{behind_view};
ghost use Rattle.diagram_plantuml_arrows.specs.Arrows.{found_view, target_view, row_at, behind_brace, gap_at, behind_anchor, slope_at, form_of, activates};
ghost use Rattle.diagram_plantuml_arrows.specs.Arrows.{made, receiver_at, named_at, end_at, unmarked_target, marked_target, target_at, is_pointed};
ghost use Rattle.diagram_plantuml_arrows.specs.Arrows.{arrow_of};
ghost use Rattle.diagram_plantuml_arrows.specs.Arrows.{shaft_from, pair_at, is_edge, from_tip, from_sign, from_edge, edge_at, signed_tail, edge_tail, to_shaft, to_styled, to_body, to_edge};

use crate::body::{Body, body_at, other_body, styled_body};
use crate::names::{name_at, participant_at};
use crate::runs::{Class, behind_byte, behind_run, run_at};
use crate::tails::{Behind, behind_at};
use crate::tips::{Tip, head_at, mark_at, mark_before_blank, tip_at};
use diagram_statements::{Arrow, ArrowForm, End};
use texts::{begins_blank, behind_blanks};

/// An arrow, and the signs of activation after it.
#[derive(Clone, Copy, Debug)]
pub struct Found<'a> {
    pub arrow: Arrow<'a>,
    pub signs: &'a [u8],
}

/// The shaft of an arrow, between its participants.
#[derive(Clone, Copy, Debug)]
pub(crate) struct Shaft {
    pub left: Tip,
    pub body: Body,
    pub right: Tip,
}

/// The head at the right end, the participant there, and the text after it.
#[derive(Clone, Copy, Debug)]
pub(crate) struct Target<'a> {
    pub right: Tip,
    pub end: Option<End<'a>>,
    pub behind: Behind<'a>,
}

/// Whether an arrow is beside the one above it, and the text after the sign for that.
#[tactic(auto, unfolding(crate::specs::Arrows::row_at))]
pub fn row_at(bytes: &[u8]) -> (bool, &[u8])
    ensures { (result.0, result.1.now) ≡ row_at bytes.now }
{
    match behind_byte(b'&', bytes) {
        Some(rest) => (true, behind_blanks(rest)),
        None => (false, bytes),
    }
}

/// The text after an anchor, if one comes next.
#[tactic(auto, unfolding(crate::specs::Arrows::behind_brace))]
pub fn behind_brace(bytes: &[u8]) -> Option<&[u8]>
    ensures { Finds (λ rest. rest.now) result (behind_brace bytes.now) }
{
    let (_, rest) = run_at(Class::Word, behind_byte(b'{', bytes)?)?;
    behind_byte(b'}', rest)
}

/// Skips an anchor, if one comes next, and blanks. Returns whether there were blanks, and the rest.
#[tactic(auto, unfolding(crate::specs::Arrows::gap_at))]
fn gap_at(bytes: &[u8]) -> (bool, &[u8])
    ensures { (result.0, result.1.now) ≡ gap_at bytes.now }
{
    match behind_brace(bytes) {
        Some(rest) => (begins_blank(rest), behind_blanks(rest)),
        None => (begins_blank(bytes), behind_blanks(bytes)),
    }
}

/// The text after an anchor and the blanks after it, if one comes next.
#[tactic(auto, unfolding(crate::specs::Arrows::behind_anchor))]
fn behind_anchor(bytes: &[u8]) -> &[u8]
    ensures { result.now ≡ behind_anchor bytes.now }
{
    match behind_brace(bytes) {
        Some(rest) => behind_blanks(rest),
        None => bytes,
    }
}

/// The text after a slope, if one comes next.
#[tactic(auto, unfolding(crate::specs::Arrows::slope_at))]
fn slope_at(bytes: &[u8]) -> Option<&[u8]>
    ensures { Finds (λ rest. rest.now) result (slope_at bytes.now) }
{
    behind_byte(b')', behind_run(Class::Digit, behind_byte(b'(', bytes)?))
}

/// The form of an arrow, by its ends and its style.
#[tactic(auto, unfolding(crate::specs::Arrows::form_of))]
fn form_of(shaft: Shaft) -> ArrowForm
    ensures { result ≡ form_of shaft }
{
    if shaft.body.is_hidden {
        ArrowForm::Hidden
    } else if shaft.left.has_head && shaft.right.has_head {
        ArrowForm::BothWays
    } else if !shaft.left.has_head && !shaft.right.has_head {
        ArrowForm::Headless
    } else if shaft.left.is_crossed || shaft.right.is_crossed {
        ArrowForm::Lost
    } else {
        ArrowForm::Message
    }
}

/// If arrows activate: a dotted arrow ends an activation, any other begins one. With a cross or signs it does neither.
#[tactic(auto, unfolding(crate::specs::Arrows::activates))]
fn activates(shaft: Shaft, signs: &[u8]) -> Option<bool>
    ensures { result ≡ activates shaft signs.now }
{
    if !signs.is_empty() || shaft.left.is_crossed || shaft.right.is_crossed {
        None
    } else {
        Some(!shaft.body.is_dotted)
    }
}

/// An arrow with this shaft. If it has two heads or none, it goes to the right.
#[tactic(auto, unfolding(crate::specs::Arrows::made))]
fn made<'a>(
    is_beside: bool,
    first: Option<End<'a>>,
    second: Option<End<'a>>,
    shaft: Shaft,
    behind: Behind<'a>,
) -> Found<'a>
    ensures { found_view result ≡ made is_beside (option_map end_view first.entry) (option_map end_view second.entry)
        shaft (behind_view behind.entry) }
{
    Found {
        arrow: Arrow {
            first,
            second,
            goes_back: shaft.left.has_head && !shaft.right.has_head,
            form: form_of(shaft),
            label: behind.text,
            is_beside,
            activates: activates(shaft, behind.signs),
        },
        signs: behind.signs,
    }
}

/// The participant to which an arrow's right end leads, and the text after it.
#[tactic(auto, unfolding(crate::specs::Arrows::receiver_at))]
fn receiver_at(bytes: &[u8]) -> Option<(End<'_>, Behind<'_>)>
    ensures { Finds (λ r. (end_view r.0, behind_view r.1)) result (receiver_at bytes.now) }
{
    let rest = match slope_at(bytes) {
        Some(rest) => behind_blanks(rest),
        None => behind_blanks(bytes),
    };
    let (end, behind_end) = participant_at(rest)?;
    let behind = behind_at(behind_anchor(behind_end))?;
    Some((end, behind))
}

/// The same for an arrow from the edge: only a name comes next.
#[tactic(auto, unfolding(crate::specs::Arrows::named_at))]
fn named_at(bytes: &[u8]) -> Option<(End<'_>, Behind<'_>)>
    ensures { Finds (λ r. (end_view r.0, behind_view r.1)) result (named_at bytes.now) }
{
    let (word, rest) = name_at(behind_blanks(bytes))?;
    let behind = behind_at(rest)?;
    Some((End { word, label: None }, behind))
}

/// The participant at the right end, in the form that this arrow may have.
fn end_at(is_edge: bool, bytes: &[u8]) -> Option<(End<'_>, Behind<'_>)>
    ensures { Finds (λ r. (end_view r.0, behind_view r.1)) result (end_at is_edge bytes.now) }
{
    if is_edge {
        named_at(bytes)
    } else {
        receiver_at(bytes)
    }
}

/// The target of an arrow whose right head has been read. At the edge a cross is no head.
#[tactic(auto, unfolding(crate::specs::Arrows::unmarked_target))]
fn unmarked_target(is_edge: bool, is_pointed: bool, bytes: &[u8]) -> Option<Target<'_>>
    ensures { Finds target_view result (unmarked_target is_edge is_pointed bytes.now) }
{
    let (end, behind) = end_at(is_edge, bytes)?;
    Some(Target {
        right: Tip {
            has_head: is_pointed,
            is_crossed: false,
        },
        end: Some(end),
        behind,
    })
}

/// The same with a mark, which a blank follows.
#[tactic(auto, unfolding(crate::specs::Arrows::marked_target))]
fn marked_target(is_edge: bool, is_pointed: bool, bytes: &[u8]) -> Option<Target<'_>>
    ensures { Finds target_view result (marked_target is_edge is_pointed bytes.now) }
{
    let (is_crossed, rest) = mark_before_blank(bytes)?;
    let (end, behind) = end_at(is_edge, rest)?;
    Some(Target {
        right: Tip {
            has_head: is_pointed || (is_crossed && !is_edge),
            is_crossed,
        },
        end: Some(end),
        behind,
    })
}

/// The right end of an arrow, the participant there, and the text after it.
#[tactic(auto, unfolding(crate::specs::Arrows::target_at))]
fn target_at(is_edge: bool, bytes: &[u8]) -> Option<Target<'_>>
    ensures { Finds target_view result (target_at is_edge bytes.now) }
{
    let (is_pointed, rest) = head_at(b'>', bytes);
    match marked_target(is_edge, is_pointed, rest) {
        Some(target) => Some(target),
        None => unmarked_target(is_edge, is_pointed, rest),
    }
}

/// Whether an arrow has a head.
fn is_pointed(shaft: Shaft) -> bool
    ensures { result ≡ is_pointed shaft }
{
    shaft.left.has_head || shaft.right.has_head
}

/// The rest of an arrow after its first participant or the edge. At the edge it has a head.
#[tactic(auto, unfolding(crate::specs::Arrows::shaft_from))]
fn shaft_from<'a>(
    is_beside: bool,
    first: Option<End<'a>>,
    left: Tip,
    bytes: &'a [u8],
) -> Option<Found<'a>>
    ensures { Finds found_view result (shaft_from is_beside (option_map end_view first.entry) left bytes.now) }
{
    let (body, behind_body) = body_at(bytes)?;
    let target = target_at(first.is_none(), behind_body)?;
    let shaft = Shaft {
        left,
        body,
        right: target.right,
    };
    if first.is_none() && !is_pointed(shaft) {
        return None;
    }
    Some(made(is_beside, first, target.end, shaft, target.behind))
}

/// An arrow between two participants.
#[tactic(auto, unfolding(crate::specs::Arrows::pair_at))]
fn pair_at(is_beside: bool, bytes: &[u8]) -> Option<Found<'_>>
    ensures { Finds found_view result (pair_at is_beside bytes.now) }
{
    let (first, behind_first) = participant_at(behind_anchor(bytes))?;
    let (is_apart, behind_gap) = gap_at(behind_first);
    let (left, rest) = match slope_at(behind_gap) {
        Some(behind_slope) => tip_at(false, false, behind_slope),
        None => tip_at(false, is_apart, behind_gap),
    };
    shaft_from(is_beside, Some(first), left, rest)
}

/// A sign of the edge.
fn is_edge(byte: u8) -> bool
    ensures { result ≡ is_edge byte }
{
    byte == b'?' || byte == b'[' || byte == b']'
}

/// An arrow from the edge, whose sign has been read or is missing.
#[tactic(auto, unfolding(crate::specs::Arrows::from_tip))]
fn from_tip(is_beside: bool, has_sign: bool, bytes: &[u8]) -> Option<Found<'_>>
    ensures { Finds found_view result (from_tip is_beside has_sign bytes.now) }
{
    let (left, rest) = tip_at(true, has_sign, bytes);
    shaft_from(is_beside, None, left, rest)
}

/// An arrow from the edge, whose sign comes next.
#[tactic(auto, unfolding(crate::specs::Arrows::from_sign))]
fn from_sign(is_beside: bool, bytes: &[u8]) -> Option<Found<'_>>
    ensures { Finds found_view result (from_sign is_beside bytes.now) }
{
    match bytes {
        [byte, rest @ ..] if is_edge(*byte) => from_tip(is_beside, true, rest),
        _ => None,
    }
}

/// An arrow from the edge, with or without a sign of the edge.
#[tactic(auto, unfolding(crate::specs::Arrows::from_edge))]
fn from_edge(is_beside: bool, bytes: &[u8]) -> Option<Found<'_>>
    ensures { Finds found_view result (from_edge is_beside bytes.now) }
{
    match from_sign(is_beside, bytes) {
        Some(found) => Some(found),
        None => from_tip(is_beside, false, bytes),
    }
}

/// The text after a sign of the edge. A mark may come before the sign, and the result has whether that is a cross.
#[tactic(auto, unfolding(crate::specs::Arrows::edge_at))]
fn edge_at(bytes: &[u8]) -> Option<(bool, &[u8])>
    ensures { Finds (λ edge. (edge.0, edge.1.now)) result (edge_at bytes.now) }
{
    let (is_crossed, rest) = match mark_at(bytes) {
        Some(mark) => mark,
        None => (false, bytes),
    };
    match rest {
        [byte, others @ ..] if is_edge(*byte) => Some((is_crossed, others)),
        _ => None,
    }
}

/// A sign of the edge, and the text after an arrow.
#[tactic(auto, unfolding(crate::specs::Arrows::signed_tail))]
fn signed_tail(bytes: &[u8]) -> Option<(bool, Behind<'_>)>
    ensures { Finds (λ tail. (tail.0, behind_view tail.1)) result (signed_tail bytes.now) }
{
    let (is_crossed, rest) = edge_at(bytes)?;
    let behind = behind_at(rest)?;
    Some((is_crossed, behind))
}

/// The same, with or without the sign.
#[tactic(auto, unfolding(crate::specs::Arrows::edge_tail))]
fn edge_tail(bytes: &[u8]) -> Option<(bool, Behind<'_>)>
    ensures { Finds (λ tail. (tail.0, behind_view tail.1)) result (edge_tail bytes.now) }
{
    if let Some(tail) = signed_tail(bytes) {
        return Some(tail);
    }
    match behind_at(bytes) {
        Some(behind) => Some((false, behind)),
        None => None,
    }
}

/// An arrow to the edge, after its body.
#[tactic(auto, unfolding(crate::specs::Arrows::to_shaft))]
fn to_shaft<'a>(
    is_beside: bool,
    word: &'a [u8],
    left: Tip,
    body: Body,
    bytes: &'a [u8],
) -> Option<Found<'a>>
    ensures { Finds found_view result (to_shaft is_beside word.now left body bytes.now) }
{
    let (has_head, rest) = head_at(b'>', bytes);
    let (is_crossed, behind) = edge_tail(rest)?;
    let shaft = Shaft {
        left,
        body,
        right: Tip {
            has_head,
            is_crossed,
        },
    };
    if !is_pointed(shaft) {
        return None;
    }
    let first = Some(End { word, label: None });
    Some(made(is_beside, first, None, shaft, behind))
}

/// An arrow to the edge, with a style after its first dashes.
#[tactic(auto, unfolding(crate::specs::Arrows::to_styled))]
fn to_styled<'a>(is_beside: bool, word: &'a [u8], left: Tip, bytes: &'a [u8]) -> Option<Found<'a>>
    ensures { Finds found_view result (to_styled is_beside word.now left bytes.now) }
{
    let (body, rest) = styled_body(bytes)?;
    to_shaft(is_beside, word, left, body, rest)
}

/// An arrow to the edge, after its left head.
#[tactic(auto, unfolding(crate::specs::Arrows::to_body))]
fn to_body<'a>(is_beside: bool, word: &'a [u8], left: Tip, bytes: &'a [u8]) -> Option<Found<'a>>
    ensures { Finds found_view result (to_body is_beside word.now left bytes.now) }
{
    if let Some(found) = to_styled(is_beside, word, left, bytes) {
        return Some(found);
    }
    let (body, rest) = other_body(bytes)?;
    to_shaft(is_beside, word, left, body, rest)
}

/// An arrow to the edge.
#[tactic(auto, unfolding(crate::specs::Arrows::to_edge))]
fn to_edge(is_beside: bool, bytes: &[u8]) -> Option<Found<'_>>
    ensures { Finds found_view result (to_edge is_beside bytes.now) }
{
    let (word, rest) = name_at(bytes)?;
    let (left, behind_tip) = tip_at(true, begins_blank(rest), behind_blanks(rest));
    to_body(is_beside, word, left, behind_tip)
}

/// The arrow of a statement, if it is one.
#[tactic(auto, unfolding(crate::specs::Arrows::arrow_of))]
pub fn arrow_of(words: &[u8]) -> Option<Found<'_>>
    ensures { Finds found_view result (arrow_of words.now) }
{
    let (is_beside, rest) = row_at(words);
    if let Some(found) = pair_at(is_beside, rest) {
        return Some(found);
    }
    match from_edge(is_beside, rest) {
        Some(found) => Some(found),
        None => to_edge(is_beside, rest),
    }
}
