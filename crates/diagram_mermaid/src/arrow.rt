//! Arrows.
ghost use Rattle.std.specs.Prelude.{◌≡◌, take, drop, ◌+◌};
ghost use Rattle.texts.specs.Words.{Finds};
ghost use Rattle.diagram_statements.specs.Statements.{arrow_view};
ghost use Rattle.diagram_mermaid.specs.Arrows.{plain_receiver, active_receiver, receiver_of, sender_of, goes_back, form_of, between, arrow_of};

use crate::names::is_word;
use crate::sign::{Direction, first_sign};
use crate::text::{before_colon, text_in};
use diagram_statements::{Arrow, ArrowForm, End};
use texts::{behind_blanks, stripped};

/// The word of these bytes, if they are one.
#[tactic(auto, unfolding(crate::specs::Arrows::plain_receiver))]
fn plain_receiver(bytes: &[u8]) -> Option<&[u8]>
    ensures { Finds (λ word. word.now) result (plain_receiver bytes.now) }
{
    if is_word(bytes) {
        Some(stripped(bytes))
    } else {
        None
    }
}

/// The word after a sign of activation.
fn active_receiver(bytes: &[u8]) -> Option<&[u8]>
    ensures { Finds (λ word. word.now) result (active_receiver bytes.now) }
{
    let [sign, rest @ ..] = bytes else {
        return None;
    };
    if *sign == b'+' || *sign == b'-' {
        plain_receiver(rest)
    } else {
        None
    }
}

/// The word after the sign of an arrow. A sign of activation may come before it.
#[tactic(auto, unfolding(crate::specs::Arrows::receiver_of))]
fn receiver_of(bytes: &[u8]) -> Option<&[u8]>
    ensures { Finds (λ word. word.now) result (receiver_of bytes.now) }
{
    match active_receiver(behind_blanks(bytes)) {
        Some(word) => Some(word),
        None => plain_receiver(bytes),
    }
}

/// The word before the sign of an arrow.
#[tactic(auto, unfolding(crate::specs::Arrows::sender_of))]
fn sender_of(bytes: &[u8]) -> Option<&[u8]>
    ensures { Finds (λ word. word.now) result (sender_of bytes.now) }
{
    plain_receiver(stripped(bytes))
}

fn goes_back(direction: Direction) -> bool
    ensures { result ≡ goes_back direction }
{
    match direction {
        Direction::Back => true,
        Direction::Forth | Direction::Both | Direction::Lost => false,
    }
}

fn form_of(direction: Direction) -> ArrowForm
    ensures { result ≡ form_of direction }
{
    match direction {
        Direction::Forth | Direction::Back => ArrowForm::Message,
        Direction::Both => ArrowForm::BothWays,
        Direction::Lost => ArrowForm::Lost,
    }
}

/// An arrow of this direction between two participants.
fn between<'a>(
    direction: Direction,
    first: &'a [u8],
    second: &'a [u8],
    label: &'a [u8],
) -> Arrow<'a>
    ensures { arrow_view result ≡ between direction first.now second.now label.now }
{
    Arrow {
        first: Some(End {
            word: first,
            label: None,
        }),
        second: Some(End {
            word: second,
            label: None,
        }),
        goes_back: goes_back(direction),
        form: form_of(direction),
        label,
        is_beside: false,
        activates: None,
    }
}

/// The arrow of a statement, if it is one. The first sign of an arrow in it counts.
#[tactic(auto, unfolding(crate::specs::Arrows::arrow_of))]
pub(crate) fn arrow_of(words: &[u8]) -> Option<Arrow<'_>>
    ensures { Finds arrow_view result (arrow_of words.now) }
{
    let Some(sign) = first_sign(words) else {
        return None;
    };
    let Some(first) = sender_of(&words[..sign.before]) else {
        return None;
    };
    let rest = &words[sign.before + sign.length..];
    match receiver_of(before_colon(rest)) {
        Some(second) => Some(between(sign.direction, first, second, text_in(rest))),
        None => None,
    }
}
