//! The bodies of arrows: dashes, with a style in brackets.
ghost use Rattle.std.specs.Prelude.{◌≡◌, true};
ghost use Rattle.texts.specs.Words.{Finds};
ghost use Rattle.diagram_plantuml_arrows.specs.Bodies.{is_entry, has_style, styled, style_at, dashes_at, styled_body, plain_body, early_body, other_body, body_at};

use crate::runs::{Class, behind_byte, run_at, run_length};
use texts::{behind_blanks, behind_word};

/// The body of an arrow.
#[derive(Clone, Copy, Debug)]
pub(crate) struct Body {
    pub is_dotted: bool,
    pub is_hidden: bool,
}

/// Whether this word comes next, up to a comma or the end.
#[tactic(auto, unfolding(crate::specs::Bodies::is_entry))]
fn is_entry(word: &[u8], bytes: &[u8]) -> bool
    ensures { result ≡ is_entry word.now bytes.now }
{
    match behind_word(word, behind_blanks(bytes)) {
        Some(rest) => match behind_blanks(rest) {
            [] => true,
            [byte, ..] => *byte == b',',
        },
        None => false,
    }
}

/// Whether a style has this word. A comma ends each of its words.
#[tactic(auto, unfolding(crate::specs::Bodies::has_style))]
fn has_style(word: &[u8], style: &[u8]) -> bool
    ensures { result ≡ has_style true word.now style.now }
{
    let mut begins = true;
    let mut rest = style;
    'bytes: while let [byte, others @ ..] = rest {
        if begins && is_entry(word, rest) {
            return true;
        }
        begins = *byte == b',';
        rest = others;
    }
    false
}

/// A body with this style, and with several dashes or one.
#[tactic(auto, unfolding(crate::specs::Bodies::styled))]
fn styled(is_long: bool, style: &[u8]) -> Body
    ensures { result ≡ styled is_long style.now }
{
    Body {
        is_dotted: is_long || has_style(b"dotted", style) || has_style(b"dashed", style),
        is_hidden: has_style(b"hidden", style),
    }
}

/// A style in brackets, and the text after it.
#[tactic(auto, unfolding(crate::specs::Bodies::style_at))]
fn style_at(bytes: &[u8]) -> Option<(&[u8], &[u8])>
    ensures { Finds (λ style. (style.0.now, style.1.now)) result (style_at bytes.now) }
{
    let inner = behind_byte(b'[', bytes)?;
    let length = run_length(Class::Bracketed, inner);
    let rest = behind_byte(b']', &inner[length..])?;
    Some((&inner[..length], rest))
}

/// Dashes, of which at least one has to come next: whether there are several, and the text after them.
#[tactic(auto, unfolding(crate::specs::Bodies::dashes_at))]
fn dashes_at(bytes: &[u8]) -> Option<(bool, &[u8])>
    ensures { Finds (λ dashes. (dashes.0, dashes.1.now)) result (dashes_at bytes.now) }
{
    let (dashes, rest) = run_at(Class::Dash, bytes)?;
    Some((dashes.len() > 1, rest))
}

/// A body with a style after its first dashes.
#[tactic(auto, unfolding(crate::specs::Bodies::styled_body))]
pub(crate) fn styled_body(bytes: &[u8]) -> Option<(Body, &[u8])>
    ensures { Finds (λ body. (body.0, body.1.now)) result (styled_body bytes.now) }
{
    let (is_long, behind) = dashes_at(bytes)?;
    let (style, rest) = style_at(behind)?;
    let more = run_length(Class::Dash, rest);
    Some((styled(is_long || more > 0, style), &rest[more..]))
}

/// A body without a style.
#[tactic(auto, unfolding(crate::specs::Bodies::plain_body))]
fn plain_body(bytes: &[u8]) -> Option<(Body, &[u8])>
    ensures { Finds (λ body. (body.0, body.1.now)) result (plain_body bytes.now) }
{
    let (is_long, rest) = dashes_at(bytes)?;
    Some((styled(is_long, &[]), rest))
}

/// A body that begins with its style.
#[tactic(auto, unfolding(crate::specs::Bodies::early_body))]
fn early_body(bytes: &[u8]) -> Option<(Body, &[u8])>
    ensures { Finds (λ body. (body.0, body.1.now)) result (early_body bytes.now) }
{
    let (style, behind) = style_at(bytes)?;
    let (is_long, rest) = dashes_at(behind)?;
    Some((styled(is_long, style), rest))
}

/// A body without a style after its first dashes.
#[tactic(auto, unfolding(crate::specs::Bodies::other_body))]
pub(crate) fn other_body(bytes: &[u8]) -> Option<(Body, &[u8])>
    ensures { Finds (λ body. (body.0, body.1.now)) result (other_body bytes.now) }
{
    match plain_body(bytes) {
        Some(body) => Some(body),
        None => early_body(bytes),
    }
}

/// The body that comes next, and the text after it.
#[tactic(auto, unfolding(crate::specs::Bodies::body_at))]
pub(crate) fn body_at(bytes: &[u8]) -> Option<(Body, &[u8])>
    ensures { Finds (λ body. (body.0, body.1.now)) result (body_at bytes.now) }
{
    match styled_body(bytes) {
        Some(body) => Some(body),
        None => other_body(bytes),
    }
}
