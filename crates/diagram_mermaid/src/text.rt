//! Texts of messages and notes.
ghost use Rattle.std.specs.Prelude.{◌≡◌};
ghost use Rattle.texts.specs.Words.{Finds};
ghost use Rattle.diagram_mermaid.specs.Texts.{behind_wrap, text_of, before_colon, behind_colon, text_in};

use texts::{behind_blanks, behind_word, first_place, skip_word, stripped};

/// The text after the word about its wrapping, if it begins with one.
#[tactic(auto, unfolding(crate::specs::Texts::behind_wrap))]
fn behind_wrap(bytes: &[u8]) -> Option<&[u8]>
    ensures { Finds (λ rest. rest.now) result (behind_wrap bytes.now) }
{
    behind_word(
        b"wrap:",
        skip_word(b"no", skip_word(b":", behind_blanks(bytes))),
    )
}

/// A text without the word about its wrapping, and without the blanks at its ends.
#[tactic(auto, unfolding(crate::specs::Texts::text_of))]
pub(crate) fn text_of(bytes: &[u8]) -> &[u8]
    ensures { result.now ≡ text_of bytes.now }
{
    match behind_wrap(bytes) {
        Some(rest) => stripped(rest),
        None => stripped(bytes),
    }
}

/// The text before the first colon.
#[tactic(auto, unfolding(crate::specs::Texts::before_colon))]
pub(crate) fn before_colon(bytes: &[u8]) -> &[u8]
    ensures { result.now ≡ before_colon bytes.now }
{
    match first_place(b':', bytes) {
        Some(place) => &bytes[..place],
        None => bytes,
    }
}

/// The text after the first colon, if there is one.
#[tactic(auto, unfolding(crate::specs::Texts::behind_colon))]
pub(crate) fn behind_colon(bytes: &[u8]) -> Option<&[u8]>
    ensures { Finds (λ rest. rest.now) result (behind_colon bytes.now) }
{
    match first_place(b':', bytes) {
        Some(place) => Some(&bytes[place + 1..]),
        None => None,
    }
}

/// The text after the first colon, or nothing without a colon.
#[tactic(auto, unfolding(crate::specs::Texts::text_in))]
pub(crate) fn text_in(bytes: &[u8]) -> &[u8]
    ensures { result.now ≡ text_in bytes.now }
{
    match behind_colon(bytes) {
        Some(rest) => text_of(rest),
        None => &[],
    }
}
