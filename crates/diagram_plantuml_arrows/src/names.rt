//! Participants in statements.
ghost use Rattle.std.specs.Prelude.{◌≡◌, ◌<◌, length, IfSome};
ghost use Rattle.texts.specs.Words.{Finds};
ghost use Rattle.diagram_statements.specs.Statements.{end_view};
ghost use Rattle.diagram_plantuml_arrows.specs.Names.{quoted_at, name_at, behind_gap, plain_end, word_behind_as, label_behind_as, labelled_end, worded_end, participant_at};

use crate::runs::{Class, behind_byte, run_at};
use diagram_statements::End;
use texts::bytes::is_blank;
use texts::{behind_blanks, behind_word};

/// The text between two quotation marks that come next, and the text after them. It has at least one byte.
#[tactic(auto, unfolding(crate::specs::Names::quoted_at))]
pub fn quoted_at(bytes: &[u8]) -> Option<(&[u8], &[u8])>
    ensures shorter { IfSome result (λ text. length text.1.now < length bytes.now) }
    ensures text { Finds (λ text. (text.0.now, text.1.now)) result (quoted_at bytes.now) }
{
    let inner = behind_byte(b'"', bytes)?;
    let (text, behind) = run_at(Class::Quoted, inner)?;
    let rest = behind_byte(b'"', behind)?;
    Some((text, rest))
}

/// The name that comes next: a word, or the text between two quotation marks.
#[tactic(auto, unfolding(crate::specs::Names::name_at))]
pub fn name_at(bytes: &[u8]) -> Option<(&[u8], &[u8])>
    ensures shorter { IfSome result (λ name. length name.1.now < length bytes.now) }
    ensures name { Finds (λ name. (name.0.now, name.1.now)) result (name_at bytes.now) }
{
    match run_at(Class::Name, bytes) {
        Some(word) => Some(word),
        None => quoted_at(bytes),
    }
}

/// The text after blanks, of which at least one has to come next.
pub fn behind_gap(bytes: &[u8]) -> Option<&[u8]>
    ensures { Finds (λ rest. rest.now) result (behind_gap bytes.now) }
{
    match bytes {
        [byte, rest @ ..] if is_blank(*byte) => Some(behind_blanks(rest)),
        _ => None,
    }
}

/// A participant without a label.
fn plain_end(word: &[u8]) -> End<'_>
    ensures { end_view result ≡ plain_end word.now }
{
    End { word, label: None }
}

/// The word after a label and `as`.
#[tactic(auto, unfolding(crate::specs::Names::word_behind_as))]
fn word_behind_as(bytes: &[u8]) -> Option<(&[u8], &[u8])>
    ensures { Finds (λ word. (word.0.now, word.1.now)) result (word_behind_as bytes.now) }
{
    let behind = behind_word(b"as", behind_blanks(bytes))?;
    run_at(Class::Name, behind_gap(behind)?)
}

/// The label after a word and `as`.
#[tactic(auto, unfolding(crate::specs::Names::label_behind_as))]
fn label_behind_as(bytes: &[u8]) -> Option<(&[u8], &[u8])>
    ensures { Finds (λ label. (label.0.now, label.1.now)) result (label_behind_as bytes.now) }
{
    let behind = behind_word(b"as", behind_gap(bytes)?)?;
    quoted_at(behind_blanks(behind))
}

/// A participant that begins with its label.
#[tactic(auto, unfolding(crate::specs::Names::labelled_end))]
fn labelled_end<'a>(label: &'a [u8], rest: &'a [u8]) -> (End<'a>, &'a [u8])
    ensures { (end_view result.0, result.1.now) ≡ labelled_end label.now rest.now }
{
    match word_behind_as(rest) {
        Some((word, behind)) => (
            End {
                word,
                label: Some(label),
            },
            behind,
        ),
        None => (plain_end(label), rest),
    }
}

/// A participant that begins with its word.
#[tactic(auto, unfolding(crate::specs::Names::worded_end))]
fn worded_end<'a>(word: &'a [u8], rest: &'a [u8]) -> (End<'a>, &'a [u8])
    ensures { (end_view result.0, result.1.now) ≡ worded_end word.now rest.now }
{
    match label_behind_as(rest) {
        Some((label, behind)) => (
            End {
                word,
                label: Some(label),
            },
            behind,
        ),
        None => (plain_end(word), rest),
    }
}

/// The participant of an arrow that comes next, perhaps with its label, and the text after it.
#[tactic(auto, unfolding(crate::specs::Names::participant_at))]
pub(crate) fn participant_at(bytes: &[u8]) -> Option<(End<'_>, &[u8])>
    ensures { Finds (λ end. (end_view end.0, end.1.now)) result (participant_at bytes.now) }
{
    if let Some((label, rest)) = quoted_at(bytes) {
        return Some(labelled_end(label, rest));
    }
    match run_at(Class::Name, bytes) {
        Some((word, rest)) => Some(worded_end(word, rest)),
        None => None,
    }
}
