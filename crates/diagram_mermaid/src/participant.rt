//! Statements that name a participant.
ghost use Rattle.std.specs.Prelude.{◌≡◌, ◌≤◌, ◌<◌, ◌+◌, length, drop, take, option_map, IfSome, Some};
ghost use Rattle.texts.specs.Words.{Finds};
ghost use Rattle.diagram_statements.specs.Statements.{end_view, element_view};
ghost use Rattle.diagram_mermaid.specs.Participants.{behind_create, behind_participant, label_at, label_here, first_label, tail_at, kind_tail, kind_in};
ghost use Rattle.diagram_mermaid.specs.Participants.{split_in, participant_of, LabelView, label_view, split_view};

use crate::names::is_listed;
use crate::text::text_of;
use diagram_statements::{Element, End};
use texts::bytes::is_blank;
use texts::{behind_blanks, behind_keyword, behind_keyword_of, end_stripped, ends_word, place_of};

/// A label, and the number of bytes before its `as`.
#[derive(Clone, Copy, Debug)]
pub(crate) struct Label<'a> {
    pub before: usize,
    pub label: &'a [u8],
}

/// The end of a participant's word, and its label, if it has one.
#[derive(Clone, Copy, Debug)]
pub(crate) struct Split<'a> {
    pub before: usize,
    pub label: Option<&'a [u8]>,
}

/// The text that may follow the kind of a participant.
#[derive(Clone, Copy, Debug)]
pub(crate) struct Tail<'a> {
    pub label: Option<&'a [u8]>,
}

/// The text after the word for a creation, if it comes next.
#[tactic(auto, unfolding(crate::specs::Participants::behind_create))]
fn behind_create(words: &[u8]) -> &[u8]
    ensures { result.now ≡ behind_create words.now }
{
    match behind_keyword(b"create", words) {
        Some(rest) => behind_blanks(rest),
        None => words,
    }
}

/// The text after the words for a participant, if it is more than blanks.
#[tactic(auto, unfolding(crate::specs::Participants::behind_participant))]
pub(crate) fn behind_participant(words: &[u8]) -> Option<&[u8]>
    ensures { Finds (λ rest. rest.now) result (behind_participant words.now) }
{
    let Some(rest) = behind_keyword_of(&[b"participant", b"actor"], behind_create(words)) else {
        return None;
    };
    let named = behind_blanks(rest);
    if named.is_empty() { None } else { Some(named) }
}

/// The label after the `as` that comes next.
#[tactic(auto, unfolding(crate::specs::Participants::label_at))]
fn label_at(bytes: &[u8]) -> Option<&[u8]>
    ensures { Finds (λ label. label.now) result (label_at bytes.now) }
{
    match behind_keyword(b"as", bytes) {
        Some(rest) if !rest.is_empty() => Some(behind_blanks(rest)),
        _ => None,
    }
}

/// The label after the `as` that comes next, if a blank is before it.
fn label_here(before: u8, bytes: &[u8]) -> Option<&[u8]>
    ensures { Finds (λ label. label.now) result (label_here before bytes.now) }
{
    if is_blank(before) {
        label_at(bytes)
    } else {
        None
    }
}

/// The first label. `first` is the byte before the others.
#[tactic(auto, unfolding(crate::specs::Participants::first_label), using(crate::proofs::LabelLoops::moved_on))]
fn first_label(first: u8, bytes: &[u8]) -> Option<Label<'_>>
    ensures value { Finds label_view result (first_label first bytes.now) }
    ensures within { IfSome result (λ label. label.before ≤ length bytes.now) }
{
    let mut last = first;
    let mut before = 0;
    let mut rest = bytes;
    'bytes: while let [byte, others @ ..] = rest {
        if let Some(label) = label_here(last, rest) {
            return Some(Label { before, label });
        }
        last = *byte;
        before += 1;
        rest = others;
    }
    None
}

/// The text after a kind: nothing, or a label.
#[tactic(auto, unfolding(crate::specs::Participants::tail_at))]
fn tail_at(bytes: &[u8]) -> Option<Tail<'_>>
    ensures { Finds (λ tail. option_map (λ label. label.now) tail.label) result (tail_at bytes.now) }
{
    if bytes.is_empty() {
        return Some(Tail { label: None });
    }
    if !ends_word(bytes) {
        return None;
    }
    match label_at(behind_blanks(bytes)) {
        Some(label) => Some(Tail { label: Some(label) }),
        None => None,
    }
}

/// The text after the brace that ends a kind.
#[tactic(auto, unfolding(crate::specs::Participants::kind_tail))]
fn kind_tail(bytes: &[u8]) -> Option<Tail<'_>>
    ensures { Finds (λ tail. option_map (λ label. label.now) tail.label) result (kind_tail bytes.now) }
{
    let mut rest = bytes;
    'bytes: while let [byte, others @ ..] = rest {
        if *byte == b'}' {
            if let Some(tail) = tail_at(others) {
                return Some(tail);
            }
        }
        rest = others;
    }
    None
}

/// The end of a word before its kind, and the label after the kind.
#[tactic(auto, unfolding(crate::specs::Participants::kind_in))]
fn kind_in(words: &[u8]) -> Option<Split<'_>>
    ensures value { Finds split_view result (kind_in words.now) }
    ensures within { IfSome result (λ split. split.before ≤ length words.now) }
{
    let [_, others @ ..] = words else {
        return None;
    };
    let Some(place) = place_of(b"@{", others) else {
        return None;
    };
    match kind_tail(&others[place + 2..]) {
        Some(tail) => Some(Split {
            before: place + 1,
            label: tail.label,
        }),
        None => None,
    }
}

/// The end of the word, and the label after it. The word ends before a kind or before an `as`, whichever comes first.
#[tactic(auto, unfolding(crate::specs::Participants::split_in))]
fn split_in(words: &[u8]) -> Split<'_>
    ensures value { split_view result ≡ split_in words.now }
    ensures within { result.before ≤ length words.now }
{
    match (kind_in(words), first_label(0, words)) {
        (None, None) => Split {
            before: words.len(),
            label: None,
        },
        (Some(kind), None) => kind,
        (None, Some(label)) => Split {
            before: label.before,
            label: Some(label.label),
        },
        (Some(kind), Some(label)) => {
            if label.before < kind.before {
                Split {
                    before: label.before,
                    label: Some(label.label),
                }
            } else {
                kind
            }
        }
    }
}

/// The participant that these words name, if its word is one.
#[tactic(auto, unfolding(crate::specs::Participants::participant_of))]
pub(crate) fn participant_of(words: &[u8]) -> Option<Element<'_>>
    ensures { Finds element_view result (participant_of words.now) }
{
    let split = split_in(words);
    let word = end_stripped(&words[..split.before]);
    if !is_listed(word) {
        return None;
    }
    match split.label {
        None => Some(Element::Named(End { word, label: None })),
        Some(label) => Some(Element::Renamed(End {
            word,
            label: Some(text_of(label)),
        })),
    }
}
