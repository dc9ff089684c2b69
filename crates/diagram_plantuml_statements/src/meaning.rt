//! The meanings of statements.
ghost use Rattle.std.specs.Prelude.{◌≡◌, map, option_map};
ghost use Rattle.texts.specs.Words.{Finds};
ghost use Rattle.diagram_statements.specs.Statements.{element_view};
ghost use Rattle.diagram_plantuml_statements.specs.Notes.{note_view};
ghost use Rattle.diagram_plantuml_statements.specs.Meanings.{meaning_view, reading_view, is_group, group_at, group_of, is_box, is_box_end, answer_of};
ghost use Rattle.diagram_plantuml_statements.specs.Meanings.{return_of, is_divider};
ghost use Rattle.diagram_plantuml_statements.specs.Meanings.{is_delay, only_name, text_or_none, note_meaning, block_without, noted, referred, alone};
ghost use Rattle.diagram_plantuml_statements.specs.Meanings.{late, listed, declaring, early, reading_of};

use crate::life::{life_of, short_life_of, switch_of};
use crate::look::{Block, block_of, is_early_look, is_late_look};
use crate::note::{Note, behind_comma, note_of, reference_of};
use crate::participant::participant_of;
use diagram_plantuml_arrows::{Class, Found, arrow_of, behind_colour, name_at, row_at};
use diagram_statements::{Element, Group, NoteAt};
use texts::bytes::is_spelled;
use texts::{
    begins_blank, begins_with, behind_blanks, behind_keyword, behind_word, ends_word, stripped,
};

/// The meaning of a statement.
#[derive(Clone, Copy, Debug)]
pub enum Meaning<'a> {
    /// It only concerns how the diagram looks.
    Look,
    Says(Element<'a>),
    Arrow(Found<'a>),
    /// A participant that is activated (`true`), whose activation ends (`false`), or neither.
    Life(&'a [u8], Option<bool>),
    /// It names the participants in these bytes, and is then this element.
    Names(&'a [u8], Element<'a>),
}

/// The meaning of a statement, and the block that it begins.
#[derive(Clone, Copy, Debug)]
pub struct Reading<'a> {
    pub meaning: Meaning<'a>,
    pub block: Option<Block>,
}

/// The words that begin groups.
const GROUPS: [(&[u8], Group); 8] = [
    (b"opt", Group::Choice),
    (b"alt", Group::Choice),
    (b"loop", Group::Choice),
    (b"par2", Group::Parallel),
    (b"par", Group::Parallel),
    (b"break", Group::Break),
    (b"critical", Group::Choice),
    (b"group", Group::Choice),
];

/// Whether a group begins with this word. A colour may follow the word.
#[tactic(auto, unfolding(crate::specs::Meanings::is_group))]
fn is_group(word: &[u8], words: &[u8]) -> bool
    ensures { result ≡ is_group word.now words.now }
{
    match behind_word(word, words) {
        Some(rest) => ends_word(behind_colour(Class::Word, rest)),
        None => false,
    }
}

/// The group that begins with the first of these words.
fn group_at(groups: &[(&[u8], Group)], words: &[u8]) -> Option<Group>
    ensures { result ≡ group_at (map (λ g. (g.0.now, g.1)) groups.now) words.now }
{
    for (word, group) in groups {
        if is_group(*word, words) {
            return Some(*group);
        }
    }
    None
}

/// The beginning, the branch or the end of a group that a statement is.
#[tactic(auto, unfolding(crate::specs::Meanings::group_of))]
fn group_of(words: &[u8]) -> Option<Element<'_>>
    ensures { Finds element_view result (group_of words.now) }
{
    let (_, rest) = row_at(words);
    if let Some(group) = group_at(&GROUPS, rest) {
        return Some(Element::Begin(group));
    }
    if behind_keyword(b"else", rest).is_some() || behind_keyword(b"also", rest).is_some() {
        return Some(Element::Branch);
    }
    if behind_keyword(b"end", rest).is_some() {
        Some(Element::End)
    } else {
        None
    }
}

/// Whether a statement begins a box around participants.
#[tactic(auto, unfolding(crate::specs::Meanings::is_box))]
fn is_box(words: &[u8]) -> bool
    ensures { result ≡ is_box words.now }
{
    match behind_word(b"box", words) {
        Some(rest) => ends_word(rest) || begins_with(rest, b"#"),
        None => false,
    }
}

/// Whether a statement ends a box around participants.
#[tactic(auto, unfolding(crate::specs::Meanings::is_box_end))]
fn is_box_end(words: &[u8]) -> bool
    ensures { result ≡ is_box_end words.now }
{
    match behind_word(b"end", words) {
        Some(rest) => is_spelled(b"box", behind_blanks(rest)),
        None => false,
    }
}

/// The text of a `return` without its colour.
#[tactic(auto, unfolding(crate::specs::Meanings::answer_of))]
fn answer_of(rest: &[u8]) -> &[u8]
    ensures { result.now ≡ answer_of rest.now }
{
    let blanks = behind_blanks(rest);
    let behind = behind_colour(Class::Word, blanks);
    if behind.len() < blanks.len() && begins_blank(behind) {
        stripped(behind)
    } else {
        stripped(rest)
    }
}

/// The `return` of a statement, if it is one.
#[tactic(auto, unfolding(crate::specs::Meanings::return_of))]
fn return_of(words: &[u8]) -> Option<Element<'_>>
    ensures { Finds element_view result (return_of words.now) }
{
    let (is_beside, row) = row_at(words);
    match behind_keyword(b"return", row) {
        Some(rest) => Some(Element::Return {
            label: answer_of(rest),
            is_beside,
        }),
        None => None,
    }
}

/// Whether a statement is a divider.
#[tactic(auto, unfolding(crate::specs::Meanings::is_divider))]
fn is_divider(words: &[u8]) -> bool
    ensures { result ≡ is_divider words.now }
{
    words.len() > 3 && begins_with(words, b"==") && &words[words.len() - 2..] == b"==".as_slice()
}

/// Whether a statement is a delay.
#[tactic(auto, unfolding(crate::specs::Meanings::is_delay))]
fn is_delay(words: &[u8]) -> bool
    ensures { result ≡ is_delay words.now }
{
    begins_with(words, b"...") || begins_with(words, b"\xe2\x80\xa6")
}

/// The word of a single participant, if a note names only one.
#[tactic(auto, unfolding(crate::specs::Meanings::only_name))]
fn only_name(names: &[u8]) -> Option<&[u8]>
    ensures { Finds (λ name. name.now) result (only_name names.now) }
{
    let (name, rest) = name_at(names)?;
    match behind_comma(rest) {
        Some(_) => None,
        None => Some(name),
    }
}

/// A text, or nothing without one.
fn text_or_none(text: Option<&[u8]>) -> &[u8]
    ensures { result.now ≡ text_or_none (option_map (λ text. text.now) text.entry) }
{
    match text {
        Some(text) => text,
        None => &[],
    }
}

/// A note at several participants.
const SEVERAL: Element<'static> = Element::Note {
    at: NoteAt::Several,
    text: &[],
};

/// The meaning of a note.
#[tactic(auto, unfolding(crate::specs::Meanings::note_meaning))]
fn note_meaning(note: Note<'_>) -> Meaning<'_>
    ensures { meaning_view result ≡ note_meaning (note_view note.entry) }
{
    match note.names {
        None => Meaning::Says(Element::Note {
            at: if note.is_across {
                NoteAt::Several
            } else {
                NoteAt::Arrow
            },
            text: &[],
        }),
        Some(names) => match only_name(names) {
            Some(name) => Meaning::Says(Element::Note {
                at: NoteAt::Participant(name),
                text: text_or_none(note.text),
            }),
            None => Meaning::Names(names, SEVERAL),
        },
    }
}

/// The block that begins if there is no text in the same line.
fn block_without(text: Option<&[u8]>, block: Block) -> Option<Block>
    ensures { result ≡ block_without (option_map (λ text. text.now) text.entry) block }
{
    match text {
        Some(_) => None,
        None => Some(block),
    }
}

/// The meaning of a note, and the block that it begins.
#[tactic(auto, unfolding(crate::specs::Meanings::noted))]
fn noted(words: &[u8]) -> Option<Reading<'_>>
    ensures { Finds reading_view result (noted words.now) }
{
    match note_of(words) {
        Some(note) => Some(Reading {
            meaning: note_meaning(note),
            block: block_without(note.text, Block::Note),
        }),
        None => None,
    }
}

/// The meaning of a reference, and the block that it begins.
#[tactic(auto, unfolding(crate::specs::Meanings::referred))]
fn referred(words: &[u8]) -> Option<Reading<'_>>
    ensures { Finds reading_view result (referred words.now) }
{
    let note = reference_of(words)?;
    let names = note.names?;
    Some(Reading {
        meaning: Meaning::Names(names, Element::Reference),
        block: block_without(note.text, Block::Reference),
    })
}

/// A meaning without a block.
fn alone(meaning: Meaning<'_>) -> Option<Reading<'_>>
    ensures { option_map reading_view result ≡ alone (meaning_view meaning.entry) }
{
    Some(Reading {
        meaning,
        block: None,
    })
}

/// The meaning of a statement that has one of the last forms.
#[tactic(auto, unfolding(crate::specs::Meanings::late))]
fn late(words: &[u8]) -> Option<Reading<'_>>
    ensures { Finds reading_view result (late words.now) }
{
    if let Some(element) = return_of(words) {
        return alone(Meaning::Says(element));
    }
    if let Some(reading) = referred(words) {
        return Some(reading);
    }
    if let Some(element) = switch_of(words) {
        return alone(Meaning::Says(element));
    }
    if is_divider(words) {
        return alone(Meaning::Says(Element::Divider));
    }
    if is_delay(words) {
        return alone(Meaning::Says(Element::Delay));
    }
    if is_late_look(words) {
        alone(Meaning::Look)
    } else {
        None
    }
}

/// The meaning of a statement that is no arrow.
#[tactic(auto, unfolding(crate::specs::Meanings::listed))]
fn listed(words: &[u8]) -> Option<Reading<'_>>
    ensures { Finds reading_view result (listed words.now) }
{
    if let Some(reading) = noted(words) {
        return Some(reading);
    }
    if is_box(words) {
        return alone(Meaning::Says(Element::Box));
    }
    if is_box_end(words) {
        return alone(Meaning::Look);
    }
    if let Some(element) = group_of(words) {
        return alone(Meaning::Says(element));
    }
    match short_life_of(words) {
        Some(meaning) => alone(meaning),
        None => late(words),
    }
}

/// The meaning of a statement that names a participant.
#[tactic(auto, unfolding(crate::specs::Meanings::declaring))]
fn declaring(words: &[u8]) -> Option<Reading<'_>>
    ensures { Finds reading_view result (declaring words.now) }
{
    match participant_of(words) {
        Some(declared) => Some(Reading {
            meaning: Meaning::Says(Element::Named(declared.end)),
            block: if declared.opens {
                Some(Block::Participant)
            } else {
                None
            },
        }),
        None => None,
    }
}

/// The meaning of a statement that has one of the first forms.
#[tactic(auto, unfolding(crate::specs::Meanings::early))]
fn early(words: &[u8]) -> Option<Reading<'_>>
    ensures { Finds reading_view result (early words.now) }
{
    if is_early_look(words) {
        return alone(Meaning::Look);
    }
    if let Some(block) = block_of(words) {
        return Some(Reading {
            meaning: Meaning::Look,
            block: Some(block),
        });
    }
    if let Some(meaning) = life_of(words) {
        return alone(meaning);
    }
    if let Some(reading) = declaring(words) {
        return Some(reading);
    }
    if is_spelled(b"deactivate", words) {
        alone(Meaning::Says(Element::Deactivate))
    } else {
        None
    }
}

/// The meaning of a statement, if it can be read: that of the first of these forms that it has.
#[tactic(auto, unfolding(crate::specs::Meanings::reading_of))]
pub fn reading_of(words: &[u8]) -> Option<Reading<'_>>
    ensures { Finds reading_view result (reading_of words.now) }
{
    if let Some(reading) = early(words) {
        return Some(reading);
    }
    match arrow_of(words) {
        Some(found) => alone(Meaning::Arrow(found)),
        None => listed(words),
    }
}
