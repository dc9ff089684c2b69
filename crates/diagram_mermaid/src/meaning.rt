//! The meanings of statements.
ghost use Rattle.std.specs.Prelude.{◌≡◌, ◌++◌, [], map, OnOk, IfOk};
ghost use Rattle.texts.specs.Words.{Finds, begins_blank};
ghost use Rattle.diagram_statements.specs.Statements.{element_view, statement_view};
ghost use Rattle.diagram_mermaid.specs.Meanings.{meaning_view, keyword_at, keyword_of, is_alone, is_title, is_link};
ghost use Rattle.diagram_mermaid.specs.Meanings.{is_look, listed_of, activation_of, note_meaning, by_form, meaning_of, statements_of, says, Adds};

use crate::arrow::arrow_of;
use crate::names::is_listed;
use crate::note::{Note, add_names, note_of};
use crate::participant::{behind_participant, participant_of};
use diagram_statements::{Element, End, Group, NoteAt, Place, Statement};
use std::alloc::AllocError;
use texts::bytes::is_blank;
use texts::{
    begins_blank, begins_with, behind_blanks, behind_keyword, behind_keyword_of, behind_word,
    first_place, skip_word, stripped,
};

/// The meaning of a statement.
#[derive(Clone, Copy, Debug)]
pub(crate) enum Meaning<'a> {
    /// It only concerns how the diagram looks.
    Look,
    Says(Element<'a>),
    /// A note at several participants, with commas between their words.
    Notes(&'a [u8]),
}

/// The meanings of words that begin a statement, alone or before a blank.
const KEYWORDS: [(&[u8], Element<'static>); 12] = [
    (b"alt", Element::Begin(Group::Choice)),
    (b"opt", Element::Begin(Group::Choice)),
    (b"loop", Element::Begin(Group::Choice)),
    (b"par", Element::Begin(Group::Parallel)),
    (b"par_over", Element::Begin(Group::Parallel)),
    (b"critical", Element::Begin(Group::Choice)),
    (b"break", Element::Begin(Group::Break)),
    (b"box", Element::BeginBox),
    (b"rect", Element::BeginBox),
    (b"else", Element::Branch),
    (b"and", Element::Branch),
    (b"option", Element::Branch),
];

/// The meaning of the first of these words with which a statement begins.
fn keyword_at(keywords: &[(&[u8], Element<'static>)], words: &[u8]) -> Option<Element<'static>>
    ensures { Finds element_view result (keyword_at (map (λ k. (k.0.now, element_view k.1)) keywords.now) words.now) }
{
    for (known, element) in keywords {
        if behind_keyword(*known, words).is_some() {
            return Some(*element);
        }
    }
    None
}

/// The meaning of a word with which a statement begins.
#[tactic(auto, unfolding(crate::specs::Meanings::keyword_of))]
fn keyword_of(words: &[u8]) -> Option<Element<'static>>
    ensures { Finds element_view result (keyword_of words.now) }
{
    keyword_at(&KEYWORDS, words)
}

/// Whether a statement is this word. A comment may follow it.
#[tactic(auto, unfolding(crate::specs::Meanings::is_alone))]
fn is_alone(known: &[u8], words: &[u8]) -> bool
    ensures { result ≡ is_alone known.now words.now }
{
    match behind_word(known, words) {
        Some(rest) => rest.is_empty() || begins_with(behind_blanks(rest), b"%%"),
        None => false,
    }
}

/// Whether a title follows its word.
#[tactic(auto, unfolding(crate::specs::Meanings::is_title))]
fn is_title(words: &[u8]) -> bool
    ensures { result ≡ is_title words.now }
{
    match behind_word(b"title", words) {
        Some(rest) => begins_blank(skip_word(b":", rest)),
        None => false,
    }
}

/// Whether more follows a word about a participant.
#[tactic(auto, unfolding(crate::specs::Meanings::is_link))]
fn is_link(words: &[u8]) -> bool
    ensures { result ≡ is_link words.now }
{
    match behind_keyword_of(&[b"link", b"links", b"properties", b"details"], words) {
        Some(rest) => begins_blank(rest),
        None => false,
    }
}

/// Whether a statement only concerns how the diagram looks.
#[tactic(auto, unfolding(crate::specs::Meanings::is_look))]
fn is_look(words: &[u8]) -> bool
    ensures { result ≡ is_look words.now }
{
    is_alone(b"sequenceDiagram", words)
        || behind_keyword(b"autonumber", words).is_some()
        || is_title(words)
        || is_link(words)
}

/// The participant that these bytes name, if they are its word.
#[tactic(auto, unfolding(crate::specs::Meanings::listed_of))]
fn listed_of(bytes: &[u8]) -> Option<Element<'_>>
    ensures { Finds element_view result (listed_of bytes.now) }
{
    if is_listed(bytes) {
        Some(Element::Named(End {
            word: stripped(bytes),
            label: None,
        }))
    } else {
        None
    }
}

/// The participant that an activation names.
#[tactic(auto, unfolding(crate::specs::Meanings::activation_of))]
fn activation_of(words: &[u8]) -> Option<Element<'_>>
    ensures { Finds element_view result (activation_of words.now) }
{
    match behind_keyword_of(&[b"activate", b"deactivate", b"destroy"], words) {
        Some([_, name @ ..]) => listed_of(name),
        _ => None,
    }
}

/// The meaning of a note.
#[tactic(auto, unfolding(crate::specs::Meanings::note_meaning))]
fn note_meaning(note: Note<'_>) -> Meaning<'_>
    ensures { meaning_view result ≡ note_meaning (note.entry.names.now, note.entry.text.now) }
{
    match first_place(b',', note.names) {
        Some(_) => Meaning::Notes(note.names),
        None => Meaning::Says(Element::Note {
            at: NoteAt::Participant(stripped(note.names)),
            text: note.text,
        }),
    }
}

/// The meaning of a statement that is neither a participant nor a note.
#[tactic(auto, unfolding(crate::specs::Meanings::by_form))]
fn by_form(words: &[u8]) -> Option<Meaning<'_>>
    ensures { Finds meaning_view result (by_form words.now) }
{
    if let Some(element) = activation_of(words) {
        return Some(Meaning::Says(element));
    }
    if let Some(element) = keyword_of(words) {
        return Some(Meaning::Says(element));
    }
    if is_alone(b"end", words) {
        return Some(Meaning::Says(Element::End));
    }
    if is_look(words) {
        return Some(Meaning::Look);
    }
    match arrow_of(words) {
        Some(arrow) => Some(Meaning::Says(Element::Arrow(arrow))),
        None => None,
    }
}

/// The meaning of a statement, if it can be read.
#[tactic(auto, unfolding(crate::specs::Meanings::meaning_of))]
fn meaning_of(words: &[u8]) -> Option<Meaning<'_>>
    ensures { Finds meaning_view result (meaning_of words.now) }
{
    if let Some(named) = behind_participant(words) {
        return match participant_of(named) {
            Some(element) => Some(Meaning::Says(element)),
            None => None,
        };
    }
    match note_of(words) {
        Some(note) => Some(note_meaning(note)),
        None => by_form(words),
    }
}

/// Adds the statements of a meaning at this place.
fn add_meaning<'a>(
    place: Place,
    meaning: Meaning<'a>,
    statements: &mut Vec<Statement<'a>>,
) -> Result<(), AllocError>
    ensures { OnOk result (map statement_view statements.new.items
        ≡ map statement_view statements.old.items ++ statements_of place (meaning_view meaning.entry)) }
{
    match meaning {
        Meaning::Look => Ok(()),
        Meaning::Says(element) => {
            statements.push(Statement { place, element })?;
            Ok(())
        }
        Meaning::Notes(names) => {
            add_names(place, names, statements)?;
            statements.push(Statement {
                place,
                element: Element::Note {
                    at: NoteAt::Several,
                    text: &[],
                },
            })?;
            Ok(())
        }
    }
}

/// Adds the statements of these words, if they can be read.
#[tactic(auto, unfolding(crate::specs::Meanings::says))]
pub(crate) fn add_statement<'a>(
    place: Place,
    words: &'a [u8],
    statements: &mut Vec<Statement<'a>>,
) -> Result<bool, AllocError>
    ensures { IfOk result (λ is_read. Adds is_read (map statement_view statements.old.items)
        (map statement_view statements.new.items) (says place words.now)) }
{
    match meaning_of(words) {
        Some(meaning) => {
            add_meaning(place, meaning, statements)?;
            Ok(true)
        }
        None => Ok(false),
    }
}
