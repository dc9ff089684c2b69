//! Notes and references.
ghost use Rattle.std.specs.Prelude.{◌≡◌, ◌<◌, ◌++◌, ◌∷◌, [], map, length, IfSome, OnOk, option_map};
ghost use Rattle.texts.specs.Words.{Finds};
ghost use Rattle.diagram_statements.specs.Statements.{statement_view};
ghost use Rattle.diagram_plantuml_statements.specs.Notes.{note_view, behind_comma, behind_names, name_statement, name_statements, behind_stereotype, note_word};
ghost use Rattle.diagram_plantuml_statements.specs.Notes.{behind_slash, behind_note, placed_at, side_word, behind_of, placed_of, placed, unplaced, bare};
ghost use Rattle.diagram_plantuml_statements.specs.Notes.{across, note_of, reference_of};

use diagram_plantuml_arrows::{
    Class, Tail, behind_byte, behind_colour, behind_gap, colon_tail, coloured_tail, name_at, row_at,
};
use diagram_statements::{Element, End, Place, Statement};
use std::alloc::AllocError;
use texts::{begins_with, behind_blanks, behind_word, place_of};

/// A note or a reference.
#[derive(Clone, Copy, Debug)]
pub(crate) struct Note<'a> {
    /// The beginning of its participants' names, if it has any.
    pub names: Option<&'a [u8]>,
    /// Whether it is at all participants.
    pub is_across: bool,
    /// Its text, if that is in this line.
    pub text: Option<&'a [u8]>,
}

/// The text after a comma and the blanks around it.
#[tactic(auto, unfolding(crate::specs::Notes::behind_comma))]
pub(crate) fn behind_comma(bytes: &[u8]) -> Option<&[u8]>
    ensures rest { Finds (λ rest. rest.now) result (behind_comma bytes.now) }
    ensures shorter { IfSome result (λ rest. length rest.now < length bytes.now) }
{
    match behind_byte(b',', behind_blanks(bytes)) {
        Some(rest) => Some(behind_blanks(rest)),
        None => None,
    }
}

/// The text after names with commas between them. At least one name has to come next.
fn behind_names(bytes: &[u8]) -> Option<&[u8]>
    ensures { Finds (λ rest. rest.now) result (behind_names bytes.now) }
{
    let mut rest = bytes;
    'names: loop {
        let Some((_, behind)) = name_at(rest) else {
            return None;
        };
        match behind_comma(behind) {
            Some(next) => rest = next,
            None => return Some(behind),
        }
    }
}

/// Adds a statement that names this participant.
fn add_name<'a>(
    place: Place,
    word: &'a [u8],
    statements: &mut Vec<Statement<'a>>,
) -> Result<(), AllocError>
    ensures { OnOk result (map statement_view statements.new.items
        ≡ map statement_view statements.old.items ++ name_statement place word.now ∷ []) }
{
    statements.push(Statement {
        place,
        element: Element::Named(End { word, label: None }),
    })?;
    Ok(())
}

/// Adds a statement for each of these names.
pub(crate) fn add_names<'a>(
    place: Place,
    bytes: &'a [u8],
    statements: &mut Vec<Statement<'a>>,
) -> Result<(), AllocError>
    ensures { OnOk result (map statement_view statements.new.items
        ≡ map statement_view statements.old.items ++ name_statements place bytes.now) }
{
    let mut rest = bytes;
    'names: loop {
        let Some((word, behind)) = name_at(rest) else {
            return Ok(());
        };
        add_name(place, word, statements)?;
        match behind_comma(behind) {
            Some(next) => rest = next,
            None => return Ok(()),
        }
    }
}

/// The text after a stereotype, if one comes next.
#[tactic(auto, unfolding(crate::specs::Notes::behind_stereotype))]
fn behind_stereotype(bytes: &[u8]) -> &[u8]
    ensures { result.now ≡ behind_stereotype bytes.now }
{
    if !begins_with(bytes, b"<<") {
        return bytes;
    }
    match place_of(b">>", &bytes[2..]) {
        Some(place) => &bytes[place + 4..],
        None => bytes,
    }
}

/// The text after the word for a note.
#[tactic(auto, unfolding(crate::specs::Notes::note_word))]
fn note_word(bytes: &[u8]) -> Option<&[u8]>
    ensures { Finds (λ rest. rest.now) result (note_word bytes.now) }
{
    if let Some(rest) = behind_word(b"note", bytes) {
        return Some(rest);
    }
    match behind_word(b"hnote", bytes) {
        Some(rest) => Some(rest),
        None => behind_word(b"rnote", bytes),
    }
}

/// The text after a slash and the blanks after it, if one comes next.
#[tactic(auto, unfolding(crate::specs::Notes::behind_slash))]
fn behind_slash(bytes: &[u8]) -> &[u8]
    ensures { result.now ≡ behind_slash bytes.now }
{
    match behind_byte(b'/', bytes) {
        Some(rest) => behind_blanks(rest),
        None => behind_blanks(bytes),
    }
}

/// The text after the words with which a note begins.
#[tactic(auto, unfolding(crate::specs::Notes::behind_note))]
fn behind_note(words: &[u8]) -> Option<&[u8]>
    ensures { Finds (λ rest. rest.now) result (behind_note words.now) }
{
    let (_, row) = row_at(words);
    let rest = note_word(behind_slash(row))?;
    Some(behind_blanks(behind_stereotype(behind_blanks(rest))))
}

/// A note at the names that come next.
#[tactic(auto, unfolding(crate::specs::Notes::placed_at))]
fn placed_at(bytes: &[u8]) -> Option<Note<'_>>
    ensures { Finds note_view result (placed_at bytes.now) }
{
    let names = behind_gap(bytes)?;
    let tail = coloured_tail(behind_names(names)?)?;
    Some(Note {
        names: Some(names),
        is_across: false,
        text: tail.text,
    })
}

/// The text after the word for a side.
#[tactic(auto, unfolding(crate::specs::Notes::side_word))]
fn side_word(bytes: &[u8]) -> Option<&[u8]>
    ensures { Finds (λ rest. rest.now) result (side_word bytes.now) }
{
    if let Some(rest) = behind_word(b"left", bytes) {
        return Some(rest);
    }
    match behind_word(b"right", bytes) {
        Some(rest) => Some(rest),
        None => behind_word(b"over", bytes),
    }
}

/// The text after `of`.
#[tactic(auto, unfolding(crate::specs::Notes::behind_of))]
fn behind_of(bytes: &[u8]) -> Option<&[u8]>
    ensures { Finds (λ rest. rest.now) result (behind_of bytes.now) }
{
    behind_word(b"of", behind_gap(bytes)?)
}

/// A note after the word `of`.
#[tactic(auto, unfolding(crate::specs::Notes::placed_of))]
fn placed_of(bytes: &[u8]) -> Option<Note<'_>>
    ensures { Finds note_view result (placed_of bytes.now) }
{
    placed_at(behind_of(bytes)?)
}

/// A note at participants that it names.
#[tactic(auto, unfolding(crate::specs::Notes::placed))]
fn placed(bytes: &[u8]) -> Option<Note<'_>>
    ensures { Finds note_view result (placed bytes.now) }
{
    let rest = side_word(bytes)?;
    match placed_of(rest) {
        Some(note) => Some(note),
        None => placed_at(rest),
    }
}

/// A note without names, after the word for its position.
#[tactic(auto, unfolding(crate::specs::Notes::unplaced))]
fn unplaced<'a>(is_across: bool, word: &[u8], bytes: &'a [u8]) -> Option<Note<'a>>
    ensures { Finds note_view result (unplaced is_across word.now bytes.now) }
{
    let tail = coloured_tail(behind_word(word, bytes)?)?;
    Some(Note {
        names: None,
        is_across,
        text: tail.text,
    })
}

/// A note at the arrow above it.
#[tactic(auto, unfolding(crate::specs::Notes::bare))]
fn bare(bytes: &[u8]) -> Option<Note<'_>>
    ensures { Finds note_view result (bare bytes.now) }
{
    if let Some(note) = unplaced(false, b"left", bytes) {
        return Some(note);
    }
    if let Some(note) = unplaced(false, b"right", bytes) {
        return Some(note);
    }
    match unplaced(false, b"top", bytes) {
        Some(note) => Some(note),
        None => unplaced(false, b"bottom", bytes),
    }
}

/// A note at all participants.
#[tactic(auto, unfolding(crate::specs::Notes::across))]
fn across(bytes: &[u8]) -> Option<Note<'_>>
    ensures { Finds note_view result (across bytes.now) }
{
    match unplaced(true, b"across", bytes) {
        Some(note) => Some(note),
        None => unplaced(true, b"accross", bytes),
    }
}

/// The note that a statement is or begins, if it does so.
#[tactic(auto, unfolding(crate::specs::Notes::note_of))]
pub(crate) fn note_of(words: &[u8]) -> Option<Note<'_>>
    ensures { Finds note_view result (note_of words.now) }
{
    let rest = behind_note(words)?;
    if let Some(note) = placed(rest) {
        return Some(note);
    }
    match bare(rest) {
        Some(note) => Some(note),
        None => across(rest),
    }
}

/// The reference that a statement is or begins, if it does so.
#[tactic(auto, unfolding(crate::specs::Notes::reference_of))]
pub(crate) fn reference_of(words: &[u8]) -> Option<Note<'_>>
    ensures { Finds note_view result (reference_of words.now) }
{
    let behind_ref = behind_word(b"ref", words)?;
    let gap = behind_gap(behind_colour(Class::Word, behind_ref))?;
    let names = behind_gap(behind_word(b"over", gap)?)?;
    let rest = behind_blanks(behind_names(names)?);
    let Tail { text } = colon_tail(behind_colour(Class::Colour, rest))?;
    Some(Note {
        names: Some(names),
        is_across: false,
        text,
    })
}
