//! Notes.
ghost use Rattle.std.specs.Prelude.{◌≡◌, ◌++◌, ◌∷◌, [], map, OnOk, IfSome, length, ◌<◌};
ghost use Rattle.texts.specs.Words.{Finds};
ghost use Rattle.diagram_statements.specs.Statements.{statement_view};
ghost use Rattle.diagram_mermaid.specs.Notes.{side_of, behind_side, note_view, note_by, note_of, name_at, next_name, name_statements};

use crate::names::are_listed;
use crate::text::{before_colon, behind_colon, text_of};
use diagram_statements::{Element, End, Place, Statement};
use std::alloc::AllocError;
use texts::{behind_blanks, behind_keyword, behind_keyword_of, place_of, stripped};

/// A note: the words for its participants, with commas between them, and its text.
#[derive(Clone, Copy, Debug)]
pub(crate) struct Note<'a> {
    pub names: &'a [u8],
    pub text: &'a [u8],
}

/// The text after the words for a side.
#[tactic(auto, unfolding(crate::specs::Notes::side_of))]
fn side_of(words: &[u8]) -> Option<&[u8]>
    ensures { Finds (λ rest. rest.now) result (side_of words.now) }
{
    match behind_keyword_of(&[b"left", b"right"], words) {
        Some(rest) => behind_keyword(b"of", behind_blanks(rest)),
        None => None,
    }
}

/// The text after the words for a note's position.
#[tactic(auto, unfolding(crate::specs::Notes::behind_side))]
fn behind_side(words: &[u8]) -> Option<&[u8]>
    ensures { Finds (λ rest. rest.now) result (behind_side words.now) }
{
    match behind_keyword(b"over", words) {
        Some(rest) => Some(rest),
        None => side_of(words),
    }
}

/// The note after the words for its position.
#[tactic(auto, unfolding(crate::specs::Notes::note_by))]
fn note_by(words: &[u8]) -> Option<Note<'_>>
    ensures { Finds note_view result (note_by words.now) }
{
    let names = before_colon(words);
    if !are_listed(names) {
        return None;
    }
    match behind_colon(words) {
        Some(text) => Some(Note {
            names,
            text: text_of(text),
        }),
        None => None,
    }
}

/// The note of a statement, if it is one.
#[tactic(auto, unfolding(crate::specs::Notes::note_of))]
pub(crate) fn note_of(words: &[u8]) -> Option<Note<'_>>
    ensures { Finds note_view result (note_of words.now) }
{
    let Some(rest) = behind_keyword(b"note", words) else {
        return None;
    };
    match behind_side(behind_blanks(rest)) {
        Some([_, names @ ..]) => note_by(names),
        _ => None,
    }
}

/// Adds a statement that names a participant by the word of these bytes.
fn add_name<'a>(
    place: Place,
    name: &'a [u8],
    statements: &mut Vec<Statement<'a>>,
) -> Result<(), AllocError>
    ensures { OnOk result (map statement_view statements.new.items
        ≡ map statement_view statements.old.items ++ name_at place name.now ∷ []) }
{
    statements.push(Statement {
        place,
        element: Element::Named(End {
            word: stripped(name),
            label: None,
        }),
    })?;
    Ok(())
}

/// The name before the first comma, and the text after that comma.
#[tactic(auto, unfolding(crate::specs::Notes::next_name))]
fn next_name(names: &[u8]) -> Option<(&[u8], &[u8])>
    ensures name { Finds (λ next. (next.0.now, next.1.now)) result (next_name names.now) }
    ensures shorter { IfSome result (λ next. length next.1.now < length names.now) }
{
    match place_of(b",", names) {
        Some(place) => Some((&names[..place], &names[place + 1..])),
        None => None,
    }
}

/// Adds a statement for each of these names.
pub(crate) fn add_names<'a>(
    place: Place,
    names: &'a [u8],
    statements: &mut Vec<Statement<'a>>,
) -> Result<(), AllocError>
    ensures { OnOk result (map statement_view statements.new.items
        ≡ map statement_view statements.old.items ++ name_statements place names.now) }
{
    let mut rest = names;
    'names: while let Some((name, others)) = next_name(rest) {
        add_name(place, name, statements)?;
        rest = others;
    }
    add_name(place, rest, statements)?;
    Ok(())
}
