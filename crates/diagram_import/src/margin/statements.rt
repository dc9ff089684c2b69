//! The notes of a PlantUML or Mermaid text that aren't items of its diagram, and its dividers.
ghost use Rattle.std.specs.Prelude.{◌≡◌, ◌++◌, [], map, IfOk, OnOk};
ghost use Rattle.diagrams.specs.Diagrams.{item_view, note_view};
ghost use Rattle.diagram_statements.specs.Readings.{read_view};
ghost use Rattle.diagram_statements.specs.Statements.{statement_view, note_at_view};
ghost use Rattle.diagram_import.specs.Margin.Remarks.{remark_view};
ghost use Rattle.diagram_import.specs.Margin.Statements.{has_item, noted, passed, restated, item_remark, items_remarked, note_remark, restated_remarks, statement_remarks};

use crate::margin::plain::plain_text;
use crate::margin::remark::Remark;
use crate::margin::source::{divider_words, note_words};
use diagram_statements::to_diagram::{Breaks, diagram_of};
use diagram_statements::{Element, NoteAt, Place, ReadError, ReadText, Statement};
use diagrams::{Item, Note};
use std::alloc::{AllocError, Global};

/// Whether a note is an item of its diagram: it is at one participant, and has a text in its line.
fn has_item(at: NoteAt<'_>, text: &[u8]) -> bool
    ensures { result ≡ has_item (note_at_view at.entry) text.now }
{
    match at {
        NoteAt::Participant(_) => !text.is_empty(),
        NoteAt::Arrow | NoteAt::Several => false,
    }
}

/// A note with these words, at one participant.
fn noted<'a>(place: Place, words: &'a [u8]) -> Statement<'a>
    ensures { statement_view result ≡ noted place words.now }
{
    Statement {
        place,
        element: Element::Note {
            at: NoteAt::Participant(b"note"),
            text: words,
        },
    }
}

/// A statement without an item.
fn passed<'a>(place: Place) -> Statement<'a>
    ensures { statement_view result ≡ passed place }
{
    Statement {
        place,
        element: Element::Delay,
    }
}

/// The statement for a search of dividers, or of notes that aren't items. What is sought becomes a note with its own
/// words at one participant, and no other statement is a note.
#[tactic(auto, unfolding(crate::specs::Margin::Statements::restated))]
fn restated<'a>(divides: bool, text: &'a [u8], statement: &Statement<'a>) -> Statement<'a>
    ensures { statement_view result ≡ restated divides text.now (statement_view statement.now) }
{
    let place = statement.place;
    match statement.element {
        Element::Note { at, text: own } => {
            if divides || has_item(at, own) {
                passed(place)
            } else {
                noted(place, note_words(text, place))
            }
        }
        Element::Divider | Element::Delay => {
            if divides {
                noted(place, divider_words(text, place))
            } else {
                passed(place)
            }
        }
        element => Statement { place, element },
    }
}

/// The remark of a note, in one line.
pub(crate) fn remark_of(alloc: Global, divides: bool, note: &Note) -> Result<Remark, AllocError>
    ensures { IfOk result (λ remark. remark_view remark ≡ note_remark divides (note_view note.now)) }
{
    let text = plain_text(alloc, note.text.as_slice())?;
    Ok(Remark {
        line: note.place.line,
        text,
        divides,
    })
}

/// Adds the remark of an item, if it is a note.
#[tactic(auto, unfolding(crate::specs::Margin::Statements::item_remark))]
fn add_item(
    alloc: Global,
    divides: bool,
    item: &Item,
    remarks: &mut Vec<Remark>,
) -> Result<(), AllocError>
    ensures { OnOk result (map remark_view remarks.new.items
        ≡ map remark_view remarks.old.items ++ item_remark divides (item_view item.now)) }
{
    match item {
        Item::Arrow(_) => Ok(()),
        Item::Note(note) => {
            let remark = remark_of(alloc, divides, note)?;
            remarks.push(remark)?;
            Ok(())
        }
    }
}

/// The remarks of a diagram's items.
#[tactic(auto, unfolding(crate::specs::Margin::Statements::items_remarked))]
fn items_remarked(alloc: Global, divides: bool, items: &[Item]) -> Result<Vec<Remark>, AllocError>
    ensures { IfOk result (λ remarks. map remark_view remarks.items ≡ items_remarked divides (map item_view items.now)) }
{
    let mut remarks = Vec::new(alloc);
    for item in items {
        add_item(alloc, divides, item, &mut remarks)?;
    }
    Ok(remarks)
}

/// These statements, restated for a search.
fn all_restated<'a>(
    alloc: Global,
    divides: bool,
    text: &'a [u8],
    statements: &[Statement<'a>],
) -> Result<Vec<Statement<'a>>, AllocError>
    ensures { IfOk result (λ all. map statement_view all.items
        ≡ map (restated divides text.now) (map statement_view statements.now)) }
{
    let mut all = Vec::new(alloc);
    for statement in statements {
        all.push(restated(divides, text, statement))?;
    }
    Ok(all)
}

/// The dividers of these statements, or the notes that aren't items. There are none if a branch or an end is outside of
/// a group.
#[tactic(auto, unfolding(crate::specs::Margin::Statements::restated_remarks))]
fn restated_remarks<'a>(
    alloc: Global,
    breaks: Breaks,
    divides: bool,
    text: &'a [u8],
    statements: &[Statement<'a>],
) -> Result<Vec<Remark>, AllocError>
    ensures { IfOk result (λ remarks. map remark_view remarks.items
        ≡ restated_remarks breaks divides text.now (map statement_view statements.now)) }
{
    let read = ReadText {
        statements: all_restated(alloc, divides, text, statements)?,
        fault: None,
    };
    match diagram_of(alloc, breaks, &read) {
        Ok(diagram) => items_remarked(alloc, divides, &diagram.items),
        Err(ReadError::Memory) => Err(AllocError),
        Err(ReadError::Fault(_)) => Ok(Vec::new(alloc)),
    }
}

/// The notes of these statements that aren't items, and their dividers. There are none if a branch or an end is outside
/// of a group.
#[tactic(auto, unfolding(crate::specs::Margin::Statements::statement_remarks))]
pub(crate) fn statement_remarks<'a>(
    alloc: Global,
    breaks: Breaks,
    text: &'a [u8],
    statements: &[Statement<'a>],
) -> Result<Vec<Remark>, AllocError>
    ensures { IfOk result (λ remarks. map remark_view remarks.items
        ≡ statement_remarks breaks text.now (map statement_view statements.now)) }
{
    let mut remarks = restated_remarks(alloc, breaks, false, text, statements)?;
    let dividers = restated_remarks(alloc, breaks, true, text, statements)?;
    add_all(&mut remarks, dividers)?;
    Ok(remarks)
}

/// Appends these remarks.
pub(crate) fn add_all(remarks: &mut Vec<Remark>, more: Vec<Remark>) -> Result<(), AllocError>
    ensures { OnOk result (map remark_view remarks.new.items
        ≡ map remark_view remarks.old.items ++ map remark_view more.items) }
{
    let mut more = more;
    remarks.append(&mut more)?;
    Ok(())
}
