//! The statements of a meaning.
ghost use Rattle.std.specs.Prelude.{◌≡◌, ◌++◌, ◌∷◌, [], map, OnOk};
ghost use Rattle.diagram_statements.specs.Statements.{statement_view, element_view};
ghost use Rattle.diagram_plantuml_statements.specs.Meanings.{meaning_view};
ghost use Rattle.diagram_plantuml_statements.specs.Statements.{one_statement, pair_statements, sign_statements, life_statements, statements_of};

use crate::meaning::Meaning;
use crate::note::add_names;
use diagram_statements::{Element, End, Place, Statement};
use std::alloc::AllocError;

/// Adds one statement.
pub fn add_one<'a>(
    place: Place,
    element: Element<'a>,
    statements: &mut Vec<Statement<'a>>,
) -> Result<(), AllocError>
    ensures { OnOk result (map statement_view statements.new.items
        ≡ map statement_view statements.old.items ++ one_statement place (element_view element.entry) ∷ []) }
{
    statements.push(Statement { place, element })?;
    Ok(())
}

/// Adds the statement of two signs after an arrow. They begin or end an activation, and others have no meaning.
fn add_pair<'a>(
    place: Place,
    first: u8,
    second: u8,
    statements: &mut Vec<Statement<'a>>,
) -> Result<(), AllocError>
    ensures { OnOk result (map statement_view statements.new.items
        ≡ map statement_view statements.old.items ++ pair_statements place first second) }
{
    if first == b'+' && second == b'+' {
        return add_one(place, Element::Activate, statements);
    }
    if first == b'-' && second == b'-' {
        return add_one(place, Element::Deactivate, statements);
    }
    Ok(())
}

/// Adds the statements of the signs after an arrow, two signs at a time.
fn add_signs<'a>(
    place: Place,
    signs: &[u8],
    statements: &mut Vec<Statement<'a>>,
) -> Result<(), AllocError>
    ensures { OnOk result (map statement_view statements.new.items
        ≡ map statement_view statements.old.items ++ sign_statements place signs.now) }
{
    let mut rest = signs;
    'signs: while let [first, second, others @ ..] = rest {
        add_pair(place, *first, *second, statements)?;
        rest = others;
    }
    Ok(())
}

/// Adds the statements of a participant and its activation.
fn add_life<'a>(
    place: Place,
    word: &'a [u8],
    activates: Option<bool>,
    statements: &mut Vec<Statement<'a>>,
) -> Result<(), AllocError>
    ensures { OnOk result (map statement_view statements.new.items
        ≡ map statement_view statements.old.items ++ life_statements place word.now activates) }
{
    add_one(place, Element::Named(End { word, label: None }), statements)?;
    match activates {
        Some(true) => add_one(place, Element::Activate, statements),
        Some(false) => add_one(place, Element::Deactivate, statements),
        None => Ok(()),
    }
}

/// Adds the statements of a meaning at this place.
pub fn add_meaning<'a>(
    place: Place,
    meaning: Meaning<'a>,
    statements: &mut Vec<Statement<'a>>,
) -> Result<(), AllocError>
    ensures { OnOk result (map statement_view statements.new.items
        ≡ map statement_view statements.old.items ++ statements_of place (meaning_view meaning.entry)) }
{
    match meaning {
        Meaning::Look => Ok(()),
        Meaning::Says(element) => add_one(place, element, statements),
        Meaning::Arrow(found) => {
            add_one(place, Element::Arrow(found.arrow), statements)?;
            add_signs(place, found.signs, statements)
        }
        Meaning::Life(word, activates) => add_life(place, word, activates, statements),
        Meaning::Names(names, element) => {
            add_names(place, names, statements)?;
            add_one(place, element, statements)
        }
    }
}
