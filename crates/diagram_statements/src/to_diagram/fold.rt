//! The diagrams of statements.
ghost use Rattle.std.specs.Prelude.{◌≡◌, [], map, IfOk};
ghost use Rattle.diagrams.specs.Diagrams.{diagram_view, participant_view};
ghost use Rattle.diagram_statements.specs.Readings.{read_view};
ghost use Rattle.diagram_statements.specs.Statements.{statement_view, Reads};
ghost use Rattle.diagram_statements.specs.ToDiagram.Drawings.{drawing_view, no_drawing};
ghost use Rattle.diagram_statements.specs.ToDiagram.Folds.{participant_of, folded_from, folded_of, diagram_of};
ghost use Rattle.diagram_statements.specs.ToDiagram.Participants.{named_view};

use crate::to_diagram::drawing::Drawing;
use crate::to_diagram::frames::framed;
use crate::to_diagram::labels::{Breaks, label_of};
use crate::to_diagram::participants::Named;
use crate::{ReadError, ReadText, Statement};
use diagrams::{Diagram, Participant};
use std::alloc::{AllocError, Global};

/// The drawing of the statements.
fn folded<'a>(
    alloc: Global,
    breaks: Breaks,
    statements: &[Statement<'a>],
) -> Result<Drawing<'a>, ReadError>
    ensures { Reads drawing_view result (folded_from breaks [] no_drawing (map statement_view statements.now)) }
{
    let mut frames = Vec::new(alloc);
    let mut drawing = Drawing::new(alloc);
    for statement in statements {
        if let Some(act) = framed(&mut frames, statement)? {
            drawing.perform(alloc, breaks, statement.place, act)?;
        }
    }
    Ok(drawing)
}

/// A participant with its label as it is shown.
fn participant_of(
    alloc: Global,
    breaks: Breaks,
    named: &Named<'_>,
) -> Result<Participant, AllocError>
    ensures { IfOk result (λ participant. participant_view participant ≡ participant_of breaks (named_view named.now)) }
{
    Ok(Participant {
        label: label_of(alloc, breaks, named.label)?,
        line: named.line,
    })
}

/// The participants with their labels as they are shown.
fn participants_of(
    alloc: Global,
    breaks: Breaks,
    named: &[Named<'_>],
) -> Result<Vec<Participant>, AllocError>
    ensures { IfOk result (λ all. map participant_view all.items ≡ map (participant_of breaks) (map named_view named.now)) }
{
    let mut participants = Vec::new(alloc);
    for one in named {
        participants.push(participant_of(alloc, breaks, one)?)?;
    }
    Ok(participants)
}

/// The diagram of these statements, from the top.
#[tactic(auto, unfolding(crate::specs::ToDiagram::Folds::folded_of))]
fn folded_of(
    alloc: Global,
    breaks: Breaks,
    statements: &[Statement<'_>],
) -> Result<Diagram, ReadError>
    ensures { Reads diagram_view result (folded_of breaks (map statement_view statements.now)) }
{
    let drawing = folded(alloc, breaks, statements)?;
    let participants = participants_of(alloc, breaks, &drawing.participants)?;
    Ok(Diagram {
        participants,
        items: drawing.rows.items,
        left_out: drawing.rows.left_out,
    })
}

/// The diagram of a text with these statements.
///
/// # Errors
///
/// The first fault from the top: a branch or an end outside of a group, text that can't be read, or an end that comes
/// too early. Memory, if a growth was refused.
#[tactic(auto, unfolding(crate::specs::ToDiagram::Folds::diagram_of))]
pub fn diagram_of(alloc: Global, breaks: Breaks, read: &ReadText<'_>) -> Result<Diagram, ReadError>
    ensures { Reads diagram_view result (diagram_of breaks (read_view read.now)) }
{
    let diagram = folded_of(alloc, breaks, &read.statements)?;
    match read.fault {
        Some(fault) => Err(ReadError::Fault(fault)),
        None => Ok(diagram),
    }
}
