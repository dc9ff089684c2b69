//! Whole texts.
ghost use Rattle.std.specs.Prelude.{◌≡◌, ◌<◌, ◌+◌, map, IfOk};
ghost use Rattle.diagram_statements.specs.Readings.{read_view};
ghost use Rattle.diagram_statements.specs.Statements.{line_view};
ghost use Rattle.diagram_mermaid.specs.Diagrams.{pieces_in, pieces_view, statements_of, is_open, last_fault, diagram_of};
ghost use Rattle.diagram_mermaid.specs.declared.piece.Standing.TheVariants.{Above};
ghost use Rattle.diagram_statements.specs.Lines.{lines_of, first_line};

use crate::meaning::add_statement;
use crate::piece::{Standing, add_line};
use diagram_statements::{Fault, Line, ReadText, behind_line, first_line};
use std::alloc::{AllocError, Global};

/// The statements of a text, in pieces, and the position of its reader at the end.
#[derive(Debug, Drop)]
struct Pieces<'a> {
    pieces: Vec<Line<'a>>,
    standing: Standing,
}

/// The statements of a text, in pieces.
fn pieces_of(alloc: Global, text: &[u8]) -> Result<Pieces<'_>, AllocError>
    ensures { IfOk result (λ pieces. pieces_view pieces ≡ pieces_in Above (lines_of text.now)) }
{
    let mut pieces = Vec::new(alloc);
    let mut standing = Standing::Above;
    let mut number = 1;
    let mut rest = text;
    'lines: while let [_, ..] = rest {
        standing = add_line(standing, first_line(number, rest), &mut pieces)?;
        number += 1;
        rest = behind_line(rest);
    }
    Ok(Pieces { pieces, standing })
}

/// The statements of these pieces, up to the first one that can't be read.
fn statements_of<'a>(alloc: Global, pieces: &[Line<'a>]) -> Result<ReadText<'a>, AllocError>
    ensures { IfOk result (λ read. read_view read ≡ statements_of (map line_view pieces.now)) }
{
    let mut statements = Vec::new(alloc);
    for piece in pieces {
        if !add_statement(piece.place(), piece.words, &mut statements)? {
            return Ok(ReadText {
                statements,
                fault: Some(Fault::NotRead(piece.place())),
            });
        }
    }
    Ok(ReadText {
        statements,
        fault: None,
    })
}

/// Whether a title block or another block is open.
fn is_open(standing: Standing) -> bool
    ensures { result ≡ is_open standing }
{
    match standing {
        Standing::Above | Standing::Body => false,
        Standing::Title | Standing::Inside(_) => true,
    }
}

/// The fault of a text: the first one of its statements, or otherwise a block that is open at the end.
#[tactic(auto, unfolding(crate::specs::Diagrams::last_fault))]
fn last_fault(fault: Option<Fault>, standing: Standing) -> Option<Fault>
    ensures { result ≡ last_fault fault standing }
{
    match fault {
        Some(fault) => Some(fault),
        None => {
            if is_open(standing) {
                Some(Fault::Unfinished)
            } else {
                None
            }
        }
    }
}

/// The statements of a text from the top, up to its first fault. The text comes without its byte order mark.
#[tactic(auto, unfolding(crate::specs::Diagrams::diagram_of))]
pub fn read(alloc: Global, text: &[u8]) -> Result<ReadText<'_>, AllocError>
    ensures { IfOk result (λ read. read_view read ≡ diagram_of text.now) }
{
    let pieces = pieces_of(alloc, text)?;
    let read = statements_of(alloc, &pieces.pieces)?;
    Ok(ReadText {
        statements: read.statements,
        fault: last_fault(read.fault, pieces.standing),
    })
}
