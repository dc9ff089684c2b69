//! Whole texts.
ghost use Rattle.std.specs.Prelude.{◌≡◌, [], Some, None, IfOk, if◌then◌else◌};
ghost use Rattle.diagram_statements.specs.Lines.{lines_of};
ghost use Rattle.diagram_statements.specs.Readings.{read_view};
ghost use Rattle.diagram_plantuml.specs.Diagrams.{read_from, diagram_of};
ghost use Rattle.diagram_plantuml.specs.Joints.{joined_text};
ghost use Rattle.diagram_plantuml.specs.Standings.{nothing_open, is_open};
ghost use Rattle.diagram_statements.specs.declared.statement.Fault.TheVariants.{Unfinished};

use crate::region::{Region, region_behind, region_in};
use crate::standing::{Standing, add_line_in, is_open};
use diagram_statements::{Fault, ReadError, ReadText, behind_line, first_line};
use std::alloc::{AllocError, Global};

/// Nothing is open.
const NOTHING_OPEN: Standing = Standing {
    has_comment: false,
    skip: None,
    block: None,
};

/// The statements of a text's joined lines, up to the first fault. The first line is in this region.
fn statements_of<'a>(
    alloc: Global,
    begins: Region,
    text: &[u8],
    joined: &'a [u8],
) -> Result<ReadText<'a>, AllocError>
    ensures { IfOk result (λ read. read_view read ≡ read_from begins nothing_open text.now (lines_of joined.now)) }
{
    let mut statements = Vec::new(alloc);
    let mut standing = NOTHING_OPEN;
    let mut region = begins;
    let mut number = 1;
    let mut source = text;
    let mut rest = joined;
    'lines: while let [_, ..] = rest {
        let line = first_line(number, rest);
        match add_line_in(region, standing, source, line, &mut statements) {
            Ok(next) => standing = next,
            Err(ReadError::Memory) => return Err(AllocError),
            Err(ReadError::Fault(fault)) => {
                return Ok(ReadText {
                    statements,
                    fault: Some(fault),
                });
            }
        }
        region = region_behind(region, line.words);
        number += 1;
        source = behind_line(source);
        rest = behind_line(rest);
    }
    Ok(ReadText {
        statements,
        fault: open_fault(standing),
    })
}

/// The fault of a text if something is open at its end.
fn open_fault(standing: Standing) -> Option<Fault>
    ensures { result ≡ (if is_open standing then Some Unfinished else None) }
{
    if is_open(standing) {
        Some(Fault::Unfinished)
    } else {
        None
    }
}

/// A text with this fault and no statements.
fn only_fault<'a>(alloc: Global, fault: Fault) -> ReadText<'a>
    ensures { read_view result ≡ ([], Some fault) }
{
    ReadText {
        statements: Vec::new(alloc),
        fault: Some(fault),
    }
}

/// The statements of a text from the top, up to its first fault. The text comes without its byte order mark. A diagram
/// that begins and doesn't end is a fault before all others. The words are those of the joined text.
#[tactic(auto, unfolding(crate::specs::Diagrams::diagram_of))]
pub fn read<'a>(alloc: Global, text: &[u8], joined: &'a [u8]) -> Result<ReadText<'a>, AllocError>
    requires { joined.now ≡ joined_text text.now }
    ensures { IfOk result (λ read. read_view read ≡ diagram_of text.now) }
{
    match region_in(joined) {
        Region::Above => statements_of(alloc, Region::Inside, text, joined),
        Region::Inside => Ok(only_fault(alloc, Fault::Unfinished)),
        Region::Below => statements_of(alloc, Region::Above, text, joined),
    }
}
