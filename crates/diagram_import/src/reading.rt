//! The diagram of a text, in the language of its tool.
ghost use Rattle.diagrams.specs.Diagrams.{diagram_view};
ghost use Rattle.diagram_statements.specs.declared.to_diagram.labels.Breaks.TheVariants.{Mermaid, PlantUml};
ghost use Rattle.diagram_statements.specs.Readings.{read_view};
ghost use Rattle.diagram_mermaid.specs.Diagrams.{diagram_of as mermaid_of};
ghost use Rattle.diagram_mscgen.specs.Reading.Reading.{diagram_of as mscgen_of};
ghost use Rattle.diagram_plantuml.specs.Diagrams.{diagram_of as plantuml_of};
ghost use Rattle.diagram_import.specs.Refusals.{IsOf, Gives};
ghost use Rattle.diagram_import.specs.Readers.{not_read, of_mscgen, of_lines, refused_as, tool_in, lines_in, diagram_in};

use crate::error::ImportError;
use crate::places::words_at;
use diagram_join::JoinError;
use diagram_statements::to_diagram::Breaks;
use diagram_statements::{ReadError, ReadText};
use diagram_tool::Tool;
use diagram_tool::detection::{ToolError, detected_tool};
use diagrams::{Diagram, Place};
use std::alloc::{AllocError, Global};

/// The refusal of words at this place that can't be read.
fn not_read(alloc: Global, text: &[u8], line: u64, column: u64) -> ImportError
    ensures { IsOf result (not_read text.now line column) }
{
    let place = Place { line, column };
    match words_at(alloc, text, place) {
        Ok(words) => ImportError::NotRead(place, words),
        Err(AllocError) => ImportError::Memory,
    }
}

/// The refusal of a fault in a text of mscgen.
fn of_mscgen(alloc: Global, text: &[u8], fault: diagram_mscgen::reading::Fault) -> ImportError
    ensures { IsOf result (of_mscgen text.now fault) }
{
    match fault {
        diagram_mscgen::reading::Fault::NotRead(place) => not_read(
            alloc,
            text,
            place.line,
            place.column,
        ),
        diagram_mscgen::reading::Fault::Unfinished => ImportError::Unfinished,
        diagram_mscgen::reading::Fault::Instances => ImportError::NoChart(JoinError::Instances),
        diagram_mscgen::reading::Fault::UnknownEntity(line) => ImportError::UnknownInstance(line),
    }
}

/// The refusal of a fault in a text of PlantUML or Mermaid.
fn of_lines(alloc: Global, text: &[u8], fault: diagram_statements::Fault) -> ImportError
    ensures { IsOf result (of_lines text.now fault) }
{
    match fault {
        diagram_statements::Fault::NotRead(place) => not_read(
            alloc,
            text,
            place.line,
            place.column,
        ),
        diagram_statements::Fault::Unfinished => ImportError::Unfinished,
    }
}

/// The tool of a text: the named one, or otherwise the detected one.
#[tactic(auto, unfolding(crate::specs::Readers::tool_in))]
pub(crate) fn tool_in(alloc: Global, tool: Option<Tool>, text: &[u8]) -> Result<Tool, ImportError>
    ensures { Gives (λ tool. tool) result (tool_in tool text.now) }
{
    if let Some(tool) = tool {
        return Ok(tool);
    }
    match detected_tool(text) {
        Ok(tool) => Ok(tool),
        Err(ToolError::NotRead(place)) => Err(not_read(alloc, text, place.line, place.column)),
        Err(ToolError::Unfinished) => Err(ImportError::Unfinished),
    }
}

/// The diagram of a text of mscgen.
fn mscgen_in(alloc: Global, text: &[u8]) -> Result<Diagram, ImportError>
    ensures { Gives diagram_view result (refused_as (of_mscgen text.now) (mscgen_of text.now)) }
{
    match diagram_mscgen::reading::read(alloc, text) {
        Ok(diagram) => Ok(diagram),
        Err(diagram_mscgen::reading::ReadError::Memory) => Err(ImportError::Memory),
        Err(diagram_mscgen::reading::ReadError::Fault(fault)) => Err(of_mscgen(alloc, text, fault)),
    }
}

/// The diagram of the statements of a text of PlantUML or Mermaid.
fn lines_in(
    alloc: Global,
    breaks: Breaks,
    text: &[u8],
    read: &ReadText<'_>,
) -> Result<Diagram, ImportError>
    ensures { Gives diagram_view result (lines_in breaks text.now (read_view read.now)) }
{
    match diagram_statements::to_diagram::diagram_of(alloc, breaks, read) {
        Ok(diagram) => Ok(diagram),
        Err(ReadError::Memory) => Err(ImportError::Memory),
        Err(ReadError::Fault(fault)) => Err(of_lines(alloc, text, fault)),
    }
}

/// The diagram of a text of Mermaid.
fn mermaid_in(alloc: Global, text: &[u8]) -> Result<Diagram, ImportError>
    ensures { Gives diagram_view result (lines_in Mermaid text.now (mermaid_of text.now)) }
{
    match diagram_mermaid::read(alloc, text) {
        Ok(read) => lines_in(alloc, Breaks::Mermaid, text, &read),
        Err(AllocError) => Err(ImportError::Memory),
    }
}

/// The diagram of a text of PlantUML.
fn plantuml_in(alloc: Global, text: &[u8]) -> Result<Diagram, ImportError>
    ensures { Gives diagram_view result (lines_in PlantUml text.now (plantuml_of text.now)) }
{
    let joined = diagram_plantuml::joined_text(alloc, text)?;
    let read = diagram_plantuml::read(alloc, text, &joined)?;
    lines_in(alloc, Breaks::PlantUml, text, &read)
}

/// The diagram of a text.
#[tactic(auto, unfolding(crate::specs::Readers::diagram_in))]
pub(crate) fn diagram_in(alloc: Global, tool: Tool, text: &[u8]) -> Result<Diagram, ImportError>
    ensures { Gives diagram_view result (diagram_in tool text.now) }
{
    match tool {
        Tool::Mscgen => mscgen_in(alloc, text),
        Tool::Mermaid => mermaid_in(alloc, text),
        Tool::PlantUml => plantuml_in(alloc, text),
    }
}
