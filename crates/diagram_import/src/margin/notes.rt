//! The notes of a text.
ghost use Rattle.std.specs.Prelude.{◌≡◌, ◌++◌, false, length, map, IfOk};
ghost use Rattle.diagram_import.specs.Importing.{options_view};
ghost use Rattle.diagram_import.specs.Readers.{tool_in};
ghost use Rattle.diagrams.specs.Diagrams.{diagram_view};
ghost use Rattle.diagrams.specs.Building.{has_no_chart};
ghost use Rattle.diagram_statements.specs.declared.to_diagram.labels.Breaks.TheVariants.{Mermaid, PlantUml};
ghost use Rattle.chart_layout.specs.Margin.Notes.{note_view};
ghost use Rattle.diagram_import.specs.Margin.Remarks.{remark_view};
ghost use Rattle.diagram_import.specs.Margin.Texts.{tool_by, mscgen_remarks, line_remarks, text_remarks, all_remarks, notes_of, notes_of_text};
ghost use Rattle.diagram_mermaid.specs.Diagrams.{diagram_of as mermaid_of};
ghost use Rattle.diagram_plantuml.specs.Diagrams.{diagram_of as plantuml_of};
ghost use Rattle.diagram_plantuml.specs.Joints.{joined_text};

use crate::margin::arcs::arc_remarks;
use crate::margin::own::own_remarks;
use crate::margin::placing::placed;
use crate::margin::remark::Remark;
use crate::margin::statements::{add_all, statement_remarks};
use crate::{ImportError, Options, behind_mark, blanked, diagram_of_text};
use chart_layout::margin::MarginNote;
use diagram_join::turns::messages_of;
use diagram_mscgen::grammar::MscgenError;
use diagram_statements::to_diagram::Breaks;
use diagram_tool::Tool;
use diagram_tool::detection::detected_tool;
use diagrams::{Diagram, has_no_chart};
use std::alloc::{AllocError, Global};

/// The tool of a text, if it is named or detected.
#[tactic(auto, unfolding(crate::specs::Readers::tool_in))]
fn tool_of(tool: Option<Tool>, text: &[u8]) -> Option<Tool>
    ensures { result ≡ tool_by (tool_in tool text.now) }
{
    if let Some(tool) = tool {
        return Some(tool);
    }
    match detected_tool(text) {
        Ok(tool) => Some(tool),
        Err(_) => None,
    }
}

/// The remarks of an mscgen text that aren't items of its diagram: none if the text can't be read.
#[tactic(auto, unfolding(crate::specs::Margin::Texts::mscgen_remarks))]
fn mscgen_remarks(alloc: Global, text: &[u8]) -> Result<Vec<Remark>, AllocError>
    ensures { IfOk result (λ remarks. map remark_view remarks.items ≡ mscgen_remarks text.now) }
{
    match diagram_mscgen::grammar::read(alloc, text) {
        Ok(msc) => arc_remarks(alloc, &msc.arcs),
        Err(MscgenError::Memory) => Err(AllocError),
        Err(MscgenError::Fault(_)) => Ok(Vec::new(alloc)),
    }
}

/// The same for a text of Mermaid.
fn mermaid_remarks(alloc: Global, text: &[u8]) -> Result<Vec<Remark>, AllocError>
    ensures { IfOk result (λ remarks. map remark_view remarks.items ≡ line_remarks Mermaid text.now (mermaid_of text.now)) }
{
    let read = diagram_mermaid::read(alloc, text)?;
    statement_remarks(alloc, Breaks::Mermaid, text, &read.statements)
}

/// The same for a text of PlantUML. Lines that continue in the next one are one line.
fn plantuml_remarks(alloc: Global, text: &[u8]) -> Result<Vec<Remark>, AllocError>
    ensures { IfOk result (λ remarks. map remark_view remarks.items ≡ line_remarks PlantUml (joined_text text.now) (plantuml_of text.now)) }
{
    let joined = diagram_plantuml::joined_text(alloc, text)?;
    let lines = joined.as_slice();
    let read = diagram_plantuml::read(alloc, text, lines)?;
    statement_remarks(alloc, Breaks::PlantUml, lines, &read.statements)
}

/// The remarks of a text of this tool that aren't items of its diagram.
#[tactic(auto, unfolding(crate::specs::Margin::Texts::text_remarks))]
fn text_remarks(alloc: Global, tool: Tool, text: &[u8]) -> Result<Vec<Remark>, AllocError>
    ensures { IfOk result (λ remarks. map remark_view remarks.items ≡ text_remarks tool text.now) }
{
    match tool {
        Tool::Mscgen => mscgen_remarks(alloc, text),
        Tool::Mermaid => mermaid_remarks(alloc, text),
        Tool::PlantUml => plantuml_remarks(alloc, text),
    }
}

/// The remarks of a text and of its diagram.
fn all_remarks(
    alloc: Global,
    tool: Tool,
    text: &[u8],
    diagram: &Diagram,
) -> Result<Vec<Remark>, AllocError>
    requires { has_no_chart (length (diagram_view diagram.now).participants) ≡ false }
    ensures { IfOk result (λ remarks. map remark_view remarks.items ≡ all_remarks tool text.now (diagram_view diagram.now)) }
{
    let mut remarks = own_remarks(alloc, &diagram.participants, &diagram.items)?;
    let more = text_remarks(alloc, tool, text)?;
    add_all(&mut remarks, more)?;
    Ok(remarks)
}

/// Whether the diagram has too few participants for a chart, or too many.
fn is_without_chart(diagram: &Diagram) -> bool
    ensures { result ≡ has_no_chart (length (diagram_view diagram.now).participants) }
{
    has_no_chart(diagram.participants.len())
}

/// The notes and dividers of a text with this diagram. There are none if it has too few participants for a chart, or
/// too many.
fn notes_of(
    alloc: Global,
    tool: Option<Tool>,
    text: &[u8],
    options: &Options<'_>,
    diagram: Diagram,
) -> Result<Vec<MarginNote>, AllocError>
    ensures { IfOk result (λ notes. map note_view notes.items
        ≡ notes_of tool text.now (options_view options.now) (diagram_view diagram)) }
{
    if is_without_chart(&diagram) {
        return Ok(Vec::new(alloc));
    }
    let bytes = blanked(alloc, options.skipped, text)?;
    let body = behind_mark(&bytes);
    let Some(tool) = tool_of(tool, body) else {
        return Ok(Vec::new(alloc));
    };
    let remarks = all_remarks(alloc, tool, body, &diagram)?;
    let messages = messages_of(alloc, diagram, options.joins)?;
    placed(alloc, &remarks, &messages)
}

/// The notes and dividers of a text, each with the number of its chart's messages above it. Those between two messages
/// are one note. A text without a diagram has none. It fails only if memory runs out (F6).
///
/// The time is in proportion to n log n for a text of n bytes. Each divider, and each note that isn't in one line with
/// its participant, also takes the time to read the text up to there.
#[tactic(auto, unfolding(crate::specs::Margin::Texts::notes_of_text))]
pub fn notes_of_text(
    alloc: Global,
    tool: Option<Tool>,
    text: &[u8],
    options: &Options<'_>,
) -> Result<Vec<MarginNote>, AllocError>
    ensures { IfOk result (λ notes. map note_view notes.items ≡ notes_of_text tool text.now (options_view options.now)) }
{
    match diagram_of_text(alloc, tool, text, options) {
        Ok(diagram) => notes_of(alloc, tool, text, options, diagram),
        Err(ImportError::Memory) => Err(AllocError),
        Err(_) => Ok(Vec::new(alloc)),
    }
}
