//! The diagram of a text, whether or not it has a chart.
ghost use Rattle.diagrams.specs.Diagrams.{diagram_view};
ghost use Rattle.diagram_import.specs.Importing.{options_view};
ghost use Rattle.diagram_import.specs.Reading.{diagram_from, diagram_of_text};
ghost use Rattle.diagram_import.specs.Refusals.{Gives};

use crate::error::ImportError;
use crate::importing::{Options, behind_mark};
use crate::reading::{diagram_in, tool_in};
use crate::skipping::{blanked, count_of_lines, is_beyond};
use diagram_tool::Tool;
use diagrams::Diagram;
use std::alloc::Global;

/// The diagram of a text without skipped lines and without a byte order mark.
#[tactic(auto, unfolding(crate::specs::Reading::diagram_from))]
fn diagram_from(alloc: Global, tool: Option<Tool>, text: &[u8]) -> Result<Diagram, ImportError>
    ensures { Gives diagram_view result (diagram_from tool text.now) }
{
    let tool = tool_in(alloc, tool, text)?;
    diagram_in(alloc, tool, text)
}

/// The diagram of another tool's text, or its first refusal. Time and memory are in proportion to the text.
///
/// The tool is the named one, or otherwise the detected one. G1 refuses lines to skip that don't exist. Then F35 and
/// F21 refuse text that can't be read, and F23 an arc of mscgen with an entity that doesn't exist. F6 may come at any
/// point. The diagram need not have a chart.
#[tactic(auto, unfolding(crate::specs::Reading::diagram_of_text))]
pub fn diagram_of_text(
    alloc: Global,
    tool: Option<Tool>,
    text: &[u8],
    options: &Options<'_>,
) -> Result<Diagram, ImportError>
    ensures { Gives diagram_view result (diagram_of_text tool text.now (options_view options.now)) }
{
    let count = count_of_lines(text)?;
    if is_beyond(options.skipped, count) {
        return Err(ImportError::Usage);
    }
    let bytes = blanked(alloc, options.skipped, text)?;
    diagram_from(alloc, tool, behind_mark(&bytes))
}
