//! Pages of other tools' texts.
ghost use Rattle.std.specs.Prelude.{◌≡◌, None, Some};
ghost use Rattle.diagram_import.specs.Importing.{options_view};
ghost use Rattle.cmd_base.specs.Answers.{Answers};
ghost use Rattle.cmd_page.specs.Imports.DiagramPages.{ShowsDiagram, page_error_exit, page_exit};
ghost use Rattle.cmd_page.specs.Showing.{heading_view};

use crate::{Heading, show_chart_text};
use chart::InstanceNo;
use cmd_base::{Answer, ProgramError, answered};
use cmd_draw::imports::turns_of_text;
use cmd_import_diagram::{Diagnostics, imported_diagram, refused_diagram};
use diagram_import::{ImportError, Options};
use diagram_tool::Tool;
use std::alloc::{AllocError, Global};
use texts::Out;

/// The reason why no page was written.
#[derive(Debug, Drop)]
pub enum PageError {
    /// The text is refused, or memory ran out.
    Diagram(ImportError),
    /// Memory ran out, or a write failed.
    Page(ProgramError),
}

/// A title, and the turns of a diagram's rows.
fn heading_of<'a>(title: &'a [u8], turns: &'a [InstanceNo]) -> Heading<'a>
    ensures view { heading_view result ≡ record { title = title.now; turns = Some turns.now; races = None } }
    ensures none { result.races ≡ None }
{
    let turns = Some(turns);
    Heading {
        title,
        turns,
        races: None,
    }
}

/// Reads the text and writes the page of its chart, with its picture in the rows of the diagram. It allocates all
/// memory before it writes the first byte.
#[tactic(auto, unfolding(crate::specs::Imports::DiagramPages::ShowsDiagram))]
fn show<W: Out>(
    alloc: Global,
    tool: Option<Tool>,
    text: &[u8],
    options: Options<'_>,
    title: &[u8],
    out: &mut W,
) -> Result<Diagnostics, PageError>
    ensures { ShowsDiagram W.sink out.old out.new tool text.now (options_view options.entry) title.now result }
{
    let diagram = match imported_diagram(alloc, tool, text, options) {
        Ok(diagram) => diagram,
        Err(error) => return Err(PageError::Diagram(error)),
    };
    let turns = match turns_of_text(alloc, tool, text, &options) {
        Ok(turns) => turns,
        Err(AllocError) => return Err(PageError::Diagram(ImportError::Memory)),
    };
    let heading = heading_of(title, turns.as_slice());
    match show_chart_text(alloc, &diagram.names, &diagram.chart, &heading, out) {
        Ok(()) => Ok(diagram.diagnostics),
        Err(error) => Err(PageError::Page(error)),
    }
}

/// A refusal's line, with status 2.
impl Answer for PageError {
    ghost exit = { page_error_exit };

    fn status(&self) -> u8 {
        2
    }

    fn print_diagnostics<V: Out>(&self, err: &mut V) {
        match self {
            PageError::Diagram(error) => {
                let _ = refused_diagram(error, err);
            }
            PageError::Page(error) => error.print_diagnostics(err),
        }
    }
}

/// Writes the page of the chart of another tool's text to `out`. The tool is the named one, or the one that the text
/// shows. The page is that of the text from `mscview import`, with the events of its picture in the order of the
/// diagram's rows. The warnings of an import and the line of a refusal go to `err`. The exit status is 0 if the page
/// was written, and 2 after a refusal. The refusals are those of an import. Nothing is written to `out` before a
/// refusal, unless writing to it failed (F24). A failed write to `err` changes nothing.
pub fn page_of_diagram<W: Out, V: Out>(
    alloc: Global,
    tool: Option<Tool>,
    text: &[u8],
    options: Options<'_>,
    title: &[u8],
    out: &mut W,
    err: &mut V,
) -> u8
    ensures { Answers (ShowsDiagram W.sink out.old out.new tool text.now (options_view options.entry) title.now)
        page_exit V.sink err.old err.new result }
{
    answered(&show(alloc, tool, text, options, title, out), err)
}
