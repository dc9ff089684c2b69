//! The races of another tool's text, by the names of their messages.
ghost use Rattle.cmd_base.specs.Answers.{Answers};
ghost use Rattle.diagram_import.specs.Importing.{options_view};
ghost use Rattle.cmd_races.specs.Imports.Showing.{ShowsDiagram, shown_exit, race_show_error_exit, races_exit};

use crate::{Wanted, show_chart};
use cmd_base::columns::ColumnError;
use cmd_base::{Answer, Status, answered};
use cmd_import_diagram::{Diagnostics, imported_diagram, refused_diagram};
use diagram_import::{ImportError, Options};
use diagram_tool::Tool;
use std::alloc::Global;
use texts::Out;

/// The answer after races were written: whether one is shown, and the warnings of the import.
#[derive(Debug, Drop)]
pub struct Shown {
    status: Status,
    diagnostics: Diagnostics,
}

/// The reason why no races were written.
#[derive(Debug, Drop)]
pub enum RaceShowError {
    /// The text is refused, or memory ran out.
    Diagram(ImportError),
    /// A name isn't one of the chart's, memory ran out, or a write failed.
    Races(ColumnError),
}

/// Reads the text and writes the wanted races of its chart. It allocates all memory before it writes the first byte.
fn show<W: Out>(
    alloc: Global,
    tool: Option<Tool>,
    text: &[u8],
    options: Options<'_>,
    wanted: &Wanted<'_>,
    out: &mut W,
) -> Result<Shown, RaceShowError>
    ensures { ShowsDiagram W.sink out.old out.new tool text.now (options_view options.entry) wanted.now result }
{
    let diagram = match imported_diagram(alloc, tool, text, options) {
        Ok(diagram) => diagram,
        Err(error) => return Err(RaceShowError::Diagram(error)),
    };
    match show_chart(alloc, &diagram.names, &diagram.chart, wanted, out) {
        Ok(status) => Ok(Shown {
            status,
            diagnostics: diagram.diagnostics,
        }),
        Err(error) => Err(RaceShowError::Races(error)),
    }
}

/// The status depends on whether a race is shown.
impl Answer for Shown {
    ghost exit = { shown_exit };

    fn status(&self) -> u8 {
        self.status.status()
    }

    fn print_diagnostics<V: Out>(&self, err: &mut V) {
        self.diagnostics.print_diagnostics(err);
    }
}

/// A refusal's line, with status 2.
impl Answer for RaceShowError {
    ghost exit = { race_show_error_exit };

    fn status(&self) -> u8 {
        2
    }

    fn print_diagnostics<V: Out>(&self, err: &mut V) {
        match self {
            RaceShowError::Diagram(error) => {
                let _ = refused_diagram(error, err);
            }
            RaceShowError::Races(error) => error.print_diagnostics(err),
        }
    }
}

/// Writes the races of the chart of another tool's text to `out`, by the names of their messages. The tool is the
/// named one, or the one that the text shows. There is a line for each range of earlier events, or a JSON object for
/// each receive. The warnings of an import and the line of a refusal go to `err`. The exit status is 1 if a race is
/// shown, 0 if none is, and 2 after a refusal. The refusals of an import come first, then F34. Nothing is written to
/// `out` before a refusal, unless writing to it failed (F24). A failed write to `err` changes nothing.
pub fn races_of<W: Out, V: Out>(
    alloc: Global,
    tool: Option<Tool>,
    text: &[u8],
    options: Options<'_>,
    wanted: &Wanted<'_>,
    out: &mut W,
    err: &mut V,
) -> u8
    ensures { Answers (ShowsDiagram W.sink out.old out.new tool text.now (options_view options.entry) wanted.now)
        races_exit V.sink err.old err.new result }
{
    answered(&show(alloc, tool, text, options, wanted, out), err)
}
