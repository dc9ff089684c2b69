//! Draws other tools' texts.
ghost use Rattle.std.specs.Prelude.{◌≡◌, IfOk};
ghost use Rattle.cmd_base.specs.Answers.{Answers};
ghost use Rattle.diagram_import.specs.Importing.{options_view};
ghost use Rattle.cmd_draw.specs.Imports.Drawing.{DrawsDiagram, picture_error_exit, picture_exit};
ghost use Rattle.cmd_draw.specs.Imports.Turns.{turns_of_text};

use crate::imports::diagnostics::{Diagnostics, picture_left_out};
use crate::{DrawError, Wanted, draw_chart};
use chart::InstanceNo;
use cmd_base::{Answer, answered};
use cmd_import_diagram::refused_diagram;
use diagram_import::margin::notes_of_text;
use diagram_import::{ImportError, Options, diagram_of_text, import_text};
use diagram_join::JoinedChart;
use diagram_join::turns::turns_in;
use diagram_tool::Tool;
use diagrams::DiagramChart;
use std::alloc::{AllocError, Global};
use texts::Out;

/// Why no picture was drawn.
#[derive(Debug, Drop)]
pub enum PictureError {
    /// The text can't be read or has no chart, or memory ran out.
    Diagram(ImportError),
    /// The chart doesn't have a named instance or event, memory ran out, or a write failed.
    Picture(DrawError),
}

/// The instance of each event in turn, in the diagram that a text contains, from the top down. It fails only if there
/// is no memory, or if the text contains no diagram.
pub fn turns_of_text(
    alloc: Global,
    tool: Option<Tool>,
    text: &[u8],
    options: &Options<'_>,
) -> Result<Vec<InstanceNo>, AllocError>
    ensures { IfOk result (λ turns. turns.items ≡ turns_of_text tool text.now (options_view options.now)) }
{
    let Ok(diagram) = diagram_of_text(alloc, tool, text, options) else {
        return Err(AllocError);
    };
    let turns = turns_in(alloc, diagram, options.joins)?;
    Ok(turns)
}

/// Reads the text and draws the wanted part of its chart, in the rows of the diagram, with its notes and dividers. It
/// takes all memory before it writes the first byte.
fn draw_text<W: Out>(
    alloc: Global,
    tool: Option<Tool>,
    text: &[u8],
    options: Options<'_>,
    wanted: &Wanted<'_>,
    out: &mut W,
) -> Result<Diagnostics, PictureError>
    ensures { DrawsDiagram W.sink out.old out.new tool text.now (options_view options.entry) wanted.now result }
{
    let JoinedChart { built, overtaking } = match import_text(alloc, tool, text, options) {
        Ok(imported) => imported,
        Err(error) => return Err(PictureError::Diagram(error)),
    };
    let turns = match turns_of_text(alloc, tool, text, &options) {
        Ok(turns) => turns,
        Err(AllocError) => return Err(PictureError::Diagram(ImportError::Memory)),
    };
    let notes = match notes_of_text(alloc, tool, text, &options) {
        Ok(notes) => notes,
        Err(AllocError) => return Err(PictureError::Diagram(ImportError::Memory)),
    };
    let DiagramChart {
        names,
        chart,
        left_out,
        renamed,
    } = built;
    let left_out = match picture_left_out(alloc, &left_out) {
        Ok(left_out) => left_out,
        Err(AllocError) => return Err(PictureError::Diagram(ImportError::Memory)),
    };
    let diagnostics = Diagnostics {
        left_out,
        overtaking,
        renamed,
    };
    match draw_chart(
        alloc,
        &names,
        &chart,
        turns.as_slice(),
        notes.as_slice(),
        wanted,
        out,
    ) {
        Ok(()) => Ok(diagnostics),
        Err(error) => Err(PictureError::Picture(error)),
    }
}

/// Prints a refusal's line, with status 2.
impl Answer for PictureError {
    ghost exit = { picture_error_exit };

    fn status(&self) -> u8 {
        2
    }

    fn print_diagnostics<V: Out>(&self, err: &mut V) {
        match self {
            PictureError::Diagram(error) => {
                let _ = refused_diagram(error, err);
            }
            PictureError::Picture(error) => error.print_diagnostics(err),
        }
    }
}

/// Writes a picture, as SVG text, of the chart in another tool's text. The tool is the one that is named, or else the
/// one that the text shows. The events are in the order of the diagram's rows, and its notes and dividers are beside
/// them. It writes the warnings of an import to `err`, except those about constructs that the picture has. It writes
/// the line of a refusal to `err`. It returns the exit status: 0 if the picture was written, 2 after a refusal. The
/// refusals of an import come first, then F34, and then F31. It writes nothing to `out` before a refusal, unless a
/// write to it failed (F24). A failed write to `err` changes nothing.
pub fn draw_of<W: Out, V: Out>(
    alloc: Global,
    tool: Option<Tool>,
    text: &[u8],
    options: Options<'_>,
    wanted: &Wanted<'_>,
    out: &mut W,
    err: &mut V,
) -> u8
    ensures { Answers (DrawsDiagram W.sink out.old out.new tool text.now (options_view options.entry) wanted.now)
        picture_exit V.sink err.old err.new result }
{
    answered(&draw_text(alloc, tool, text, options, wanted, out), err)
}
