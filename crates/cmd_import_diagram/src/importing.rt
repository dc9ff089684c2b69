//! The import of the bytes of a file by `mscview import`.
ghost use Rattle.std.specs.Prelude.{◌≡◌, length, IfOk};
ghost use Rattle.texts.specs.Writing.{Wrote, Adds};
ghost use Rattle.cmd_base.specs.Answers.{Answers};
ghost use Rattle.cmd_base.specs.Refusals.{Tried};
ghost use Rattle.diagram_import.specs.Importing.{options_view};
ghost use Rattle.cmd_import_diagram.specs.Importing.{ReadsDiagram, Imports};
ghost use Rattle.cmd_import_diagram.specs.Refusals.{not_read_text, chart_refusal_text, diagram_refusal_text};
ghost use Rattle.cmd_import_diagram.specs.Importing.{diagnostics_exit, import_write_error_exit, imported_exit};

use crate::diagnostics::write_diagnostics;
use crate::order::in_order;
use chart::{Chart, Names};
use cmd_base::{Answer, answered, refused_by};
use diagram_import::{ImportError, Options, import_text};
use diagram_join::{JoinError, JoinedChart, Overtaking};
use diagram_labels::Renamed;
use diagram_tool::Tool;
use diagrams::{DiagramChart, LeftOut, Place};
use std::alloc::{AllocError, Global};
use texts::pieces::{Piece, add_pieces};
use texts::{Out, TextBuffer, WriteError};

/// The warnings about a chart. They are the skipped constructs of its diagram, in the order of their first places, the
/// messages that overtake another one, and each name that differs from its label.
#[derive(Debug, Drop)]
pub struct Diagnostics {
    left_out: Vec<LeftOut>,
    overtaking: Vec<Overtaking>,
    renamed: Vec<Renamed>,
}

/// The chart of a tool's text, with its warnings.
#[derive(Debug, Drop)]
pub struct ImportedDiagram {
    /// A name for each line of the chart.
    pub names: Names,
    pub chart: Chart,
    pub diagnostics: Diagnostics,
}

/// Why no chart was written.
#[derive(Debug, Drop)]
pub enum ImportWriteError {
    /// The diagram isn't read or has no chart, or memory ran out.
    Diagram(ImportError),
    /// F24: a write failed.
    Write,
}

/// The chart of a tool's text. The tool is the named one, or otherwise the detected one. The chart is possible.
/// Refusals are those of [`import_text`].
pub fn imported_diagram(
    alloc: Global,
    tool: Option<Tool>,
    text: &[u8],
    options: Options<'_>,
) -> Result<ImportedDiagram, ImportError>
    ensures reads { ReadsDiagram result tool text.now (options_view options.entry) }
    ensures named { IfOk result (λ d. length d.names ≡ length d.chart) }
{
    let JoinedChart { built, overtaking } = import_text(alloc, tool, text, options)?;
    let DiagramChart {
        names,
        chart,
        left_out,
        renamed,
    } = built;
    let left_out = match in_order(alloc, &left_out) {
        Ok(left_out) => left_out,
        Err(AllocError) => return Err(ImportError::Memory),
    };
    Ok(ImportedDiagram {
        names,
        chart,
        diagnostics: Diagnostics {
            left_out,
            overtaking,
            renamed,
        },
    })
}

/// Reads the diagram and writes its chart. All memory is taken before the first byte is written.
fn translate<W: Out>(
    alloc: Global,
    tool: Option<Tool>,
    text: &[u8],
    options: Options<'_>,
    out: &mut W,
) -> Result<Diagnostics, ImportWriteError>
    ensures { Imports W.sink out.old out.new result tool text.now (options_view options.entry) }
{
    let diagram = match imported_diagram(alloc, tool, text, options) {
        Ok(diagram) => diagram,
        Err(error) => return Err(ImportWriteError::Diagram(error)),
    };
    match msc_text::write(&diagram.names, &diagram.chart, out) {
        Ok(()) => Ok(diagram.diagnostics),
        Err(_) => Err(ImportWriteError::Write),
    }
}

/// Adds the line of F35.
#[tactic(auto, unfolding(crate::specs::Refusals::not_read_text))]
fn add_not_read<V: Out>(
    text: &mut TextBuffer<'_, V>,
    place: Place,
    words: &[u8],
) -> Result<(), WriteError>
    ensures { Adds V.sink text.old text.new result (not_read_text place words.now) }
{
    add_pieces(
        text,
        &[
            Piece::Bytes(b"refused: F35 NotRead "),
            Piece::Number(place.line),
            Piece::Bytes(b" "),
            Piece::Number(place.column),
            Piece::Bytes(b" "),
            Piece::Bytes(words),
            Piece::Bytes(b"\n"),
        ],
    )
}

#[tactic(auto, using(texts::proofs::Writes::joining))]
fn write_not_read<V: Out>(place: Place, words: &[u8], err: &mut V) -> Result<(), WriteError>
    ensures { Wrote V.sink err.old err.new result (not_read_text place words.now) }
{
    let mut text = TextBuffer::new(err);
    add_not_read(&mut text, place, words)?;
    text.finish()
}

/// Prints the line of F35, and returns the exit status.
fn refused_words<V: Out>(place: Place, words: &[u8], err: &mut V) -> u8
    ensures status { result ≡ 2 }
    ensures line { Tried V.sink err.old err.new (not_read_text place words.now) }
{
    let _ = write_not_read(place, words, err);
    2
}

/// Prints the line of a refusal of a diagram without a chart, and returns the exit status.
fn refused_chart<V: Out>(error: JoinError, err: &mut V) -> u8
    ensures status { result ≡ 2 }
    ensures line { Tried V.sink err.old err.new (chart_refusal_text error) }
{
    match error {
        JoinError::Memory => refused_by(b"F6 Memory", None, err),
        JoinError::NoSuchLine => refused_by(b"F34 NoSuchName", None, err),
        JoinError::Taken(line) => refused_by(b"F22 Duplicate", Some(line), err),
        JoinError::Instances => refused_by(b"F8 Instances", None, err),
        JoinError::LineFull(line) => refused_by(b"F7 LineFull", Some(line), err),
        JoinError::NotPossible(line) => refused_by(b"F37 NotPossible", Some(line), err),
    }
}

/// Prints the line of a refusal of a tool's text. Returns the exit status, which is 2 whether or not the line could be
/// written.
pub fn refused_diagram<V: Out>(error: &ImportError, err: &mut V) -> u8
    ensures status { result ≡ 2 }
    ensures line { Tried V.sink err.old err.new (diagram_refusal_text error.now) }
{
    match error {
        ImportError::Memory => refused_by(b"F6 Memory", None, err),
        ImportError::Usage => refused_by(b"G1 Usage", None, err),
        ImportError::Unfinished => refused_by(b"F21 Unfinished", None, err),
        ImportError::UnknownInstance(line) => {
            refused_by(b"F23 UnknownInstance", Some(*line), err)
        }
        ImportError::NotRead(place, words) => refused_words(*place, words.as_slice(), err),
        ImportError::NoChart(error) => refused_chart(*error, err),
    }
}

/// The warnings about a chart, with status 0.
impl Answer for Diagnostics {
    ghost exit = { diagnostics_exit };

    fn status(&self) -> u8 {
        0
    }

    fn print_diagnostics<V: Out>(&self, err: &mut V) {
        let _ = write_diagnostics(&self.left_out, &self.overtaking, &self.renamed, err);
    }
}

/// A refusal's line, with status 2.
impl Answer for ImportWriteError {
    ghost exit = { import_write_error_exit };

    fn status(&self) -> u8 {
        2
    }

    fn print_diagnostics<V: Out>(&self, err: &mut V) {
        let _ = match self {
            ImportWriteError::Write => refused_by(b"F24 Write", None, err),
            ImportWriteError::Diagram(error) => refused_diagram(error, err),
        };
    }
}

/// Writes the text of the chart of a tool's text. The tool is the named one, or otherwise the detected one. Warnings
/// are written to `err`: a line for each kind of skipped constructs, for each message that overtakes another one, and
/// then for each name that differs from its label. The line of a refusal is written to `err` too.
///
/// Returns the exit status: 0 if the chart was written, or 2 after a refusal. Nothing is written to `out` before a
/// refusal, unless writing to it failed (F24). A failed write to `err` changes nothing.
pub fn import<W: Out, V: Out>(
    alloc: Global,
    tool: Option<Tool>,
    text: &[u8],
    options: Options<'_>,
    out: &mut W,
    err: &mut V,
) -> u8
    ensures { Answers (λ done. Imports W.sink out.old out.new done tool text.now (options_view options.entry))
        imported_exit V.sink err.old err.new result }
{
    answered(&translate(alloc, tool, text, options, out), err)
}
