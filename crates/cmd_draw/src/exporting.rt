//! What `mscview export` writes for the bytes of a file.
ghost use Rattle.std.specs.Prelude.{◌≡◌, length};
ghost use Rattle.std.specs.List.{list_any};
ghost use Rattle.chart.specs.Charts.{chart_lines, IsPossible};
ghost use Rattle.chart.specs.Reports.{AreReports};
ghost use Rattle.texts.specs.Writing.{Wrote, Adds};
ghost use Rattle.cmd_base.specs.Answers.{Answers};
ghost use Rattle.cmd_base.specs.Texts.{named_of, ComesFrom};
ghost use Rattle.cmd_draw.specs.Exporting.{tool_of, text_of, has_region, has_parted_in, parted_text, regions_text};
ghost use Rattle.cmd_draw.specs.Preparing.{turns_in};
ghost use Rattle.cmd_draw.specs.Exporting.{both_text, diagnostics_exit, export_exit, Writes, Exports, ExportsText};

use crate::preparing::{Reports, prepare};
use crate::target::Target;
use chart::{Line, Names, Report};
use closure::Closure;
use cmd_base::columns::ColumnError;
use cmd_base::{Answer, ProgramError, Source, Text, answered, closure_of};
use diagram_export::{Export, ExportSource, Log, has_parted, write_export, write_log};
use diagram_tool::Tool;
use std::alloc::{AllocError, Global};
use texts::{Out, TextBuffer, WriteError};

/// The warnings about what a text can't express.
#[derive(Clone, Copy)]
struct Diagnostics {
    /// Whether the two ends of a message are two notes.
    parted: bool,
    /// Whether the chart has a coregion.
    regions: bool,
}

/// The tool that an export is made for.
fn tool_of(target: Target) -> Tool
    ensures { result ≡ tool_of target }
{
    match target {
        Target::Diagram(tool) => tool,
        Target::ShiViz => Tool::PlantUml,
    }
}

/// Whether there is a message whose ends are two notes.
fn has_parted_in(target: Target, export: &Export<'_>) -> bool
    ensures { result ≡ has_parted_in target export.now }
{
    match target {
        Target::Diagram(_) => has_parted(export),
        Target::ShiViz => false,
    }
}

/// Whether a line has a coregion.
fn have_regions(lines: &[Line]) -> bool
    ensures { result ≡ list_any has_region lines.now }
{
    lines.iter().any(|line| line.greatest_region() > 0)
}

/// Writes the text of an export. It takes all memory before it writes the first byte.
fn write_text<W: Out>(
    alloc: Global,
    target: Target,
    export: &Export<'_>,
    out: &mut W,
) -> Result<(), ColumnError>
    ensures { Writes W.sink out.old out.new result (text_of target export.now) }
{
    let written = match target {
        Target::Diagram(_) => write_export(export, out),
        Target::ShiViz => {
            let log = match Log::of(alloc, export) {
                Ok(log) => log,
                Err(AllocError) => return Err(ColumnError::Program(ProgramError::Memory)),
            };
            write_log(export, &log, out)
        }
    };
    match written {
        Ok(()) => Ok(()),
        Err(_) => Err(ColumnError::Program(ProgramError::Write)),
    }
}

/// Exports a possible chart.
fn export_closure<W: Out>(
    alloc: Global,
    names: &Names,
    source: &Source<'_>,
    closure: &Closure<'_>,
    reports: &[Report],
    target: Target,
    out: &mut W,
) -> Result<Diagnostics, ColumnError>
    requires source { ComesFrom source.now }
    requires reports { AreReports closure.now reports.now }
    requires possible { IsPossible (length closure.now) (chart_lines closure.now) }
    ensures { Exports W.sink out.old out.new result target (turns_in source.now) (names.now, closure.now) }
{
    let prepared = match prepare(alloc, source, closure) {
        Ok(prepared) => prepared,
        Err(AllocError) => return Err(ColumnError::Program(ProgramError::Memory)),
    };
    let chart_source = ExportSource {
        names,
        closure,
        layout: &prepared.layout,
        ends: &prepared.ends,
        reports,
    };
    let export = match Export::of(alloc, tool_of(target), chart_source) {
        Ok(export) => export,
        Err(AllocError) => return Err(ColumnError::Program(ProgramError::Memory)),
    };
    write_text(alloc, target, &export, out)?;
    Ok(Diagnostics {
        parted: has_parted_in(target, &export),
        regions: have_regions(closure.lines()),
    })
}

/// Exports the chart of a source. F16, F17 or F18 refuses a chart that isn't possible.
fn export_source<W: Out>(
    alloc: Global,
    source: &Source<'_>,
    target: Target,
    out: &mut W,
) -> Result<Diagnostics, ColumnError>
    requires { ComesFrom source.now }
    ensures { Exports W.sink out.old out.new result target (turns_in source.now) (named_of source.now) }
{
    let names = source.names();
    let closure = closure_of(alloc, names, source.chart())?;
    let reports = match Reports::of(source, &closure) {
        Ok(reports) => reports,
        Err(AllocError) => return Err(ColumnError::Program(ProgramError::Memory)),
    };
    export_closure(
        alloc,
        names,
        source,
        &closure,
        reports.as_slice(),
        target,
        out,
    )
}

/// Exports the chart in a file.
fn export_text<W: Out>(
    alloc: Global,
    bytes: &[u8],
    target: Target,
    out: &mut W,
) -> Result<Diagnostics, ColumnError>
    ensures { ExportsText W.sink out.old out.new target bytes.now result }
{
    let text = Text::read(alloc, bytes)?;
    let source = Source::of(alloc, &text)?;
    export_source(alloc, &source, target, out)
}

#[tactic(auto, unfolding(crate::specs::Exporting::parted_text))]
fn parted_text(parted: bool) -> &'static [u8]
    ensures { result.now ≡ parted_text parted }
{
    if parted {
        b"a message that isn't level is two notes\n"
    } else {
        b""
    }
}

#[tactic(auto, unfolding(crate::specs::Exporting::regions_text))]
fn regions_text(regions: bool) -> &'static [u8]
    ensures { result.now ≡ regions_text regions }
{
    if regions {
        b"coregions are left out\n"
    } else {
        b""
    }
}

/// Adds the lines of both warnings, as far as they apply.
#[tactic(auto, using(texts::proofs::Writes::joining), unfolding(crate::specs::Exporting::both_text))]
fn add_both<V: Out>(
    text: &mut TextBuffer<'_, V>,
    diagnostics: Diagnostics,
) -> Result<(), WriteError>
    ensures { Adds V.sink text.old text.new result (both_text diagnostics) }
{
    text.add(parted_text(diagnostics.parted))?;
    text.add(regions_text(diagnostics.regions))
}

#[tactic(auto, using(texts::proofs::Writes::joining))]
fn write_both<V: Out>(diagnostics: Diagnostics, err: &mut V) -> Result<(), WriteError>
    ensures { Wrote V.sink err.old err.new result (both_text diagnostics) }
{
    let mut text = TextBuffer::new(err);
    add_both(&mut text, diagnostics)?;
    text.finish()
}

/// Prints what the text of a tool can't express.
impl Answer for Diagnostics {
    ghost exit = { diagnostics_exit };

    fn status(&self) -> u8 {
        0
    }

    fn print_diagnostics<V: Out>(&self, err: &mut V) {
        if self.parted || self.regions {
            let _ = write_both(*self, err);
        }
    }
}

/// Writes the text of a tool for the chart in a file, or for the outcome of the schedule in it. It writes a line to
/// `err` for each kind of thing that the text can't express. It writes the line of a refusal to `err`. It returns the
/// exit status: 0 if the text was written, 2 after a refusal. The faults of the text are refused first, then F16, F17
/// or F18. It writes nothing to `out` before a refusal, unless a write to it failed (F24). A failed write to `err`
/// changes nothing.
pub fn export<W: Out, V: Out>(
    alloc: Global,
    bytes: &[u8],
    target: Target,
    out: &mut W,
    err: &mut V,
) -> u8
    ensures { Answers (ExportsText W.sink out.old out.new target bytes.now) export_exit V.sink err.old err.new result }
{
    answered(&export_text(alloc, bytes, target, out), err)
}
