//! The notes of an export's rows and the tool's rows above them, found before anything is written.
ghost use Rattle.std.specs.Prelude.{◌≡◌, length, replicate, None, Some, slice_set, IfOk};
ghost use Rattle.diagram_export.specs.Preparing.{put_in, put_report, notes_of, height, below, starts_from, IsExportOf};

use crate::export::Export;
use crate::source::ExportSource;
use chart::Report;
use chart_layout::Layout;
use diagram_tool::Tool;
use std::alloc::{AllocError, Global};

/// Puts the note of the report at this place into a row.
fn put(notes: &mut [Option<usize>], place: usize, row: Option<usize>)
    ensures { notes.new ≡ put_in notes.old place row }
{
    if let Some(row) = row {
        if row < notes.len() {
            notes[row] = Some(place);
        }
    }
}

/// Puts the note of the report at this place into the row of its receive, if it has races.
fn put_report(notes: &mut [Option<usize>], layout: &Layout, place: usize, report: &Report)
    ensures { notes.new ≡ put_report layout.now notes.old place report.now }
{
    if report.earlier().is_empty() {
        return;
    }
    put(notes, place, layout.row_of(&report.receive()));
}

/// For each row, the place of its receive's report among the reports, if it has races.
fn notes_of(
    alloc: Global,
    layout: &Layout,
    reports: &[Report],
) -> Result<Vec<Option<usize>>, AllocError>
    ensures { IfOk result (λ notes. notes.items ≡ notes_of layout.now reports.now) }
{
    let mut notes = vec![in alloc; None; layout.rows().len()]?;
    for place in 0..reports.len() {
        put_report(notes.as_mut_slice(), layout, place, &reports[place]);
    }
    Ok(notes)
}

/// The number of the tool's rows that a row has.
fn height(note: &Option<usize>) -> u32
    ensures { result ≡ height note.now }
{
    match note {
        None => 1,
        Some(_) => 2,
    }
}

/// For each row, the number of the tool's rows above it.
fn starts_of(alloc: Global, notes: &[Option<usize>]) -> Result<Vec<u32>, AllocError>
    ensures { IfOk result (λ starts. starts.items ≡ starts_from 0 notes.now) }
{
    let mut starts = Vec::with_capacity(alloc, notes.len())?;
    let mut above = 0u32;
    for note in notes {
        starts.push(above)?;
        above = above.saturating_add(height(note));
    }
    Ok(starts)
}

impl<'a> Export<'a> {
    /// The export of a chart to a tool.
    ///
    /// F6: it fails only if memory runs out.
    pub fn of(alloc: Global, tool: Tool, source: ExportSource<'a>) -> Result<Export<'a>, AllocError>
        ensures { IfOk result (IsExportOf tool source.entry.names.now source.entry.closure.now
            source.entry.layout.now source.entry.reports.now source.entry.ends.now) }
    {
        prove!(source.closure.len() >= 2);
        let notes = notes_of(alloc, source.layout, source.reports)?;
        let starts = starts_of(alloc, notes.as_slice())?;
        Ok(Export {
            tool,
            names: source.names,
            lines: source.closure.lines(),
            reports: source.reports,
            layout: source.layout,
            ends: source.ends,
            notes,
            starts,
        })
    }
}
