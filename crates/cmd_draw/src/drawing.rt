//! What `mscview draw` writes for the bytes of a file.
ghost use Rattle.std.specs.Prelude.{◌≡◌, ◌≤◌, [], length};
ghost use Rattle.chart.specs.declared.instance.TheConstants.{MAX_INSTANCES};
ghost use Rattle.chart.specs.Charts.{chart_lines, IsPossible};
ghost use Rattle.chart.specs.Reports.{AreReports};
ghost use Rattle.cmd_base.specs.Answers.{Answers};
ghost use Rattle.cmd_base.specs.Texts.{named_of, ComesFrom};
ghost use Rattle.cmd_draw.specs.Answers.{draw_exit};
ghost use Rattle.cmd_base.specs.Columns.Columns.{AreColumns, only_of};
ghost use Rattle.cmd_draw.specs.Drawing.{Draws, DrawsText};
ghost use Rattle.cmd_draw.specs.Preparing.{turns_in};

use crate::error::DrawError;
use crate::events::Events;
use crate::preparing::{Reports, prepare_by, turns_in};
use crate::windows::{Rows, window_in};
use chart::{Chart, InstanceNo, Names, Report};
use chart_layout::margin::MarginNote;
use closure::Closure;
use cmd_base::columns::{ColumnError, columns_in};
use cmd_base::{NotDone, ProgramError, Source, Text, answered, closure_of};
use pictures::{Part, Picture, write_picture};
use std::alloc::{AllocError, Global};
use texts::Out;

/// What to draw of a file, and how.
#[derive(Clone, Copy, Debug)]
pub struct Wanted<'a> {
    /// The title above the picture: any bytes.
    pub title: &'a [u8],
    /// The names of the instances that have a column, joined by commas. Without it each instance has one.
    pub only: Option<&'a [u8]>,
    /// The numbers of the events that are chosen, on each line.
    pub events: Events,
    /// The rows whose events are chosen.
    pub rows: Rows<'a>,
    /// Whether each event has its number beside it.
    pub numbers: bool,
}

/// A chart to draw.
#[derive(Clone, Copy)]
struct Subject<'a> {
    names: &'a Names,
    closure: &'a Closure<'a>,
    /// The instance of each event in turn, in the run or the diagram that the chart comes from. It is empty for a
    /// chart's own text.
    turns: &'a [InstanceNo],
    /// The texts in the margin, beside its rows.
    notes: &'a [MarginNote],
    /// The reports of its receives.
    reports: &'a [Report],
}

/// Draws these columns of a possible chart. F31 refuses rows around an event that the chart doesn't have. It takes all
/// memory before it writes the first byte.
fn draw_columns<W: Out>(
    alloc: Global,
    subject: &Subject<'_>,
    columns: &[InstanceNo],
    wanted: &Wanted<'_>,
    out: &mut W,
) -> Result<(), DrawError>
    requires limit { length columns.now ≤ MAX_INSTANCES }
    requires columns { AreColumns subject.now.names.now (only_of wanted.now.only) columns.now }
    requires reports { AreReports subject.now.closure.now subject.now.reports.now }
    requires possible { IsPossible (length subject.now.closure.now) (chart_lines subject.now.closure.now) }
    ensures { Draws W.sink out.old out.new result wanted.now subject.now.turns.now subject.now.notes.now
        (subject.now.names.now, subject.now.closure.now) }
{
    let (names, closure) = (subject.names, subject.closure);
    let prepared = match prepare_by(alloc, closure, subject.turns) {
        Ok(prepared) => prepared,
        Err(AllocError) => return Err(DrawError::Columns(ColumnError::Program(
            ProgramError::Memory,
        ))),
    };
    let window = window_in(names, closure.lines(), &prepared.layout, &wanted.rows)?;
    let picture_source = pictures::Source {
        title: wanted.title,
        names,
        closure,
        layout: &prepared.layout,
        ends: &prepared.ends,
        reports: subject.reports,
    };
    let part = Part {
        instances: columns,
        first: wanted.events.first,
        last: wanted.events.last,
        top: window.top,
        bottom: window.bottom,
        numbers: wanted.numbers,
        notes: subject.notes,
    };
    let picture = match Picture::of(alloc, picture_source, part) {
        Ok(picture) => picture,
        Err(AllocError) => return Err(DrawError::Columns(ColumnError::Program(
            ProgramError::Memory,
        ))),
    };
    match write_picture(&picture, out) {
        Ok(()) => Ok(()),
        Err(_) => Err(DrawError::Columns(ColumnError::Program(ProgramError::Write))),
    }
}

/// Draws the wanted part of a source's chart. F34 refuses a name of `--only` that the chart doesn't have, or that is
/// given twice. Then F16, F17 or F18 refuses a chart that isn't possible, and then F31 an event that it doesn't have.
fn draw_source<W: Out>(
    alloc: Global,
    source: &Source<'_>,
    wanted: &Wanted<'_>,
    out: &mut W,
) -> Result<(), DrawError>
    requires { ComesFrom source.now }
    ensures { Draws W.sink out.old out.new result wanted.now (turns_in source.now) [] (named_of source.now) }
{
    let names = source.names();
    let columns = columns_in(alloc, names, wanted.only)?;
    let closure = closure_of(alloc, names, source.chart())?;
    let reports = match Reports::of(source, &closure) {
        Ok(reports) => reports,
        Err(AllocError) => return Err(DrawError::Columns(ColumnError::Program(
            ProgramError::Memory,
        ))),
    };
    let turns = match turns_in(alloc, source) {
        Ok(turns) => turns,
        Err(AllocError) => return Err(DrawError::Columns(ColumnError::Program(
            ProgramError::Memory,
        ))),
    };
    let subject = Subject {
        names,
        closure: &closure,
        turns: turns.as_slice(),
        notes: &[],
        reports: reports.as_slice(),
    };
    draw_columns(alloc, &subject, columns.as_slice(), wanted, out)
}

/// Draws the wanted part of a chart, with these notes in its margin. The chart has a line for each name. The turns give
/// the instance of each event, one event after another, and so decide the rows. Without turns the rule of
/// [`chart_layout::layout`] decides them. F34 refuses a name of `--only` that the chart doesn't have, or that is given
/// twice. Then F16, F17 or F18 refuses a chart that isn't possible, and then F31 an event that it doesn't have. It
/// writes nothing before a refusal, unless a write failed (F24).
pub fn draw_chart<W: Out>(
    alloc: Global,
    names: &Names,
    chart: &Chart,
    turns: &[InstanceNo],
    notes: &[MarginNote],
    wanted: &Wanted<'_>,
    out: &mut W,
) -> Result<(), DrawError>
    requires { length names.now ≡ length chart.now }
    ensures { Draws W.sink out.old out.new result wanted.now turns.now notes.now (names.now, chart.now) }
{
    let columns = columns_in(alloc, names, wanted.only)?;
    let closure = closure_of(alloc, names, chart)?;
    let reports = match closure.races() {
        Ok(reports) => reports,
        Err(AllocError) => return Err(DrawError::Columns(ColumnError::Program(
            ProgramError::Memory,
        ))),
    };
    let subject = Subject {
        names,
        closure: &closure,
        turns,
        notes,
        reports: reports.as_slice(),
    };
    draw_columns(alloc, &subject, columns.as_slice(), wanted, out)
}

/// Draws the chart in a file. It returns which commands of its schedule did nothing.
fn draw_text<W: Out>(
    alloc: Global,
    bytes: &[u8],
    wanted: &Wanted<'_>,
    out: &mut W,
) -> Result<Option<NotDone>, DrawError>
    ensures { DrawsText W.sink out.old out.new wanted.now bytes.now result }
{
    let text = Text::read(alloc, bytes)?;
    let source = Source::of(alloc, &text)?;
    draw_source(alloc, &source, wanted, out)?;
    Ok(source.not_done())
}

/// Writes a picture, as SVG text, of the chart in a file, or of the outcome of the schedule in it. The picture has
/// columns, rows and the marks of races. It writes the line of a refusal to `err`, and for a schedule how many of its
/// commands did nothing. It returns the exit status: 0 if the picture was written, 2 after a refusal. The faults of the
/// text are refused first, then F34, then F16, F17 or F18, and then F31. It writes nothing to `out` before a refusal,
/// unless a write to it failed (F24). A failed write to `err` changes nothing.
pub fn draw<W: Out, V: Out>(
    alloc: Global,
    bytes: &[u8],
    wanted: &Wanted<'_>,
    out: &mut W,
    err: &mut V,
) -> u8
    ensures { Answers (DrawsText W.sink out.old out.new wanted.now bytes.now) draw_exit V.sink err.old err.new result }
{
    answered(&draw_text(alloc, bytes, wanted, out), err)
}
