//! The races of a file, by the names of their messages.
ghost use Rattle.std.specs.Prelude.{◌≡◌, length, IfSome};
ghost use Rattle.chart.specs.Charts.{chart_lines, IsPossible};
ghost use Rattle.cmd_base.specs.Answers.{Answers};
ghost use Rattle.cmd_base.specs.Columns.Columns.{AreColumns, only_of};
ghost use Rattle.cmd_races.specs.Showing.{Shows, ShowsText};
ghost use Rattle.cmd_races.specs.Statuses.{shown_exit};
ghost use Rattle.shown_races.specs.Selected.{is_there};

use crate::shown_file::ShownFile;
use chart::{Chart, InstanceNo, Names};
use closure::Closure;
use cmd_base::columns::{ColumnError, columns_in};
use cmd_base::{ProgramError, Source, Status, Text, answered, closure_of};
use races_text::named::{Form, RaceQuery, write_races};
use reordering::completion::Completion;
use std::alloc::{AllocError, Global};
use texts::Out;

/// The selection of a file's races, and their form.
#[derive(Clone, Copy, Debug)]
pub struct Wanted<'a> {
    /// The names of the instances whose receives are shown, separated by commas. Without it all are shown.
    pub only: Option<&'a [u8]>,
    /// Whether only receives are shown among the earlier events.
    pub receives: bool,
    /// Whether instances finish the work for a message before they receive again. Then the races that are left are
    /// shown.
    pub run_to_completion: bool,
    pub form: Form,
}

/// Writes the races of these instances of a possible chart. With a completion it writes those that are left when
/// instances finish. It allocates all memory before it writes the first byte.
fn show_selected<W: Out>(
    names: &Names,
    closure: &Closure<'_>,
    instances: &[InstanceNo],
    wanted: &Wanted<'_>,
    completion: Option<&Completion<'_>>,
    out: &mut W,
) -> Result<Status, ColumnError>
    requires instances { AreColumns names.now (only_of wanted.now.only) instances.now }
    requires possible { IsPossible (length closure.now) (chart_lines closure.now) }
    requires lines { IfSome completion (λ completion. completion.now ≡ closure.now) }
    requires asked { is_there completion ≡ wanted.now.run_to_completion }
    ensures { Shows W.sink out.old out.new result wanted.now (names.now, closure.now) }
{
    let reporter = match closure.reporter() {
        Ok(reporter) => reporter,
        Err(AllocError) => return Err(ColumnError::Program(ProgramError::Memory)),
    };
    let query = RaceQuery {
        names,
        lines: closure.lines(),
        only: instances,
        receives: wanted.receives,
        completion,
        form: wanted.form,
    };
    match write_races(&query, reporter, out) {
        Ok(shown) => Ok(Status::of(shown)),
        Err(_) => Err(ColumnError::Program(ProgramError::Write)),
    }
}

/// Writes the wanted races of these instances of a possible chart.
fn show_races<W: Out>(
    alloc: Global,
    names: &Names,
    closure: &Closure<'_>,
    instances: &[InstanceNo],
    wanted: &Wanted<'_>,
    out: &mut W,
) -> Result<Status, ColumnError>
    requires instances { AreColumns names.now (only_of wanted.now.only) instances.now }
    requires possible { IsPossible (length closure.now) (chart_lines closure.now) }
    ensures { Shows W.sink out.old out.new result wanted.now (names.now, closure.now) }
{
    if !wanted.run_to_completion {
        return show_selected(names, closure, instances, wanted, None, out);
    }
    let completion = match Completion::of(alloc, closure) {
        Ok(completion) => completion,
        Err(AllocError) => return Err(ColumnError::Program(ProgramError::Memory)),
    };
    show_selected(names, closure, instances, wanted, Some(&completion), out)
}

/// Writes the wanted races of a chart, by the names of their messages. The chart has a line for each name. F34: a
/// name in `only` isn't one of the chart's, or is there twice. Then F16, F17 or F18 refuses a chart that no run has.
/// Nothing is written before a refusal, unless writing failed (F24). F6 is possible at any point before.
pub fn show_chart<W: Out>(
    alloc: Global,
    names: &Names,
    chart: &Chart,
    wanted: &Wanted<'_>,
    out: &mut W,
) -> Result<Status, ColumnError>
    requires { length names.now ≡ length chart.now }
    ensures { Shows W.sink out.old out.new result wanted.now (names.now, chart.now) }
{
    let instances = columns_in(alloc, names, wanted.only)?;
    let closure = closure_of(alloc, names, chart)?;
    show_races(alloc, names, &closure, instances.as_slice(), wanted, out)
}

/// Writes the wanted races of the file's chart.
fn show_text<W: Out>(
    alloc: Global,
    bytes: &[u8],
    wanted: &Wanted<'_>,
    out: &mut W,
) -> Result<ShownFile, ColumnError>
    ensures { ShowsText W.sink out.old out.new wanted.now bytes.now result }
{
    let text = Text::read(alloc, bytes)?;
    let source = Source::of(alloc, &text)?;
    let status = show_chart(alloc, source.names(), source.chart(), wanted, out)?;
    Ok(ShownFile {
        status,
        not_done: source.not_done(),
    })
}

/// Writes the races of a file's chart to `out`, by the names of their messages. The bytes are a chart or a schedule,
/// and a schedule is replayed. There is a line for each range of earlier events, or a JSON object for each receive.
/// The line of a refusal goes to `err`, and so does the number of a schedule's commands that did nothing. The exit
/// status is 1 if a race is shown, 0 if none is, and 2 after a refusal. The faults of the text come first, then F34,
/// then F16, F17 or F18. Nothing is written to `out` before a refusal, unless writing to it failed (F24). A failed
/// write to `err` changes nothing.
pub fn races<W: Out, V: Out>(
    alloc: Global,
    bytes: &[u8],
    wanted: &Wanted<'_>,
    out: &mut W,
    err: &mut V,
) -> u8
    ensures { Answers (ShowsText W.sink out.old out.new wanted.now bytes.now) shown_exit V.sink err.old err.new result }
{
    answered(&show_text(alloc, bytes, wanted, out), err)
}
