//! The verdict on a file.
ghost use Rattle.std.specs.Prelude.{◌≡◌, ◌≢◌, false, None, Ok, length, IfOk, IfErr};
ghost use Rattle.chart.specs.Charts.{chart_lines};
ghost use Rattle.closure.specs.Faults.{Refuses};
ghost use Rattle.diagram_import.specs.Importing.{imported};
ghost use Rattle.diagram_import.specs.Refusals.{Gives};
ghost use Rattle.diagram_join.specs.Building.{joined_chart_view};
ghost use Rattle.cmd_explain_file.specs.Verdicts.{IsOfSchedule, IsOfDiagram, no_options, unread, IsOfLines, IsOfWhole, IsOfChart, IsVerdict};
ghost use Rattle.cmd_explain_file.specs.declared.kind.Kind.TheVariants.{Schedule};
ghost use Rattle.cmd_base.specs.Contents.{Named, is_schedule, chart_part};
ghost use Rattle.msc_text.specs.Reader.Reading.{chart_of};

use crate::kind::Kind;
use crate::verdict::{Unread, Verdict};
use chart::{Chart, Names};
use closure::{ChartError, Closure};
use cmd_base::{ProgramError, Text, chart_in, schedule_in};
use cmd_import_diagram::in_order;
use diagram_import::{ImportError, Options, import_text};
use diagram_join::JoinedChart;
use fault_places::steps_of;
use schedule_replay::notes::notes_of;
use std::alloc::{AllocError, Global};

/// The verdict on a schedule's text.
fn judge_schedule(alloc: Global, text: &[u8]) -> Result<Verdict, ProgramError>
    ensures verdict { IfOk result (IsOfSchedule text.now) }
    ensures memory { IfErr result (λ e. e ≡ ProgramError.Memory) }
{
    let schedule = match schedule_in(alloc, text) {
        Ok(schedule) => schedule,
        Err(ProgramError::Text(fault)) => return Ok(Verdict::Refused(fault)),
        Err(ProgramError::Memory) => return Err(ProgramError::Memory),
        Err(_) => unreachable!(),
    };
    match notes_of(alloc, &schedule) {
        Ok(notes) => Ok(Verdict::Ran(notes)),
        Err(AllocError) => Err(ProgramError::Memory),
    }
}

/// Why a diagram can't be imported.
fn unread(error: &ImportError) -> Unread
    ensures { result ≡ unread error.now }
{
    match error {
        ImportError::Memory | ImportError::Unfinished => Unread::Unfinished,
        ImportError::Usage => Unread::Usage,
        ImportError::NotRead(place, _) => Unread::NotRead(*place),
        ImportError::UnknownInstance(line) => Unread::UnknownInstance(*line),
        ImportError::NoChart(error) => Unread::NoChart(*error),
    }
}

/// The chart of the diagram in a text. No lines are skipped or joined, and constructs that a chart can't express are
/// allowed.
fn diagram_chart_in(alloc: Global, text: &[u8]) -> Result<JoinedChart, ImportError>
    ensures { Gives joined_chart_view result (imported None text.now no_options) }
{
    let options = Options {
        skipped: &[],
        joins: &[],
        is_strict: false,
    };
    import_text(alloc, None, text, options)
}

/// The verdict on a diagram.
fn judge_diagram(alloc: Global, text: &[u8]) -> Result<Verdict, ProgramError>
    ensures verdict { IfOk result (IsOfDiagram text.now) }
    ensures memory { IfErr result (λ e. e ≡ ProgramError.Memory) }
{
    let built = match diagram_chart_in(alloc, text) {
        Ok(built) => built,
        Err(ImportError::Memory) => return Err(ProgramError::Memory),
        Err(error) => return Ok(Verdict::NotBuilt(unread(&error))),
    };
    match in_order(alloc, &built.built.left_out) {
        Ok(left_out) => Ok(Verdict::Built(left_out, built.overtaking)),
        Err(AllocError) => Err(ProgramError::Memory),
    }
}

/// The verdict on a chart in which events come before each other: a shortest cycle.
fn judge_cycle(
    alloc: Global,
    text: &[u8],
    names: &Names,
    chart: &Chart,
) -> Result<Verdict, ProgramError>
    requires names { length chart.now ≡ length names.now }
    requires refused { Refuses (chart_lines chart.now) ChartError.Cyclic }
    ensures verdict { IfOk result (IsOfLines text.now (names.now, chart.now)) }
    ensures memory { IfErr result (λ e. e ≡ ProgramError.Memory) }
{
    match steps_of(alloc, text, names, chart) {
        Ok(steps) => Ok(Verdict::Cyclic(steps)),
        Err(AllocError) => Err(ProgramError::Memory),
    }
}

/// The verdict on whether the chart of this text is possible.
fn judge_lines(
    alloc: Global,
    text: &[u8],
    names: &Names,
    chart: &Chart,
) -> Result<Verdict, ProgramError>
    requires { length chart.now ≡ length names.now }
    ensures verdict { IfOk result (IsOfLines text.now (names.now, chart.now)) }
    ensures memory { IfErr result (λ e. e ≡ ProgramError.Memory) }
{
    let error = match Closure::of(alloc, chart) {
        Ok(_) => return Ok(Verdict::Read),
        Err(error) => error,
    };
    match error {
        ChartError::ReceiveWithoutSend(receive) => Ok(Verdict::NoSend(receive)),
        ChartError::NameMismatch(receive) => Ok(Verdict::OtherName(receive)),
        ChartError::Cyclic => judge_cycle(alloc, text, names, chart),
        ChartError::Memory => Err(ProgramError::Memory),
    }
}

/// The verdict on whether text follows a chart.
fn judge_whole(alloc: Global, text: &[u8]) -> Result<Verdict, ProgramError>
    ensures verdict { IfOk result (IsOfWhole text.now) }
    ensures memory { IfErr result (λ e. e ≡ ProgramError.Memory) }
{
    match chart_in(alloc, text) {
        Ok(_) => Ok(Verdict::Read),
        Err(ProgramError::Text(fault)) => Ok(Verdict::Behind(fault)),
        Err(ProgramError::Memory) => Err(ProgramError::Memory),
        Err(_) => unreachable!(),
    }
}

/// The verdict on a text, by the verdict on its chart. If the chart is possible, the whole text decides.
fn or_whole(alloc: Global, text: &[u8], judged: Verdict) -> Result<Verdict, ProgramError>
    requires { (named : Named) × (chart_of (chart_part text.now) ≡ Ok named) × IsOfLines text.now named judged }
    ensures verdict { IfOk result (IsOfChart text.now) }
    ensures memory { IfErr result (λ e. e ≡ ProgramError.Memory) }
{
    match judged {
        Verdict::Read => judge_whole(alloc, text),
        Verdict::NoSend(receive) => Ok(Verdict::NoSend(receive)),
        Verdict::OtherName(receive) => Ok(Verdict::OtherName(receive)),
        Verdict::Cyclic(steps) => Ok(Verdict::Cyclic(steps)),
        Verdict::Ran(_) => unreachable!(),
        Verdict::Built(_, _) => unreachable!(),
        Verdict::NotBuilt(_) => unreachable!(),
        Verdict::Behind(_) => unreachable!(),
        Verdict::Refused(_) => unreachable!(),
    }
}

/// The verdict on a text that is read as a chart's.
fn judge_chart(alloc: Global, text: &[u8]) -> Result<Verdict, ProgramError>
    requires { is_schedule text.now ≡ false }
    ensures verdict { IfOk result (IsOfChart text.now) }
    ensures memory { IfErr result (λ e. e ≡ ProgramError.Memory) }
{
    let named = match Text::read(alloc, text) {
        Ok(Text::Chart(named)) => named,
        Ok(Text::Schedule(_)) => unreachable!(),
        Err(ProgramError::Text(fault)) => return Ok(Verdict::Refused(fault)),
        Err(ProgramError::Memory) => return Err(ProgramError::Memory),
        Err(_) => unreachable!(),
    };
    let judged = judge_lines(alloc, text, named.names(), named.chart())?;
    or_whole(alloc, text, judged)
}

/// The verdict on a text of this kind.
pub(crate) fn judge(alloc: Global, kind: Kind, text: &[u8]) -> Result<Verdict, ProgramError>
    requires { kind ≢ Schedule → is_schedule text.now ≡ false }
    ensures verdict { IfOk result (IsVerdict kind text.now) }
    ensures memory { IfErr result (λ e. e ≡ ProgramError.Memory) }
{
    match kind {
        Kind::Schedule => judge_schedule(alloc, text),
        Kind::Diagram(_) => judge_diagram(alloc, text),
        Kind::Chart | Kind::Other => judge_chart(alloc, text),
    }
}
