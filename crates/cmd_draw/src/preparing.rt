//! What a picture or an export is made from, in addition to the chart itself.
ghost use Rattle.std.specs.Prelude.{◌≡◌, IfOk};
ghost use Rattle.chart.specs.Reports.{AreReports};
ghost use Rattle.cmd_base.specs.Texts.{named_of, ComesFrom};
ghost use Rattle.schedule.specs.Outcomes.Outcomes.{IsOutcome};
ghost use Rattle.schedule.specs.Turns.Turns.{turns_of};
ghost use Rattle.cmd_draw.specs.Preparing.{reports_in, turns_in, IsPrepared};

use chart::{InstanceNo, Report};
use chart_layout::{Ends, Layout, layout};
use closure::Closure;
use cmd_base::Source;
use schedule::Schedule;
use schedule::outcomes::Outcome;
use schedule::turns::turns_of;
use std::alloc::{AllocError, Global};

/// The reports of a chart's receives.
#[derive(Drop)]
pub enum Reports<'a> {
    /// The reports from the replay of a schedule.
    Replayed(&'a [Report]),
    /// The reports from a search over the chart.
    Searched(Vec<Report>),
}

impl<'a> Reports<'a> {
    /// The reports of the source's chart. F6: it fails only if there is no memory.
    pub fn of(source: &'a Source<'_>, closure: &Closure<'_>) -> Result<Reports<'a>, AllocError>
        requires { closure.now ≡ (named_of source.now).1 }
        ensures { IfOk result (λ reports. AreReports closure.now (reports_in reports)) }
    {
        match source {
            Source::Run(_, outcome) => Ok(Reports::Replayed(outcome.reports())),
            Source::Written(_) => {
                let reports = closure.races()?;
                Ok(Reports::Searched(reports))
            }
        }
    }

    pub fn as_slice(&self) -> &[Report]
        ensures { result.now ≡ reports_in self.now }
    {
        match self {
            Reports::Replayed(reports) => reports,
            Reports::Searched(reports) => reports.as_slice(),
        }
    }
}

/// The rows in which a chart's events are drawn, and the other ends of its messages.
#[derive(Drop)]
pub struct Prepared {
    pub layout: Layout,
    pub ends: Ends,
}

/// The instance of each event in turn, in the run of a schedule. F6: it fails only if there is no memory.
fn turns_of_run(
    alloc: Global,
    schedule: &Schedule,
    outcome: &Outcome<'_>,
) -> Result<Vec<InstanceNo>, AllocError>
    requires { IsOutcome schedule.now outcome.now }
    ensures { IfOk result (λ turns. turns.items ≡ turns_of schedule.now.commands outcome.now.notes) }
{
    turns_of(alloc, schedule.commands(), outcome.notes())
}

/// The instance of each event in turn, in the run that the source's chart comes from. It is empty for a chart's own
/// text, which has no run. F6: it fails only if there is no memory.
pub fn turns_in(alloc: Global, source: &Source<'_>) -> Result<Vec<InstanceNo>, AllocError>
    requires { ComesFrom source.now }
    ensures { IfOk result (λ turns. turns.items ≡ turns_in source.now) }
{
    match source {
        Source::Run(schedule, outcome) => turns_of_run(alloc, *schedule, outcome),
        Source::Written(_) => Ok(Vec::new(alloc)),
    }
}

/// The layout of a chart for these turns, and the other ends of its messages. F6: it fails only if there is no memory.
pub fn prepare_by(
    alloc: Global,
    closure: &Closure<'_>,
    turns: &[InstanceNo],
) -> Result<Prepared, AllocError>
    ensures { IfOk result (λ p. IsPrepared closure.now turns.now p.layout p.ends) }
{
    let layout = layout(alloc, closure, turns)?;
    let ends = Ends::of(alloc, closure)?;
    Ok(Prepared { layout, ends })
}

/// The layout of the source's chart for an export, and the other ends of its messages. F6: it fails only if there is no
/// memory.
pub(crate) fn prepare(
    alloc: Global,
    source: &Source<'_>,
    closure: &Closure<'_>,
) -> Result<Prepared, AllocError>
    requires { ComesFrom source.now }
    ensures { IfOk result (λ p. IsPrepared closure.now (turns_in source.now) p.layout p.ends) }
{
    let turns = turns_in(alloc, source)?;
    prepare_by(alloc, closure, turns.as_slice())
}
