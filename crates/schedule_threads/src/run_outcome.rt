//! Outcomes of runs.
ghost use Rattle.std.specs.Prelude.{◌≡◌, ◌≤◌, IfOk, OnOk, length, false};
ghost use Rattle.std.specs.List.{list_any};
ghost use Rattle.chart.specs.Reports.{has_races};
ghost use Rattle.schedule_threads.specs.RunOutcomes.{IsRunOf, spent_from, is_memory_end, IsRunOutcome};

use crate::notes::all_notes;
use board::Gathered;
use chart::{InstanceNo, Name, Names};
use instances::{End, Run};
use schedule::Schedule;
use schedule::outcomes::{Outcome, put_by_line};
use std::alloc::{AllocError, Global};
use std::marker::Model;
use texts::named;

/// The outcome of a schedule's run: an outcome as a replay has it, and the names of the instances whose turns were
/// spent, by number. A contract sees a record of both.
#[derive(Debug, Drop)]
pub struct RunOutcome<'a> {
    outcome: Outcome<'a>,
    spent: Vec<Name>,
}

impl<'a> Model for RunOutcome<'a> {
    ghost use Rattle.schedule_threads.specs.RunOutcomes.{RunView};

    ghost Value = { RunView };

    ghost view = { λ o. record { outcome = o.outcome; spent = o.spent.items } };
}

/// The names of the instances whose turns were spent.
///
/// F6: a growth was refused, here or in a trace.
fn spent_names(alloc: Global, names: &Names, ends: &[End]) -> Result<Vec<Name>, AllocError>
    requires { length ends.now ≡ length names.now }
    ensures spent { IfOk result (λ spent. spent.items ≡ spent_from names.now 1 ends.now) }
    ensures memory { OnOk result (list_any is_memory_end ends.now ≡ false) }
{
    prove!(ends.len() <= names.len());
    let mut spent = Vec::new(alloc);
    for (place, end) in ends.iter().enumerate() {
        match end {
            End::TurnsSpent => spent.push(named(names, InstanceNo::at_place(place)))?,
            End::Memory => return Err(AllocError),
            End::Stopped => {}
        }
    }
    Ok(spent)
}

impl<'a> RunOutcome<'a> {
    /// The outcome of a run of a schedule's scripts. The schedule has as many instances as the run: the first trace and
    /// the first end are those of instance 1, and so on.
    ///
    /// F6: a growth was refused, in the run or here.
    pub fn of(alloc: Global, schedule: &'a Schedule, run: Run) -> Result<RunOutcome<'a>, AllocError>
        requires { IsRunOf schedule.now run }
        ensures { IfOk result (IsRunOutcome schedule.now run) }
    {
        let names = schedule.names();
        let mut notes = all_notes(alloc, schedule.commands(), run.traces.as_slice())?;
        put_by_line(&mut notes)?;
        let spent = spent_names(alloc, names, run.ends.as_slice())?;
        let Gathered { chart, reports, .. } = run.gathered;
        Ok(RunOutcome {
            outcome: Outcome::new(names, chart, reports, notes),
            spent,
        })
    }

    /// The part that a replay has too: names, chart, reports and notes.
    pub fn outcome(&self) -> &Outcome<'a>
        ensures { result.now ≡ self.now.outcome }
    {
        &self.outcome
    }

    /// The names of the instances whose turns were spent, by number.
    pub fn spent(&self) -> &[Name]
        ensures { result.now ≡ self.now.spent }
    {
        self.spent.as_slice()
    }

    /// Whether a receive has a race.
    pub fn has_races(&self) -> bool
        ensures { result ≡ has_races self.now.outcome.reports }
    {
        self.outcome.has_races()
    }
}
