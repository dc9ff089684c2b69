//! The outcome of a schedule.
ghost use Rattle.std.specs.Prelude.{◌≡◌, length};
ghost use Rattle.chart.specs.Reports.{AreReports, has_races};
ghost use Rattle.schedule.specs.Outcomes.Outcomes.{FitTogether, OneOutcomeLaw, PossibleOutcomeLaw};

use crate::Note;
use chart::{Chart, Names, Report, has_races};
use std::marker::Model;

/// The outcome of a schedule: its instances' names, the chart of what happened, and the report of each receive by
/// instance and index. Further, a note for each command that was refused or found nothing, by line. A contract sees a
/// record of these. There are as many names as lines, and the reports are those of the chart's receives.
#[derive(Debug)]
pub struct Outcome<'a> {
    names: &'a Names,
    chart: Chart,
    reports: Vec<Report>,
    notes: Vec<Note>,
}

// Written by hand, as that of a chart is.
impl<'a> Drop for Outcome<'a> {
    #[inline(never)]
    fn drop(self) {
        let Outcome {
            names: _,
            chart: _,
            reports: _,
            notes: _,
        } = self;
    }
}

impl<'a> Model for Outcome<'a> {
    ghost use Rattle.schedule.specs.Outcomes.Outcomes.{OutcomeView, FitTogether};

    ghost Value = { OutcomeView };

    ghost view = { λ o. record {
      names = o.names.now;
      chart = o.chart;
      reports = o.reports.items;
      notes = o.notes.items;
    } };

    ghost invariant = { λ o. FitTogether o.names.now o.chart o.reports.items };
}

impl<'a> Outcome<'a> {
    /// The outcome of these parts, which a replay has made: as many names as the chart has lines, the report of each
    /// receive by instance and index, and the notes by line.
    pub fn new(
        names: &'a Names,
        chart: Chart,
        reports: Vec<Report>,
        notes: Vec<Note>,
    ) -> Outcome<'a>
        requires { FitTogether names.now chart reports.items }
        ensures { result ≡ record { names = names.now; chart = chart; reports = reports.items; notes = notes.items } }
    {
        Outcome {
            names,
            chart,
            reports,
            notes,
        }
    }

    /// The names of the instances.
    pub fn names(&self) -> &'a Names
        ensures { result.now ≡ self.now.names }
    {
        self.names
    }

    pub fn chart(&self) -> &Chart
        ensures value { result.now ≡ self.now.chart }
        ensures named { length self.now.names ≡ length self.now.chart }
    {
        &self.chart
    }

    /// The report of each receive, by instance and index.
    pub fn reports(&self) -> &[Report]
        ensures value { result.now ≡ self.now.reports }
        ensures exact { AreReports self.now.chart self.now.reports }
    {
        self.reports.as_slice()
    }

    /// Whether a receive has a race.
    pub fn has_races(&self) -> bool
        ensures { result ≡ has_races self.now.reports }
    {
        has_races(self.reports())
    }

    /// The notes, by the lines of the commands that left them.
    pub fn notes(&self) -> &[Note]
        ensures { result.now ≡ self.now.notes }
    {
        self.notes.as_slice()
    }
}

/// A schedule has one outcome and no other: each receive has only one report.
pub fn one_outcome_law()
    ensures { OneOutcomeLaw }
{}

/// The chart of a schedule's outcome is possible: some run has it.
pub fn possible_outcome_law()
    ensures { PossibleOutcomeLaw }
{}
