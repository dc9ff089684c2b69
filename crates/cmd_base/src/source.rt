//! The source of a file's chart: a text of its own, or the run of a schedule.
ghost use Rattle.std.specs.Prelude.{◌≡◌, length, IfOk, IfErr};
ghost use Rattle.cmd_base.specs.NotDone.{not_done_of};
ghost use Rattle.cmd_base.specs.Texts.{IsSourceOf, named_of};

use crate::error::ProgramError;
use crate::not_done::NotDone;
use crate::text::{NamedChart, Text};
use chart::{Chart, Names};
use schedule::Schedule;
use schedule::outcomes::{Outcome, ReplayError};
use schedule_replay::replay;
use std::alloc::Global;

/// The source of a chart.
#[derive(Debug, Drop)]
pub enum Source<'a> {
    /// A schedule, with its outcome.
    Run(&'a Schedule, Outcome<'a>),
    /// The chart's own text.
    Written(&'a NamedChart),
}

impl<'a> Source<'a> {
    /// The chart in a text, or the chart of the text's schedule. F6: a growth was refused.
    pub fn of(alloc: Global, text: &'a Text) -> Result<Source<'a>, ProgramError>
        ensures source { IfOk result (IsSourceOf text.now) }
        ensures memory { IfErr result (λ error. error ≡ ProgramError.Memory) }
    {
        match text {
            Text::Chart(chart) => Ok(Source::Written(chart)),
            Text::Schedule(schedule) => match replay(alloc, schedule) {
                Ok(outcome) => Ok(Source::Run(schedule, outcome)),
                Err(ReplayError::Memory) => Err(ProgramError::Memory),
            },
        }
    }

    /// The names of the chart's instances.
    pub fn names(&self) -> &Names
        ensures { result.now ≡ (named_of self.now).0 }
    {
        match self {
            Source::Run(_, outcome) => outcome.names(),
            Source::Written(written) => written.names(),
        }
    }

    /// The commands of a schedule that did nothing, which its chart lacks. A chart with a text of its own has none.
    pub fn not_done(&self) -> Option<NotDone>
        ensures { result ≡ not_done_of self.now }
    {
        match self {
            Source::Run(_, outcome) => NotDone::of(outcome.notes()),
            Source::Written(_) => None,
        }
    }

    /// The chart, which has a line for each name.
    pub fn chart(&self) -> &Chart
        ensures value { result.now ≡ (named_of self.now).1 }
        ensures named { length (named_of self.now).0 ≡ length (named_of self.now).1 }
    {
        match self {
            Source::Run(_, outcome) => outcome.chart(),
            Source::Written(written) => written.chart(),
        }
    }
}
