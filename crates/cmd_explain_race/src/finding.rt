//! The search for the other order of two events.
ghost use Rattle.std.specs.Prelude.{ℕ, ◌≡◌, ◌≤◌, length};
ghost use Rattle.closure.specs.Faults.{place_of};
ghost use Rattle.chart.specs.Charts.{chart_lines};
ghost use Rattle.cmd_base.specs.Texts.{named_of, ComesFrom};
ghost use Rattle.schedule.specs.Outcomes.Outcomes.{IsOutcome};
ghost use Rattle.schedule_replay.specs.ReorderedRuns.Reorderings.{IsReordered};
ghost use Rattle.cmd_base.specs.Pairs.Pairs.{IsPair};
ghost use Rattle.cmd_explain_race.specs.Finding.{IsFoundOf, IsFound, is_close, has_closes, closes_in, origin_of, Judges};
ghost use Rattle.cmd_explain_race.specs.Reordering.{Origin, first_of, IsKeptFrom, IsAskedFor};
ghost use Rattle.cmd_explain_race.specs.Reordering.Origin.{from_chart, recorded};

use crate::explained::are_in_one_region;
use crate::verdict::{Verdict, Witnessed};
use chart::{Chart, Names};
use cmd_base::pairs::{Asked, Pair, PairError, pair_in};
use cmd_base::{ProgramError, Source, closure_of};
use schedule::outcomes::{Outcome, ReplayError};
use schedule::{Action, Schedule};
use schedule_replay::reordered_runs::{
    Reordered, Shown, overtake_of_chart, overtake_of_schedule, show,
};
use std::alloc::{AllocError, Global};

/// The pair of events, and the result of the search for their other order.
#[derive(Debug, Drop)]
pub struct Found {
    pub pair: Pair,
    pub shown: Shown,
}

/// The two events of a possible chart that the words name.
fn pair_of_possible(
    alloc: Global,
    names: &Names,
    chart: &Chart,
    asked: &Asked<'_>,
) -> Result<Pair, PairError>
    requires { length names.now ≡ length chart.now }
    ensures { IsAskedFor (names.now, chart.now) asked.now result }
{
    let _closure = closure_of(alloc, names, chart)?;
    pair_in(names, chart.lines(), asked)
}

/// The result for a pair of the chart, by the run that was found.
fn found_of(
    alloc: Global,
    names: &Names,
    chart: &Chart,
    reordered: &Reordered,
    pair: &Pair,
) -> Result<Found, PairError>
    requires named { length names.now ≡ length chart.now }
    requires reordered { (first : ℕ) × (1 ≤ first) × IsReordered (length names.now) first (chart_lines chart.now)
        (place_of pair.now.earlier) (place_of pair.now.receive) reordered.now }
    ensures { (origin : Origin) → 1 ≤ first_of origin → IsReordered (length names.now) (first_of origin)
        (chart_lines chart.now) (place_of pair.now.earlier) (place_of pair.now.receive) reordered.now
        → IsKeptFrom (names.now, chart.now) origin pair.now reordered.now
        → IsFoundOf (names.now, chart.now) origin pair.now result }
{
    let lines = chart.lines();
    prove!(2 <= lines.len());
    match show(alloc, names, reordered) {
        Ok(shown) => Ok(Found { pair: *pair, shown }),
        Err(AllocError) => Err(PairError::Program(ProgramError::Memory)),
    }
}

/// The result for two events of the chart.
fn found_in_chart(
    alloc: Global,
    names: &Names,
    chart: &Chart,
    asked: &Asked<'_>,
) -> Result<Found, PairError>
    requires { length names.now ≡ length chart.now }
    ensures { IsFound (names.now, chart.now) from_chart asked.now result }
{
    let pair = pair_of_possible(alloc, names, chart, asked)?;
    let reordered = match overtake_of_chart(alloc, chart, pair.receive, pair.earlier) {
        Ok(reordered) => reordered,
        Err(AllocError) => return Err(PairError::Program(ProgramError::Memory)),
    };
    found_of(alloc, names, chart, &reordered, &pair)
}

/// The same for two events of a schedule's chart. The events that needn't come with the receive stay in the recorded
/// order.
fn found_in_run(
    alloc: Global,
    schedule: &Schedule,
    outcome: &Outcome<'_>,
    asked: &Asked<'_>,
) -> Result<Found, PairError>
    requires { IsOutcome schedule.now outcome.now }
    ensures { IsFound (outcome.now.names, outcome.now.chart) (recorded schedule.now) asked.now result }
{
    let pair = pair_of_possible(alloc, outcome.names(), outcome.chart(), asked)?;
    let reordered = match overtake_of_schedule(alloc, schedule, pair.receive, pair.earlier) {
        Ok(reordered) => reordered,
        Err(ReplayError::Memory) => return Err(PairError::Program(ProgramError::Memory)),
    };
    prove!(1 <= schedule.capacity().slots());
    found_of(alloc, outcome.names(), outcome.chart(), &reordered, &pair)
}

/// The result for two events of a chart that was read: a schedule with a run that reverses them; or that no run does;
/// or how many slots a run needs. F16, F17 or F18: the chart isn't possible. F31 or F32: the chart has no such pair.
/// F6: a growth was refused.
pub fn found_in(alloc: Global, source: &Source<'_>, asked: &Asked<'_>) -> Result<Found, PairError>
    requires { ComesFrom source.now }
    ensures { IsFound (named_of source.now) (origin_of source.now) asked.now result }
{
    match source {
        Source::Run(schedule, outcome) => found_in_run(alloc, schedule, outcome, asked),
        Source::Written(named) => found_in_chart(alloc, named.names(), named.chart(), asked),
    }
}

fn is_close(action: &Action) -> bool
    ensures { result ≡ is_close action.now }
{
    match action {
        Action::Close { .. } => true,
        Action::Send { .. } | Action::Receive { .. } | Action::Any | Action::Open | Action::Shut =>
            false,
    }
}

/// Whether a schedule closes a lane.
fn has_closes(schedule: &Schedule) -> bool
    ensures { result ≡ has_closes schedule.now }
{
    schedule
        .commands()
        .iter()
        .any(|command| is_close(&command.action))
}

/// Whether the chart comes from a schedule that closes a lane.
fn closes_in(source: &Source<'_>) -> bool
    ensures { result ≡ closes_in source.now }
{
    match source {
        Source::Run(schedule, _) => has_closes(schedule),
        Source::Written(_) => false,
    }
}

/// The verdict on the two events of the source's chart, by the result for them. F33: all runs that reverse them need
/// more than 64 slots.
pub fn judged(source: &Source<'_>, found: &Found) -> Result<Witnessed, PairError>
    requires { IsPair (chart_lines (named_of source.now).1) found.now.pair }
    ensures { Judges source.now found.now result }
{
    let verdict = match &found.shown {
        Shown::Enforced => Verdict::Enforced,
        Shown::TooManySlots(slots) => return Err(PairError::ManySlots(*slots as u64)),
        Shown::Replay(_) => Verdict::of(are_in_one_region(source.chart().lines(), &found.pair)),
    };
    Ok(Witnessed {
        verdict,
        has_closes: closes_in(source),
    })
}
