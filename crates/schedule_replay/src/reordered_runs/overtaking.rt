//! Runs in which a receive overtakes an event, with as few slots as possible.
ghost use Rattle.std.specs.Prelude.{ℕ, ◌≡◌, ◌<◌, ◌≤◌, length, slice_get, Some, IfOk, List};
ghost use Rattle.chart.specs.declared.line.TheConstants.{MAX_EVENTS};
ghost use Rattle.chart.specs.Charts.{chart_lines, IsReceiveFrom, IsPossible};
ghost use Rattle.chart.specs.HistoryLines.{history_lines};
ghost use Rattle.chart.specs.Histories.{chart_of, IsLegal};
ghost use Rattle.chart.specs.Places.{IsEvent};
ghost use Rattle.closure.specs.Faults.{place_of};
ghost use Rattle.schedule.specs.Meaning.{meaning};
ghost use Rattle.chart.specs.declared.run_steps.step.Step.{Step};
ghost use Rattle.chart.specs.RunSteps.Steps.{history_of, place_after, IsReceive};
ghost use Rattle.schedule_replay.specs.Recorded.{IsRecorded};
ghost use Rattle.schedule_replay.specs.ReorderedRuns.Runs.{IsLeastRun};
ghost use Rattle.schedule_replay.specs.ReorderedRuns.Reorderings.{IsReordered, IsKept};

use crate::recorded_run;
use crate::reordered_runs::running::least_run;
use crate::reordered_runs::steps::step_of;
use crate::reordered_runs::tries::next_try;
use chart::run_steps::Step;
use chart::{Chart, EventNo, MAX_EVENTS};
use reordering::witness::overtake;
use schedule::Schedule;
use schedule::outcomes::ReplayError;
use std::alloc::{AllocError, Global};

/// What is found for a receive and another event.
#[derive(Debug, Drop)]
pub enum Reordered {
    /// A run of the same events and causes in which the receive overtakes the event, and its number of slots. Its steps
    /// are outside of coregions.
    Run { slots: usize, steps: Vec<Step> },
    /// No such run has the receive first, whatever the slots.
    Enforced,
}

/// For a run over lanes of this number of slots, and a receive and another step in it, both by their numbers from 0: a
/// run of the same events and causes in which the receive comes before the event of the other step. It has the least
/// number of slots, from these on, for which there is such a run. Or the answer is that there is none.
///
/// Only the steps that have to come with the receive are moved: they come first, and then the other steps, each in
/// their earlier order. It takes two walks over the steps if these slots suffice, and about twenty at most. F6: it
/// fails only if there is no memory.
pub fn overtake_of_run(
    alloc: Global,
    steps: &[Step],
    slots: usize,
    receive: usize,
    earlier: usize,
) -> Result<Reordered, AllocError>
    requires receive { IsReceive steps.now receive }
    requires earlier { earlier < length steps.now }
    requires limit { slots ≤ MAX_EVENTS }
    ensures order { IfOk result (λ reordered. (n : ℕ) (y : Step) → IsLegal n slots (history_of steps.now)
        → slice_get steps.now receive ≡ Some y → IsKept steps.now (place_after steps.now receive y) reordered) }
    ensures reordered { IfOk result (λ reordered. (n : ℕ) (x y : Step) → IsLegal n slots (history_of steps.now)
        → slice_get steps.now earlier ≡ Some x → slice_get steps.now receive ≡ Some y
        → IsReordered n slots (chart_of (history_of steps.now)) (place_after steps.now earlier x)
        (place_after steps.now receive y) reordered) }
{
    let mut run = match overtake(alloc, steps, MAX_EVENTS, receive, earlier)? {
        Some(run) => run,
        None => return Ok(Reordered::Enforced),
    };
    let mut least = slots;
    let mut most = MAX_EVENTS;
    while least < most {
        let middle = next_try(slots, least, most);
        match overtake(alloc, steps, middle, receive, earlier)? {
            Some(found) => {
                run = found;
                most = middle;
            }
            None => least = middle + 1,
        }
    }
    Ok(Reordered::Run {
        slots: most,
        steps: run,
    })
}

/// The number of the step that makes an event of the run.
fn number_of(steps: &[Step], event: EventNo) -> usize
    requires { (n k : ℕ) × IsLegal n k (history_of steps.now)
        × IsEvent (chart_of (history_of steps.now)) (place_of event) }
    ensures { (x : Step) × (slice_get steps.now result ≡ Some x) × (place_after steps.now result x ≡ place_of event) }
{
    match step_of(steps, event) {
        Some(number) => number,
        None => unreachable!(),
    }
}

/// The same for a receive and another event of the run, by their event numbers.
fn overtake_in_run(
    alloc: Global,
    steps: &[Step],
    slots: usize,
    receive: EventNo,
    earlier: EventNo,
) -> Result<Reordered, AllocError>
    requires legal { (n : ℕ) × IsLegal n slots (history_of steps.now) }
    requires limit { slots ≤ MAX_EVENTS }
    requires receive { (q : ℕ) × IsReceiveFrom (chart_of (history_of steps.now)) q (place_of receive) }
    requires earlier { IsEvent (chart_of (history_of steps.now)) (place_of earlier) }
    ensures order { IfOk result (λ reordered. (n : ℕ) → IsLegal n slots (history_of steps.now)
        → IsKept steps.now (place_of receive) reordered) }
    ensures reordered { IfOk result (λ reordered. (n : ℕ) → IsLegal n slots (history_of steps.now)
        → IsReordered n slots (chart_of (history_of steps.now)) (place_of earlier) (place_of receive) reordered) }
{
    let receive = number_of(steps, receive);
    let earlier = number_of(steps, earlier);
    overtake_of_run(alloc, steps, slots, receive, earlier)
}

/// For a possible chart, and a receive and another event of it: a run of the same events and causes in which the
/// receive comes before the event. It has the least number of slots for which there is such a run. The search begins
/// with the fewest slots over which the chart's lines can be run as drawn. Or the answer is that there is none,
/// whatever the slots. The steps that have to come with the receive come first, and then the others. Both are in the
/// order of a run of the lines as drawn.
///
/// F6: it fails only if there is no memory.
pub fn overtake_of_chart(
    alloc: Global,
    chart: &Chart,
    receive: EventNo,
    earlier: EventNo,
) -> Result<Reordered, AllocError>
    requires possible { IsPossible (length chart.now) (chart_lines chart.now) }
    requires receive { (q : ℕ) × IsReceiveFrom (chart_lines chart.now) q (place_of receive) }
    requires earlier { IsEvent (chart_lines chart.now) (place_of earlier) }
    ensures order { IfOk result (λ reordered. (k : ℕ) × (steps : List Step)
        × IsLeastRun (length chart.now) k (chart_lines chart.now) steps × IsKept steps (place_of receive) reordered) }
    ensures reordered { IfOk result (IsReordered (length chart.now) 1 (chart_lines chart.now) (place_of earlier)
        (place_of receive)) }
{
    let base = least_run(alloc, chart)?;
    overtake_in_run(alloc, base.steps.as_slice(), base.slots, receive, earlier)
}

/// For a schedule, and a receive and another event of its chart: a run of the same events and causes in which the
/// receive comes before the event. It has the least number of slots for which there is such a run, beginning with the
/// schedule's capacity. Or the answer is that there is none, whatever the slots. The steps that have to come with the
/// receive come first, and then the other accepted sends and receives, each in the recorded order.
///
/// F6: it fails only if there is no memory.
pub fn overtake_of_schedule(
    alloc: Global,
    schedule: &Schedule,
    receive: EventNo,
    earlier: EventNo,
) -> Result<Reordered, ReplayError>
    requires receive { (q : ℕ)
        × IsReceiveFrom (chart_lines (history_lines (length schedule.now.names) (meaning schedule.now).run.history)) q
        (place_of receive) }
    requires earlier { IsEvent
        (chart_lines (history_lines (length schedule.now.names) (meaning schedule.now).run.history))
        (place_of earlier) }
    ensures order { IfOk result (λ reordered. (steps : List Step) × IsRecorded schedule.now steps
        × IsKept steps (place_of receive) reordered) }
    ensures reordered { IfOk result (IsReordered (length schedule.now.names) schedule.now.capacity
        (chart_lines (history_lines (length schedule.now.names) (meaning schedule.now).run.history)) (place_of earlier)
        (place_of receive)) }
{
    let steps = recorded_run(alloc, schedule)?;
    let slots = schedule.capacity().slots();
    let reordered = overtake_in_run(alloc, steps.as_slice(), slots, receive, earlier)?;
    Ok(reordered)
}
