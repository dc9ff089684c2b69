//! Runs of a chart with its lines as drawn.
ghost use Rattle.std.specs.Prelude.{◌≡◌, length, IfOk, option_map};
ghost use Rattle.chart.specs.Charts.{chart_lines, IsPossible};
ghost use Rattle.schedule_replay.specs.ReorderedRuns.Runs.{IsRunFound, IsLeastRun};

use crate::reordered_runs::going::Going;
use crate::reordered_runs::tries::next_try;
use chart::run_steps::Step;
use chart::{Chart, MAX_EVENTS};
use std::alloc::{AllocError, Global};

/// A run of a possible chart, with its lines as drawn, over lanes of this number of slots. The answer is `None` exactly
/// if there is no such run: no history with this chart is legal over such lanes.
///
/// Each line goes on as far as it can, and then the first line that can. So the run is unique. The function makes each
/// step once, and looks at each line once for each time that a line stops. F6: it fails only if there is no memory.
pub fn run_within(
    alloc: Global,
    chart: &Chart,
    slots: usize,
) -> Result<Option<Vec<Step>>, AllocError>
    requires { IsPossible (length chart.now) (chart_lines chart.now) }
    ensures { IfOk result (λ found. IsRunFound (length chart.now) slots (chart_lines chart.now)
        (option_map (λ run. run.items) found)) }
{
    let lines = chart.lines();
    let mut going = Going::start(alloc)?;
    let mut steps = Vec::new(alloc);
    let mut line = 0;
    while let Some(step) = going.ready(lines, slots, line) {
        going.make(&step);
        steps.push(step)?;
        line = step.maker().place();
    }
    if !going.is_done(lines) {
        return Ok(None);
    }
    Ok(Some(steps))
}

/// A run with its number of slots.
#[derive(Debug, Drop)]
pub struct LeastRun {
    pub slots: usize,
    pub steps: Vec<Step>,
}

/// The least number of slots, from 1 on, over which a possible chart's lines can be run as drawn, and such a run.
///
/// It makes two runs if one slot suffices, and about twenty at most. F6: it fails only if there is no memory.
pub fn least_run(alloc: Global, chart: &Chart) -> Result<LeastRun, AllocError>
    requires { IsPossible (length chart.now) (chart_lines chart.now) }
    ensures { IfOk result (λ run. IsLeastRun (length chart.now) run.slots (chart_lines chart.now) run.steps.items) }
{
    let mut steps = match run_within(alloc, chart, MAX_EVENTS)? {
        Some(steps) => steps,
        None => unreachable!(),
    };
    let mut least = 1;
    let mut slots = MAX_EVENTS;
    while least < slots {
        let middle = next_try(1, least, slots);
        match run_within(alloc, chart, middle)? {
            Some(run) => {
                steps = run;
                slots = middle;
            }
            None => least = middle + 1,
        }
    }
    Ok(LeastRun { slots, steps })
}
