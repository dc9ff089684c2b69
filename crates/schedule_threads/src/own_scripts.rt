//! Runs of schedules whose instances do their own commands.
ghost use Rattle.std.specs.Prelude.{◌≡◌, ◌≤◌, IfOk, IfErr};
ghost use Rattle.instances.specs.Whole.{IsUnrun};
ghost use Rattle.schedule_threads.specs.OwnScripts.{AreScriptRuns, IsTurns, IsNoTurns};
ghost use Rattle.schedule_threads.specs.RunOutcomes.{IsRunOf};

use crate::running::run_schedule;
use crate::scripts::scripts;
use behaviour::Behaviour;
use instances::{MAX_TURNS, Run, RunError};
use schedule::Schedule;
use std::alloc::{AllocError, Global};
use std::thread::Threads;

/// Runs a schedule's scripts, which only missing memory can prevent.
fn run_own_scripts<R: Threads + Sync>(
    rt: &R,
    alloc: Global,
    schedule: &Schedule,
    turns: u32,
) -> Result<Run, AllocError>
    requires { IsTurns turns }
    ensures of { IfOk result (IsRunOf schedule.now) }
    ensures runs { IfOk result (AreScriptRuns schedule.now turns) }
{
    let own_scripts = scripts(alloc, schedule)?;
    let mut behaviours: Vec<Box<dyn Behaviour + Send>> = Vec::new(alloc);
    for script in own_scripts {
        behaviours.push(Box::new(alloc, script)?)?;
    }
    match run_schedule(rt, alloc, schedule, behaviours, turns) {
        Ok(run) => Ok(run),
        Err(RunError::Memory) => Err(AllocError),
        Err(RunError::InvalidInput(..)) => unreachable!(),
    }
}

/// Runs a schedule on a board of its own: each instance does its own commands, in order. Each instance has a thread, or
/// they run one after another if no thread can be made. An instance has at most this many turns.
///
/// F25: the number of turns is 0 or more than [`instances::MAX_TURNS`]. Then nothing was started. F6: a growth was
/// refused, of the scripts, of the board or of its run.
pub fn run_scripts<R: Threads + Sync>(
    rt: &R,
    alloc: Global,
    schedule: &Schedule,
    turns: u32,
) -> Result<Run, RunError<(), ()>>
    ensures of { IfOk result (IsRunOf schedule.now) }
    ensures runs { IfOk result (AreScriptRuns schedule.now turns) }
    ensures turns { IfOk result (λ run. IsTurns turns) }
    ensures err { IfErr result (IsUnrun tt tt (IsTurns turns) (IsNoTurns turns)) }
{
    if turns == 0 || MAX_TURNS < turns {
        return Err(RunError::InvalidInput((), ()));
    }
    match run_own_scripts(rt, alloc, schedule, turns) {
        Ok(run) => Ok(run),
        Err(AllocError) => Err(RunError::Memory),
    }
}
