//! The schedule of a run.
ghost use Rattle.std.specs.Prelude.{◌≡◌, ◌+◌, ◌≤◌, [], length, IfOk, All};
ghost use Rattle.chart.specs.Histories.{IsLegal};
ghost use Rattle.schedule.specs.Meaning.{meaning};
ghost use Rattle.chart.specs.RunSteps.Steps.{history_of, IsOutside};
ghost use Rattle.schedule_replay.specs.declared.reordered_runs.scheduling.TheConstants.{FIRST_LINE};
ghost use Rattle.schedule_replay.specs.ReorderedRuns.Schedules.{command_of, commands_of};

use chart::Names;
use chart::run_steps::Step;
use schedule::{Action, Capacity, Command, Schedule};
use std::alloc::{AllocError, Global};

/// The line of a schedule's text that has its first command.
pub const FIRST_LINE: u64 = 3;

/// The command of a step, on this line of the schedule's text.
fn command_of(line: u64, step: &Step) -> Command
    ensures { result ≡ command_of line step.now }
{
    match step {
        Step::Send { from, to, name } => Command {
            line,
            actor: *from,
            action: Action::Send {
                to: *to,
                name: *name,
            },
        },
        Step::Receive { at, from, .. } => Command {
            line,
            actor: *at,
            action: Action::Receive { from: *from },
        },
    }
}

/// A command for each step.
fn commands_of(alloc: Global, steps: &[Step]) -> Result<Vec<Command>, AllocError>
    ensures { IfOk result (λ commands. commands.items ≡ commands_of FIRST_LINE steps.now) }
{
    let mut commands = Vec::with_capacity(alloc, steps.len())?;
    for place in 0..steps.len() {
        // Field by field: the borrow checker has to see the types of which a type of another crate consists.
        let Command {
            line,
            actor,
            action,
        } = command_of(place as u64 + FIRST_LINE, &steps[place]);
        commands.push(Command {
            line,
            actor,
            action,
        })?;
    }
    Ok(commands)
}

/// The schedule of a run over lanes of this number of slots: a command for each step, in order and on the lines of its
/// text. If the steps are outside of coregions, it means exactly this run and refuses no command.
///
/// F6: it fails only if there is no memory.
pub fn schedule_of(
    alloc: Global,
    names: &Names,
    slots: Capacity,
    steps: &[Step],
) -> Result<Schedule, AllocError>
    requires several { 2 ≤ length names.now }
    requires legal { IsLegal (length names.now) slots (history_of steps.now) }
    ensures parts { IfOk result (λ schedule.
        schedule ≡ record { names = names.now; capacity = slots; commands = commands_of FIRST_LINE steps.now }) }
    ensures meaning { IfOk result (λ schedule. All IsOutside steps.now
        → ((meaning schedule).run.history ≡ history_of steps.now) × ((meaning schedule).notes ≡ [])) }
{
    prove!(2 <= names.len());
    let commands = commands_of(alloc, steps)?;
    Ok(Schedule::new(names.copied()?, slots, commands))
}
