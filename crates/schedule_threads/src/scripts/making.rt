//! Makes scripts from a schedule's commands.
ghost use Rattle.std.specs.Prelude.{◌≡◌, IfOk};
ghost use Rattle.schedule_threads.specs.Scripts.InstanceScripts.{act_of, acts_of, scripts_of};

use behaviour::{BareAct, Script};
use chart::InstanceNo;
use schedule::{Action, Command, Schedule};
use std::alloc::{AllocError, Global};

/// The act of an action.
fn act_of(action: &Action) -> BareAct
    ensures { result ≡ act_of action.now }
{
    match action {
        Action::Send { to, name } => BareAct::Send(*to, *name),
        Action::Receive { from } => BareAct::Receive(*from),
        Action::Any => BareAct::Any,
        Action::Close { to } => BareAct::Close(*to),
        Action::Open => BareAct::Open,
        Action::Shut => BareAct::Shut,
    }
}

/// The acts of an instance's commands, in order.
fn acts_of(
    alloc: Global,
    commands: &[Command],
    actor: InstanceNo,
) -> Result<Vec<BareAct>, AllocError>
    ensures { IfOk result (λ acts. acts.items ≡ acts_of commands.now actor) }
{
    let mut acts = Vec::new(alloc);
    for command in commands {
        if command.actor == actor {
            acts.push(act_of(&command.action))?;
        }
    }
    Ok(acts)
}

/// A script for each instance, in rising order of their numbers. It does the instance's commands in the order of the
/// schedule, with messages whose bodies are empty.
///
/// It passes over the commands once for each instance. F6: it fails only if there is no memory.
pub fn scripts(alloc: Global, schedule: &Schedule) -> Result<Vec<Script>, AllocError>
    ensures { IfOk result (λ scripts. scripts.items ≡ scripts_of schedule.now) }
{
    let instances = schedule.names().len();
    let mut scripts = Vec::with_capacity(alloc, instances)?;
    for place in 0..instances {
        let acts = acts_of(alloc, schedule.commands(), InstanceNo::at_place(place))?;
        scripts.push(Script::new(acts))?;
    }
    Ok(scripts)
}
