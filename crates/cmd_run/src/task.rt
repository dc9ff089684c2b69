//! The tasks of the program with the bytes of a file.
ghost use Rattle.cmd_base.specs.Answers.{Answers};
ghost use Rattle.cmd_run.specs.Tasks.{Does, task_exit};

use crate::checking::check;
use crate::replaying::{replay_drawn, replay_text};
use cmd_base::{ProgramError, Status, answered};
use std::alloc::Global;
use texts::Out;

/// A task of the program with a file.
#[derive(Clone, Copy, Debug, PartialEq, Eq)]
pub enum Task {
    /// Replay the file's schedule.
    Replay,
    /// Replay the file's schedule in the order that the seed draws.
    Random { seed: u64 },
    /// Check the file's chart.
    Check,
}

/// Does the task, and returns its result.
fn do_task<W: Out>(
    alloc: Global,
    task: &Task,
    text: &[u8],
    out: &mut W,
) -> Result<Status, ProgramError>
    ensures { Does W.sink out.old out.new task.now text.now result }
{
    match task {
        Task::Replay => replay_text(alloc, text, out),
        Task::Random { seed } => replay_drawn(alloc, *seed, text, out),
        Task::Check => check(alloc, text, out),
    }
}

/// Does the task with the bytes of the file. Writes its output to `out`, or the line of a refusal to `err`. Returns the
/// exit status: 0, 1 if there are races, or 2 after a refusal. Nothing is written to `out` before a refusal, unless
/// writing to it failed (F24). A failed write to `err` changes nothing.
pub fn perform<W: Out, V: Out>(
    alloc: Global,
    task: &Task,
    text: &[u8],
    out: &mut W,
    err: &mut V,
) -> u8
    ensures { Answers (Does W.sink out.old out.new task.now text.now) task_exit V.sink err.old err.new result }
{
    answered(&do_task(alloc, task, text, out), err)
}
