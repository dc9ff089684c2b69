//! Tasks whose texts are written into buffers.
ghost use Rattle.std.specs.Prelude.{◌≡◌};
ghost use Rattle.c_commands.specs.Performing.{task_in, IsDone, Performs};

use c_board::{Misuse, copy_out};
use cmd_run::{Task, perform};
use std::alloc::Global;
use texts::MemoryOut;

/// The result of a task: the exit status, and how many bytes were written to standard output and to standard error.
#[derive(Clone, Copy)]
pub struct Performed {
    /// 0, 1 if there are races, or 2 after a refusal.
    pub status: u8,
    pub out: usize,
    pub err: usize,
}

/// The task with this number: 0 replays a schedule, 1 replays it in the order that the seed draws, 2 checks a chart.
fn task_in(number: u32, seed: u64) -> Option<Task>
    ensures { result ≡ task_in number seed }
{
    match number {
        0 => Some(Task::Replay),
        1 => Some(Task::Random { seed }),
        2 => Some(Task::Check),
        _ => None,
    }
}

/// Does the task with the bytes of a file, and writes its texts into the buffers.
fn perform_task(
    alloc: Global,
    task: &Task,
    text: &[u8],
    out: &mut [u8],
    err: &mut [u8],
) -> Performed
    ensures { IsDone task.now text.now out.old err.old result out.new err.new }
{
    let mut written = MemoryOut::new(alloc);
    let mut diagnostics = MemoryOut::new(alloc);
    let status = perform(alloc, task, text, &mut written, &mut diagnostics);
    Performed {
        status,
        out: copy_out(written.as_bytes(), out),
        err: copy_out(diagnostics.as_bytes(), err),
    }
}

/// Does the task with this number on the bytes of a file, as `mscrun` does. Task 0 replays the schedule in these bytes,
/// and task 1 replays it in the order that the seed draws. Task 2 checks the chart in these bytes. Standard output goes
/// into `out`, and standard error into `err`, as much as there is room for. The result has their whole lengths.
///
/// It takes memory for both texts while it works. If there is none for them, the status is 2, and `err` has the line of
/// F24 or a part of it.
///
/// [`Misuse::WrongNumber`]: no task has this number. Then nothing is done, and the buffers stay as they were.
pub fn perform_into(
    alloc: Global,
    task: u32,
    seed: u64,
    text: &[u8],
    out: &mut [u8],
    err: &mut [u8],
) -> Result<Performed, Misuse>
    ensures { Performs (task_in task seed) text.now out.old err.old result out.new err.new }
{
    let Some(task) = task_in(task, seed) else {
        return Err(Misuse::WrongNumber);
    };
    Ok(perform_task(alloc, &task, text, out, err))
}
