//! The outcomes of runs of schedules on threads.
ghost use Rattle.std.specs.Prelude.{IfOk};
ghost use Rattle.schedule_threads.specs.RunOutcomes.{IsRunOf};
ghost use Rattle.cmd_base.specs.Answers.{Answers};
ghost use Rattle.cmd_run.specs.Showing.{Shows, ShowsRun, DoesOnThreads, run_show_error_exit, shown_exit};
ghost use Rattle.cmd_run.specs.Tasks.{task_exit};

use cmd_base::{Answer, ProgramError, Status, answered, schedule_in};
use instances::{Run, RunError};
use schedule::Schedule;
use schedule_threads::{RunOutcome, run_scripts};
use std::alloc::{AllocError, Global};
use std::thread::Threads;
use texts::Out;

/// Writes the outcome of a run, and returns whether it has races.
fn write_run<W: Out>(
    alloc: Global,
    schedule: &Schedule,
    run: Run,
    out: &mut W,
) -> Result<Status, ProgramError>
    requires { IsRunOf schedule.now run }
    ensures { Shows W.sink schedule.now run out.old out.new result }
{
    let outcome = match RunOutcome::of(alloc, schedule, run) {
        Ok(outcome) => outcome,
        Err(AllocError) => return Err(ProgramError::Memory),
    };
    match outcome.write(out) {
        Ok(()) => Ok(Status::of(outcome.has_races())),
        Err(_) => Err(ProgramError::Write),
    }
}

/// Why no outcome of a run is shown.
#[derive(Clone, Copy, Debug)]
enum RunShowError {
    Program(ProgramError),
    /// F25: the posts, behaviours or turns didn't fit. It is never printed.
    InvalidInput,
}

impl Answer for RunShowError {
    ghost exit = { run_show_error_exit };

    fn status(&self) -> u8 {
        2
    }

    fn print_diagnostics<V: Out>(&self, err: &mut V) {
        match self {
            RunShowError::Program(error) => error.print_diagnostics(err),
            RunShowError::InvalidInput => {}
        }
    }
}

/// Writes the outcome of a run, if the run was made.
fn write_ran<P: Drop, B: Drop, W: Out>(
    alloc: Global,
    schedule: &Schedule,
    ran: Result<Run, RunError<P, B>>,
    out: &mut W,
) -> Result<Status, RunShowError>
    requires { IfOk ran (IsRunOf schedule.now) }
    ensures { ShowsRun W.sink out.old out.new schedule.now ran result }
{
    match ran {
        Ok(run) => match write_run(alloc, schedule, run, out) {
            Ok(status) => Ok(status),
            Err(error) => Err(RunShowError::Program(error)),
        },
        Err(RunError::Memory) => Err(RunShowError::Program(ProgramError::Memory)),
        Err(RunError::InvalidInput(..)) => Err(RunShowError::InvalidInput),
    }
}

/// Shows the outcome of a run of a schedule's scripts ([`crate::scripts`]). The first post, trace and end of the run
/// are those of instance 1, and so on. Writes the chart, the races, the notes and the instances that spent their turns
/// to `out`, or the line of a refusal to `err`. Returns the exit status: 0, 1 if there are races, or 2 after a refusal.
///
/// F6: a growth was refused, here or in the run, as the answer to an act or as an end. Then nothing of the run is
/// shown. F25 is never printed: for a run with it nothing is printed. A failed write to `err` changes nothing.
pub fn show_run<P: Drop, B: Drop, W: Out, V: Out>(
    alloc: Global,
    schedule: &Schedule,
    ran: Result<Run, RunError<P, B>>,
    out: &mut W,
    err: &mut V,
) -> u8
    requires { IfOk ran (IsRunOf schedule.now) }
    ensures { Answers (ShowsRun W.sink out.old out.new schedule.now ran) shown_exit V.sink err.old err.new result }
{
    answered(&write_ran(alloc, schedule, ran, out), err)
}

/// Runs the scripts of the text's schedule, and writes the outcome.
fn run_text<R: Threads + Sync, W: Out>(
    rt: &R,
    alloc: Global,
    turns: u32,
    text: &[u8],
    out: &mut W,
) -> Result<Status, ProgramError>
    ensures { DoesOnThreads W.sink out.old out.new turns text.now result }
{
    let schedule = schedule_in(alloc, text)?;
    match run_scripts(rt, alloc, &schedule, turns) {
        Ok(run) => write_run(alloc, &schedule, run, out),
        Err(RunError::Memory) => Err(ProgramError::Memory),
        Err(RunError::InvalidInput(..)) => Err(ProgramError::Usage),
    }
}

/// Runs each instance of a file's schedule on a thread of its own, for at most `turns` turns. It executes its own
/// commands, in their order. Writes the outcome to `out`, or the line of a refusal to `err`. Returns the exit status:
/// 0, 1 if there are races, or 2 after a refusal.
///
/// G1: `turns` is 0 or more than [`instances::MAX_TURNS`], and the text is a schedule. Nothing is written to `out`
/// before a refusal, unless writing to it failed (F24). A failed write to `err` changes nothing.
pub fn perform_on_threads<R: Threads + Sync, W: Out, V: Out>(
    rt: &R,
    alloc: Global,
    turns: u32,
    text: &[u8],
    out: &mut W,
    err: &mut V,
) -> u8
    ensures { Answers (DoesOnThreads W.sink out.old out.new turns text.now) task_exit V.sink err.old err.new result }
{
    answered(&run_text(rt, alloc, turns, text, out), err)
}
