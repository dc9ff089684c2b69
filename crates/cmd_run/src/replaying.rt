//! Replays of schedules, in the order of their text or in a drawn order.
ghost use Rattle.std.specs.Prelude.{◌≡◌, Result, Ok};
ghost use Rattle.schedule.specs.Plans.{Plan};
ghost use Rattle.schedule.specs.Reading.{schedule_of};
ghost use Rattle.texts.specs.declared.fault.Fault.{Fault};
ghost use Rattle.cmd_base.specs.Contents.{Reads};
ghost use Rattle.cmd_run.specs.Tasks.{drawn_by, Replays};

use cmd_base::{ProgramError, Status, schedule_in};
use schedule::Schedule;
use schedule::interleaver::{Memory, drawn};
use schedule::outcomes::ReplayError;
use schedule_replay::replay;
use std::alloc::Global;
use texts::Out;

/// The schedule of the text, in the order that the seed draws.
fn drawn_in(alloc: Global, seed: u64, text: &[u8]) -> Result<Schedule, ProgramError>
    ensures { Reads result (drawn_by seed (schedule_of text.now)) }
{
    let schedule = schedule_in(alloc, text)?;
    match drawn(alloc, &schedule, seed) {
        Ok(drawn) => Ok(drawn),
        Err(Memory) => Err(ProgramError::Memory),
    }
}

/// Replays a schedule, writes its outcome, and returns whether it has races.
fn replay_and_write<W: Out>(
    alloc: Global,
    schedule: &Schedule,
    out: &mut W,
) -> Result<Status, ProgramError>
    ensures { (exit : Result Plan Fault) → exit ≡ Ok schedule.now
        → Replays W.sink out.old out.new result exit }
{
    let outcome = match replay(alloc, schedule) {
        Ok(outcome) => outcome,
        Err(ReplayError::Memory) => return Err(ProgramError::Memory),
    };
    match outcome.write(out) {
        Ok(()) => Ok(Status::of(outcome.has_races())),
        Err(_) => Err(ProgramError::Write),
    }
}

/// Replays the schedule of the text.
pub fn replay_text<W: Out>(alloc: Global, text: &[u8], out: &mut W) -> Result<Status, ProgramError>
    ensures { Replays W.sink out.old out.new result (schedule_of text.now) }
{
    let schedule = schedule_in(alloc, text)?;
    replay_and_write(alloc, &schedule, out)
}

/// Replays the schedule of the text in the order that the seed draws.
pub fn replay_drawn<W: Out>(
    alloc: Global,
    seed: u64,
    text: &[u8],
    out: &mut W,
) -> Result<Status, ProgramError>
    ensures { Replays W.sink out.old out.new result (drawn_by seed (schedule_of text.now)) }
{
    let schedule = drawn_in(alloc, seed, text)?;
    replay_and_write(alloc, &schedule, out)
}
