//! Schedules in texts.
ghost use Rattle.cmd_base.specs.Contents.{Reads};
ghost use Rattle.schedule.specs.Reading.{schedule_of};

use crate::error::ProgramError;
use schedule::Schedule;
use std::alloc::Global;
use texts::TextError;

/// The schedule in the bytes of a file. A refusal is the text's first fault, or F6.
pub fn schedule_in(alloc: Global, text: &[u8]) -> Result<Schedule, ProgramError>
    ensures { Reads result (schedule_of text.now) }
{
    match Schedule::read(alloc, text) {
        Ok(schedule) => Ok(schedule),
        Err(TextError::Memory) => Err(ProgramError::Memory),
        Err(TextError::Fault(fault)) => Err(ProgramError::Text(fault)),
    }
}
