//! Replays of worked schedules. Each call that was refused for lack of memory is made once more.
use schedule::Schedule;
use schedule::outcomes::Outcome;
use schedule_replay::replay;
use std::alloc::Global;
use std::process::Abort;

/// The schedule of the text, read once more if memory was refused.
pub fn schedule_of(rt: &impl Abort, alloc: Global, text: &[u8]) -> Schedule {
    match Schedule::read(alloc, text) {
        Ok(schedule) => schedule,
        Err(_) => Schedule::read(alloc, text).expect(rt, "a schedule"),
    }
}

/// The outcome of the schedule, replayed once more if memory was refused.
pub fn outcome_of<'a>(rt: &impl Abort, alloc: Global, schedule: &'a Schedule) -> Outcome<'a> {
    match replay(alloc, schedule) {
        Ok(outcome) => outcome,
        Err(_) => replay(alloc, schedule).expect(rt, "an outcome"),
    }
}
