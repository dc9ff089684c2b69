//! Tests of worked schedules: each reported race has a witness.

use crate::calls::{are, holds};
use crate::every_run::{finds_all, has_witness};
use crate::recorded::{numbers_of, steps_of};
use chart::MAX_CAPACITY;
use chart::run_steps::Step;
use schedule::Schedule;
use schedule_replay::replay;
use std::alloc::Global;
use std::process::Abort;

/// A schedule, the number of its races, and the number of those whose order another run with as many slots reverses.
pub type Worked = (&'static [u8], usize, usize);

pub static WORKED: [Worked; 7] = [
    (
        b"instances a b c\ncapacity 1\na send b x\nc send b y\nb receive a\nb receive c\n",
        1,
        1,
    ),
    (
        b"instances a b c\ncapacity 1\na send b x\na send c y\nc receive a\nc send b z\nb receive a\nb receive c\n",
        1,
        1,
    ),
    (
        b"instances a b\ncapacity 1\na send b q\nb send a p\na receive b\nb receive a\n",
        2,
        2,
    ),
    (
        b"instances a b c\ncapacity 2\na send b x\na send b z\nc send b y\nb any\nb any\nb any\n",
        2,
        2,
    ),
    (
        b"instances a b c d e f g h i\ncapacity 1\ni send a x\nh send a y\na any\na any\n",
        1,
        1,
    ),
    (
        b"instances a b c\ncapacity 1\na send b x\nc send b y\nb concurrent\nb receive a\nb receive c\nb endconcurrent\n",
        0,
        0,
    ),
    (
        b"instances a b c\ncapacity 1\na send b x\nb receive a\na send b y\na send c z\nc receive a\nc send b w\nb receive c\n",
        1,
        0,
    ),
];

/// The number of reported races, and of those that have a witness with as many slots. Each race has a witness with the
/// most slots.
fn witnessed(rt: &impl Abort, alloc: Global, schedule: &Schedule) -> (usize, usize) {
    let outcome = replay(alloc, schedule).expect(rt, "an outcome");
    let steps = steps_of(rt, alloc, schedule, &outcome);
    let slots = schedule.capacity().slots();
    let mut races = 0usize;
    let mut within = 0usize;
    for report in outcome.reports() {
        for event in report.earlier().iter() {
            let (receive, earlier) = numbers_of(rt, steps.as_slice(), report.receive(), event);
            let found = has_both(rt, alloc, steps.as_slice(), slots, receive, earlier);
            races = races.saturating_add(1);
            within = within.saturating_add(usize::from(found));
        }
    }
    (races, within)
}

/// Asserts that the race has a witness with the most slots. It returns whether it has one with `slots`.
fn has_both(
    rt: &impl Abort,
    alloc: Global,
    steps: &[Step],
    slots: usize,
    receive: usize,
    earlier: usize,
) -> bool {
    let found = has_witness(rt, alloc, steps, MAX_CAPACITY, receive, earlier);
    holds(rt, "a witness", found);
    has_witness(rt, alloc, steps, slots, receive, earlier)
}

/// Asserts that the schedule has these numbers of races and witnesses. It compares what is found for its steps with all
/// runs.
fn is_witnessed(rt: &impl Abort, alloc: Global, worked: &Worked) {
    let (text, races, within) = *worked;
    let schedule = Schedule::read(alloc, text).expect(rt, "a schedule");
    let found = witnessed(rt, alloc, &schedule);
    are(rt, "races", found.0, races);
    are(rt, "witnesses", found.1, within);
    finds_all(rt, alloc, &schedule);
}

#[test]
fn worked_schedules(rt: HostRuntime) {
    for worked in &WORKED {
        is_witnessed(&rt, rt.alloc(), worked);
    }
}
