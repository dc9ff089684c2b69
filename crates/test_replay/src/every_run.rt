//! Tests of small schedules, all of whose other runs are tried.

use crate::calls::{holds, put};
use crate::recorded::{event_no, found, steps_of};
use crate::runs::{LaneEvent, Moved, as_other_run, events_of, is_witness, overtakes};
use chart::run_steps::Step;
use chart::{Chart, EventNo, MAX_CAPACITY, Report};
use closure::Closure;
use rand_core::SeedableRng;
use rand_core::utils::NextWord;
use rand_pcg::Lcg64Xsh32;
use schedule::Schedule;
use schedule_replay::replay;
use std::alloc::Global;
use std::process::Abort;

/// The most events of a run whose orders are all tried.
const MOST: usize = 6;

/// The number of orders that this number of events has.
fn orders(many: usize) -> usize {
    let mut orders = 1usize;
    for number in 0..many {
        orders = orders.saturating_mul(number + 1);
    }
    orders
}

/// Moves one of the remaining events to the end of the run: the one that the number of the order selects. It returns
/// the rest of the number.
fn take_one(
    rt: &impl Abort,
    left: &mut Vec<LaneEvent>,
    run: &mut Vec<LaneEvent>,
    order: usize,
) -> usize {
    let many = left.len();
    if many == 0 {
        return order;
    }
    put(rt, run, left.remove(order % many));
    order / many
}

/// The events in the order with this number.
fn ordered(rt: &impl Abort, alloc: Global, events: &[LaneEvent], order: usize) -> Vec<LaneEvent> {
    let mut left = Vec::new(alloc);
    left.extend_from_slice(events).expect(rt, "memory");
    let mut run = Vec::new(alloc);
    let mut order = order;
    for _ in events {
        order = take_one(rt, &mut left, &mut run, order);
    }
    run
}

/// All runs with the same events and causes within this number of slots.
fn other_runs(
    rt: &impl Abort,
    alloc: Global,
    events: &[LaneEvent],
    slots: usize,
) -> Vec<Vec<Moved>> {
    let mut runs = Vec::new(alloc);
    for order in 0..orders(events.len()) {
        let run = ordered(rt, alloc, events, order);
        if let Some(all) = as_other_run(rt, alloc, events, run.as_slice(), slots) {
            put(rt, &mut runs, all);
        }
    }
    runs
}

fn some_overtakes(runs: &[Vec<Moved>], receive: usize, earlier: usize) -> bool {
    for run in runs {
        if overtakes(run.as_slice(), receive, earlier) {
            return true;
        }
    }
    false
}

fn has_event(report: &Report, earlier: &EventNo) -> bool {
    for event in report.earlier().iter() {
        if event == *earlier {
            return true;
        }
    }
    false
}

fn has_race(reports: &[Report], receive: EventNo, earlier: EventNo) -> bool {
    for report in reports {
        if report.receive() == receive && has_event(report, &earlier) {
            return true;
        }
    }
    false
}

/// Whether both are receives of one coregion.
fn share_region(step: &Step, other: &Step) -> bool {
    match (step, other) {
        (Step::Receive { region, .. }, Step::Receive { region: other, .. }) => {
            *region > 0 && region == other
        }
        _ => false,
    }
}

/// Whether a run within this number of slots is found. If so, it asserts that the run is a witness.
pub fn has_witness(
    rt: &impl Abort,
    alloc: Global,
    steps: &[Step],
    slots: usize,
    receive: usize,
    earlier: usize,
) -> bool {
    match found(rt, alloc, steps, slots, receive, earlier) {
        Some(run) => {
            let run = run.as_slice();
            let is_one = is_witness(rt, alloc, steps, run, slots, receive, earlier);
            holds(rt, "it is a witness", is_one);
            true
        }
        None => false,
    }
}

/// Asserts, for this receive and each step, that a run within these slots is found exactly if one of `runs` has the
/// receive first. It returns for how many steps one is found.
fn finds_of_receive(
    rt: &impl Abort,
    alloc: Global,
    steps: &[Step],
    runs: &[Vec<Moved>],
    slots: usize,
    receive: usize,
) -> usize {
    let mut many = 0usize;
    for earlier in 0..steps.len() {
        let found = has_witness(rt, alloc, steps, slots, receive, earlier);
        holds(
            rt,
            "as runs do",
            found == some_overtakes(runs, receive, earlier),
        );
        many = many.saturating_add(usize::from(found));
    }
    many
}

fn is_receive(steps: &[Step], number: usize) -> bool {
    matches!(steps.get(number), Some(Step::Receive { .. }))
}

/// Asserts, for each receive and each step, that a run within these slots is found exactly if some run has the receive
/// first. It returns for how many pairs one is found.
fn finds_what_runs_do(rt: &impl Abort, alloc: Global, steps: &[Step], slots: usize) -> usize {
    let events = events_of(rt, alloc, steps);
    let runs = other_runs(rt, alloc, events.as_slice(), slots);
    let runs = runs.as_slice();
    let mut many = 0usize;
    for receive in 0..steps.len() {
        if is_receive(steps, receive) {
            let found = finds_of_receive(rt, alloc, steps, runs, slots, receive);
            many = many.saturating_add(found);
        }
    }
    many
}

/// Asserts that a run with the receive before another step is found exactly if the search has no order of the two. It
/// returns whether one is found.
fn is_found_unordered(
    rt: &impl Abort,
    alloc: Global,
    closure: &Closure,
    steps: &[Step],
    receive: usize,
    number: usize,
) -> bool {
    let found = found(rt, alloc, steps, MAX_CAPACITY, receive, number).is_some();
    let earlier = event_no(rt, steps, number);
    let later = event_no(rt, steps, receive);
    let before = closure.before(earlier, later).expect(rt, "an order");
    holds(rt, "found unordered", number == receive || found != before);
    found
}

/// Whether the receive's report has the event of the other step.
fn has_race_of(
    rt: &impl Abort,
    reports: &[Report],
    steps: &[Step],
    receive: usize,
    number: usize,
) -> bool {
    let earlier = event_no(rt, steps, number);
    let later = event_no(rt, steps, receive);
    has_race(reports, later, earlier)
}

/// Whether the other step's event is above the receive on its line, and not in its coregion.
fn may_race(rt: &impl Abort, steps: &[Step], receive: usize, number: usize) -> bool {
    let earlier = event_no(rt, steps, number);
    let later = event_no(rt, steps, receive);
    let on_line = earlier.instance == later.instance && earlier.index < later.index;
    match (steps.get(receive), steps.get(number)) {
        (Some(receive), Some(other)) => on_line && !share_region(receive, other),
        _ => false,
    }
}

/// Asserts, for this receive and each step, that a run is found exactly if the search has no order. The race is
/// reported exactly if one is found and both may race.
fn finds_reported(
    rt: &impl Abort,
    alloc: Global,
    closure: &Closure,
    reports: &[Report],
    steps: &[Step],
    receive: usize,
) {
    for number in 0..steps.len() {
        let found = is_found_unordered(rt, alloc, closure, steps, receive, number);
        let wanted = found && may_race(rt, steps, receive, number);
        let races = has_race_of(rt, reports, steps, receive, number);
        holds(rt, "the race is reported", races == wanted);
    }
}

/// Asserts that with the most slots a run is found exactly if the search has no order. For earlier events of the line
/// these are the reported races, and the pairs that only a coregion hides.
fn finds_what_is_reported(rt: &impl Abort, alloc: Global, chart: &Chart, steps: &[Step]) {
    let closure = Closure::of(alloc, chart).expect(rt, "a closure");
    let reports = closure.races().expect(rt, "the reports");
    for receive in 0..steps.len() {
        if is_receive(steps, receive) {
            finds_reported(rt, alloc, &closure, reports.as_slice(), steps, receive);
        }
    }
}

/// The same as `finds_all`, for the steps of a chart's run whose lanes have this number of slots.
fn finds_in(rt: &impl Abort, alloc: Global, chart: &Chart, steps: &[Step], slots: usize) -> usize {
    if steps.len() > MOST {
        return 0;
    }
    finds_what_is_reported(rt, alloc, chart, steps);
    let within = finds_what_runs_do(rt, alloc, steps, slots);
    let any = finds_what_runs_do(rt, alloc, steps, MAX_CAPACITY);
    holds(rt, "as many or more", within <= any);
    any
}

/// Compares what is found for a schedule's steps with all runs, unless there are more than `MOST` steps. It returns for
/// how many pairs a run with the opposite order is found.
pub fn finds_all(rt: &impl Abort, alloc: Global, schedule: &Schedule) -> usize {
    let outcome = replay(alloc, schedule).expect(rt, "an outcome");
    let steps = steps_of(rt, alloc, schedule, &outcome);
    let slots = schedule.capacity().slots();
    finds_in(rt, alloc, outcome.chart(), steps.as_slice(), slots)
}

/// The commands of random schedules. A command that isn't accepted makes no step.
static COMMANDS: [&[u8]; 14] = [
    b"a send b x\n",
    b"a send c y\n",
    b"b send a z\n",
    b"b send c x\n",
    b"c send a y\n",
    b"c send b z\n",
    b"a any\n",
    b"b any\n",
    b"c any\n",
    b"a any\n",
    b"b any\n",
    b"c any\n",
    b"b concurrent\n",
    b"b endconcurrent\n",
];

static FRONTS: [&[u8]; 4] = [
    b"instances a b c\ncapacity 1\n",
    b"instances a b c\ncapacity 2\n",
    b"instances a b c\ncapacity 3\n",
    b"instances a b c\ncapacity 64\n",
];

/// The piece that a random word selects.
fn piece<'a>(pieces: &'a [&'static [u8]], word: u32) -> &'a [u8] {
    match pieces.get(word as usize % pieces.len().max(1)) {
        Some(piece) => piece,
        None => b"",
    }
}

/// The random schedule with this number of commands, for a seed.
pub fn drawn_schedule(rt: &impl Abort, alloc: Global, seed: u64, commands: usize) -> Schedule {
    let mut generator = Lcg64Xsh32::seed_from_u64(seed);
    let mut text = Vec::new(alloc);
    let front = piece(FRONTS.as_slice(), generator.next_word());
    text.extend_from_slice(front).expect(rt, "a front");
    for _ in 0..commands {
        let command = piece(COMMANDS.as_slice(), generator.next_word());
        text.extend_from_slice(command).expect(rt, "a command");
    }
    Schedule::read(alloc, text.as_slice()).expect(rt, "a schedule")
}

#[test]
fn drawn_schedules(rt: HostRuntime) {
    let mut many = 0usize;
    for seed in 0..200 {
        let schedule = drawn_schedule(&rt, rt.alloc(), seed, 11);
        many = many.saturating_add(finds_all(&rt, rt.alloc(), &schedule));
    }
    assert!(rt; many > 300, "{many} pairs");
}
