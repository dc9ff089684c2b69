//! Runs whose events are identified by lane and turn, and the conditions for another run of the same events.

use crate::calls::put;
use chart::InstanceNo;
use chart::run_steps::Step;
use std::alloc::Global;
use std::process::Abort;

/// An event, identified by its lane and its turn there, from 1.
#[derive(Clone, Copy, PartialEq, Eq)]
pub struct LaneEvent {
    from: InstanceNo,
    to: InstanceNo,
    receives: bool,
    turn: usize,
}

impl LaneEvent {
    /// The event of a step, with turn 1.
    fn first(step: &Step) -> LaneEvent {
        match step {
            Step::Send { from, to, .. } => LaneEvent {
                from: *from,
                to: *to,
                receives: false,
                turn: 1,
            },
            Step::Receive { at, from, .. } => LaneEvent {
                from: *from,
                to: *at,
                receives: true,
                turn: 1,
            },
        }
    }

    fn maker(&self) -> InstanceNo {
        if self.receives { self.to } else { self.from }
    }

    fn has_lane_of(&self, other: &LaneEvent) -> bool {
        self.from == other.from && self.to == other.to
    }

    /// Whether this event comes directly before a later one in its recorded run, and not only by luck.
    fn causes(&self, later: &LaneEvent) -> bool {
        if later.receives {
            self.has_lane_of(later) && (self.receives || self.turn == later.turn)
        } else {
            self.maker() == later.maker()
        }
    }
}

/// The events of these steps.
pub fn events_of(rt: &impl Abort, alloc: Global, steps: &[Step]) -> Vec<LaneEvent> {
    let mut events = Vec::new(alloc);
    for step in steps {
        let mut event = LaneEvent::first(step);
        event.turn = count(events.as_slice(), &event, event.receives).saturating_add(1);
        put(rt, &mut events, event);
    }
    events
}

/// The number of receives or of sends on the lane of this event.
fn count(events: &[LaneEvent], event: &LaneEvent, receives: bool) -> usize {
    let mut many = 0usize;
    for other in events {
        if other.has_lane_of(event) && other.receives == receives {
            many = many.saturating_add(1);
        }
    }
    many
}

/// An event of a recorded run, and its place in another run.
#[derive(Clone, Copy)]
pub struct Moved {
    event: LaneEvent,
    place: usize,
}

/// The recorded events with their places in the run, if it has all of them.
fn events_in(
    rt: &impl Abort,
    alloc: Global,
    recorded: &[LaneEvent],
    run: &[LaneEvent],
) -> Option<Vec<Moved>> {
    let mut all = Vec::new(alloc);
    for event in recorded {
        let event = *event;
        let place = place_of(run, &event)?;
        put(rt, &mut all, Moved { event, place });
    }
    Some(all)
}

fn place_of(run: &[LaneEvent], event: &LaneEvent) -> Option<usize> {
    for place in 0..run.len() {
        if run[place] == *event {
            return Some(place);
        }
    }
    None
}

/// Whether each recorded event comes after all events that were directly before it, and not only by luck.
fn keep_causes(all: &[Moved]) -> bool {
    for later in 0..all.len() {
        for earlier in 0..later {
            let (earlier, later) = (&all[earlier], &all[later]);
            if later.place < earlier.place && earlier.event.causes(&later.event) {
                return false;
            }
        }
    }
    true
}

/// Whether each message is received after it was sent, and no more messages wait on a lane than it has slots.
fn is_within(run: &[LaneEvent], slots: usize) -> bool {
    for place in 0..run.len() {
        let event = &run[place];
        let others = count(&run[..place], event, !event.receives);
        if event.receives && others < event.turn {
            return false;
        }
        if !event.receives && others.saturating_add(slots) < event.turn {
            return false;
        }
    }
    true
}

/// The recorded events in the other run, if this is a run with the same events and causes within this number of slots.
pub fn as_other_run(
    rt: &impl Abort,
    alloc: Global,
    recorded: &[LaneEvent],
    run: &[LaneEvent],
    slots: usize,
) -> Option<Vec<Moved>> {
    if run.len() != recorded.len() || !is_within(run, slots) {
        return None;
    }
    let all = events_in(rt, alloc, recorded, run)?;
    keep_causes(all.as_slice()).then_some(all)
}

/// Whether the receive comes before the other event in the other run.
pub fn overtakes(all: &[Moved], receive: usize, earlier: usize) -> bool {
    match (all.get(receive), all.get(earlier)) {
        (Some(receive), Some(earlier)) => receive.place < earlier.place,
        _ => false,
    }
}

/// Whether the other run has the recorded steps, outside of coregions, at these places.
fn has_steps(all: &[Moved], steps: &[Step], run: &[Step]) -> bool {
    for (moved, step) in all.iter().zip(steps) {
        if run.get(moved.place).copied() != Some(step.outside_regions()) {
            return false;
        }
    }
    true
}

/// Whether a run has the same events and causes as the recorded one, stays within these slots, and has the receive
/// before the event.
pub fn is_witness(
    rt: &impl Abort,
    alloc: Global,
    steps: &[Step],
    run: &[Step],
    slots: usize,
    receive: usize,
    earlier: usize,
) -> bool {
    let recorded = events_of(rt, alloc, steps);
    let other = events_of(rt, alloc, run);
    match as_other_run(rt, alloc, recorded.as_slice(), other.as_slice(), slots) {
        Some(all) => {
            has_steps(all.as_slice(), steps, run) && overtakes(all.as_slice(), receive, earlier)
        }
        None => false,
    }
}
