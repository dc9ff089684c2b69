//! The steps that the accepted commands of a schedule make, and questions about them.

use crate::calls::put;
use chart::run_steps::Step;
use chart::{Event, EventNo, InstanceNo};
use reordering::witness::overtake;
use schedule::outcomes::Outcome;
use schedule::{Action, Command, Note, Schedule};
use std::alloc::Global;
use std::process::Abort;

pub fn maker(step: &Step) -> InstanceNo {
    match step {
        Step::Send { from, .. } => *from,
        Step::Receive { at, .. } => *at,
    }
}

/// The number of the steps that the instance makes.
pub fn made_by(steps: &[Step], instance: InstanceNo) -> usize {
    let mut many = 0usize;
    for step in steps {
        if maker(step) == instance {
            many = many.saturating_add(1);
        }
    }
    many
}

/// The instance's event with this number, from 0.
fn event_of(outcome: &Outcome<'_>, instance: InstanceNo, number: usize) -> Option<Event> {
    for line in outcome.chart().lines() {
        if line.instance() == instance {
            return line.events().get(number).copied();
        }
    }
    None
}

fn step_of(maker: InstanceNo, event: Event) -> Step {
    match event {
        Event::Send { to, name } => Step::Send {
            from: maker,
            to,
            name,
        },
        Event::Receive { from, region, .. } => Step::Receive {
            at: maker,
            from,
            region,
        },
    }
}

/// Whether the command makes a step if it is accepted.
fn may_step(command: &Command) -> bool {
    matches!(
        command.action,
        Action::Send { .. } | Action::Receive { .. } | Action::Any
    )
}

fn has_note(notes: &[Note], line: u64) -> bool {
    for note in notes {
        if note.line == line {
            return true;
        }
    }
    false
}

/// The steps that the accepted commands make, in their order.
pub fn steps_of(
    rt: &impl Abort,
    alloc: Global,
    schedule: &Schedule,
    outcome: &Outcome<'_>,
) -> Vec<Step> {
    let mut steps = Vec::new(alloc);
    for command in schedule.commands() {
        if may_step(command) && !has_note(outcome.notes(), command.line) {
            let actor = command.actor;
            let number = made_by(steps.as_slice(), actor);
            if let Some(event) = event_of(outcome, actor, number) {
                put(rt, &mut steps, step_of(actor, event));
            }
        }
    }
    steps
}

/// The number of the step that makes an event.
pub fn number_of(steps: &[Step], event: EventNo) -> Option<usize> {
    let mut left = event.index as usize;
    for number in 0..steps.len() {
        if maker(&steps[number]) == event.instance {
            left = left.saturating_sub(1);
            if left == 0 {
                return Some(number);
            }
        }
    }
    None
}

/// The numbers of the steps that make a receive and an earlier event.
pub fn numbers_of(
    rt: &impl Abort,
    steps: &[Step],
    receive: EventNo,
    earlier: EventNo,
) -> (usize, usize) {
    (
        number_of(steps, receive).expect(rt, "a receive"),
        number_of(steps, earlier).expect(rt, "an earlier event"),
    )
}

/// The event that a step makes.
pub fn event_no(rt: &impl Abort, steps: &[Step], number: usize) -> EventNo {
    let instance = maker(steps.get(number).expect(rt, "a step"));
    let before = made_by(steps.get(..number).expect(rt, "steps"), instance);
    let index = u32::try_from(before.saturating_add(1)).expect(rt, "an index");
    EventNo { instance, index }
}

/// The run that is found for two steps, if the first of them is a receive.
pub fn found(
    rt: &impl Abort,
    alloc: Global,
    steps: &[Step],
    slots: usize,
    receive: usize,
    earlier: usize,
) -> Option<Vec<Step>> {
    if receive < steps.len() && earlier < steps.len() {
        if let Step::Receive { .. } = steps[receive] {
            return overtake(alloc, steps, slots, receive, earlier).expect(rt, "memory");
        }
    }
    None
}
