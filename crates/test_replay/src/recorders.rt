//! Tests of the calls of a recorder among nine instances, whose clocks take memory. Each growth is refused once. The
//! call is then made once more, and returns its full answer.
ghost use Rattle.std.specs.Prelude.{◌≡◌, ◌≢◌, ◌≤◌, length};

use crate::calls::{are, every_growth_was_refused, instance, name};
use chart::{EventNo, InstanceNo, Name, Report};
use clock::Clock;
use line_recorder::Recorder;
use std::alloc::Global;
use std::process::Abort;
use std::test::Fail;

/// The number of instances. Only the first three make calls.
const MANY: usize = 9;

const A: usize = 1;

const B: usize = 2;

const C: usize = 3;

/// A step of a schedule, and its expected result. A clock is named by the place of its message: messages are counted
/// from 0 in the order of their sends.
#[derive(Clone, Copy)]
enum Step {
    /// A send of one instance to another: the letter of its name, and the entries of its clock.
    Send(usize, usize, u8, &'static [u32]),
    /// Two sends at once: the letters of their names.
    SendTwo(usize, usize, u8, u8),
    /// A receive of one instance from another: the letter of its name, its clock, and the earlier events of its report.
    Receive(usize, usize, u8, usize, &'static [u32]),
    /// The entries that an instance knows.
    Knows(usize, &'static [u32]),
}

use Step::{Knows, Receive, Send, SendTwo};

/// The recorder of one of the instances. It is requested once more if the growth was refused.
fn one_of(rt: &impl Abort, alloc: Global, p: usize) -> Recorder {
    let p = instance(rt, p);
    assert!(rt; p.number() <= MANY);
    match Recorder::new(alloc, p, MANY) {
        Ok(recorder) => recorder,
        Err(_) => Recorder::new(alloc, p, MANY).expect(rt, "a recorder"),
    }
}

/// Another one of the recorder's instances.
fn other(rt: &impl Abort, recorder: &Recorder, number: usize) -> InstanceNo
    ensures among { result ≤ length recorder.now.knowledge }
    ensures not_itself { result ≢ recorder.now.line.instance }
{
    let to = instance(rt, number);
    assert!(rt; to.number() <= recorder.knowledge().len());
    assert!(rt; to != recorder.line().instance());
    to
}

/// Asserts that these are the clock's entries.
fn has_entries(rt: &impl Abort, clock: &Clock, entries: &[u32]) {
    assert!(rt; clock.len() == entries.len());
    for (place, entry) in entries.iter().enumerate() {
        let known = clock.entry(InstanceNo::at_place(place));
        are(rt, "an entry", known as usize, *entry as usize);
    }
}

/// A send whose clock has these entries. It is made once more if the growth was refused.
fn send(rt: &impl Abort, recorder: &mut Recorder, to: usize, letter: u8, entries: &[u32]) -> Clock {
    let to = other(rt, recorder, to);
    let message = name(rt, &[letter]);
    let clock = match recorder.send(to, message) {
        Ok(clock) => clock,
        Err(_) => recorder.send(to, message).expect(rt, "a send"),
    };
    has_entries(rt, &clock, entries);
    clock
}

/// The same for two sends at once.
fn send_two(rt: &impl Abort, recorder: &mut Recorder, to: usize, names: &[Name]) -> Vec<Clock> {
    let to = other(rt, recorder, to);
    match recorder.send_many(to, names) {
        Ok(clocks) => clocks,
        Err(_) => recorder.send_many(to, names).expect(rt, "two sends"),
    }
}

/// Asserts that this is the event with this number of the instance.
fn is_event(rt: &impl Abort, event: &EventNo, instance: InstanceNo, index: u32) {
    assert_eq!(rt; *event, EventNo { instance, index });
}

/// Asserts that the report is that of the receive with this number, and has these earlier events.
fn reports(rt: &impl Abort, report: &Report, receive: usize, earlier: &[u32]) {
    let own = report.receive();
    are(rt, "the receive", own.index as usize, receive);
    are(rt, "races", report.earlier().len(), earlier.len());
    for (race, index) in report.earlier().iter().zip(earlier) {
        is_event(rt, &race, own.instance, *index);
    }
}

/// A receive with these races. It is made once more if the growth was refused.
fn receive(
    rt: &impl Abort,
    recorder: &mut Recorder,
    from: usize,
    letter: u8,
    clock: &Clock,
    earlier: &[u32],
) {
    let from = other(rt, recorder, from);
    let message = name(rt, &[letter]);
    assert!(rt; clock.len() == recorder.knowledge().len());
    let report = match recorder.receive(from, message, clock, 0) {
        Ok(report) => report,
        Err(_) => recorder
            .receive(from, message, clock, 0)
            .expect(rt, "a receive"),
    };
    reports(rt, &report, recorder.line().len(), earlier);
}

fn keep(rt: &impl Abort, clocks: &mut Vec<Clock>, clock: Clock) {
    if clocks.reserve(1).is_err() {
        clocks.reserve(1).expect(rt, "room for a clock");
    }
    clocks.push(clock).expect(rt, "a clock with room");
}

/// Takes a step of one instance.
fn record(rt: &impl Abort, recorder: &mut Recorder, clocks: &mut Vec<Clock>, step: &Step) {
    match *step {
        Send(_, to, letter, entries) => {
            let clock = send(rt, recorder, to, letter, entries);
            keep(rt, clocks, clock);
        }
        SendTwo(_, to, first, second) => {
            let two = send_two(rt, recorder, to, &[name(rt, &[first]), name(rt, &[second])]);
            are(rt, "sends", two.len(), 2);
            for clock in two {
                keep(rt, clocks, clock);
            }
        }
        Receive(_, from, letter, clock, earlier) => {
            let clock = clocks.get(clock).expect(rt, "a clock");
            receive(rt, recorder, from, letter, clock, earlier);
        }
        Knows(_, entries) => has_entries(rt, recorder.knowledge(), entries),
    }
}

/// Takes a step by the recorder of its instance.
fn take(rt: &impl Abort, recorders: &mut [Recorder], clocks: &mut Vec<Clock>, step: &Step) {
    let (Send(at, ..) | SendTwo(at, ..) | Receive(at, ..) | Knows(at, ..)) = *step;
    let place = instance(rt, at).place();
    let recorder = recorders.get_mut(place).expect(rt, "a recorder");
    record(rt, recorder, clocks, step);
}

/// Plays a schedule.
fn play(rt: &impl Abort, alloc: Global, steps: &[Step]) {
    let mut recorders = [
        one_of(rt, alloc, A),
        one_of(rt, alloc, B),
        one_of(rt, alloc, C),
    ];
    let mut clocks = Vec::new(alloc);
    for step in steps {
        take(rt, &mut recorders[..], &mut clocks, step);
    }
}

static STEPS: [Step; 6] = [
    Send(A, B, b'x', &[1, 0, 0, 0, 0, 0, 0, 0, 0]),
    SendTwo(C, B, b'y', b'z'),
    Receive(B, A, b'x', 0, &[]),
    Receive(B, C, b'y', 1, &[1]),
    Receive(B, C, b'z', 2, &[1]),
    Knows(B, &[1, 0, 2, 0, 0, 0, 0, 0, 0]),
];

#[test]
fn refused_growths(rt: HostRuntime) -> Result<(), Fail> {
    play(&rt, rt.alloc(), &STEPS);
    every_growth_was_refused(rt.alloc())
}
