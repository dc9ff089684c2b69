//! Scripts that drive mailboxes, and runs of boards, as the tests need them.
use behaviour::{BareAct, BareAnswer, Behaviour, Script};
use board::{Board, RegionError, SendError};
use chart::{EventNo, InstanceNo, Name};
use instances::{End, Gate, Open, Run, Trace, drive, run};
use mailbox::Mailbox;
use std::alloc::Global;
use std::process::Abort;
use std::thread::Threads;

pub fn instance(rt: &impl Abort, number: usize) -> InstanceNo {
    InstanceNo::new(number).expect(rt, "an instance")
}

pub fn name(rt: &impl Abort, letter: u8) -> Name {
    Name::new(&[letter]).expect(rt, "a name")
}

fn event(rt: &impl Abort, number: usize, index: u32) -> EventNo {
    EventNo {
        instance: instance(rt, number),
        index,
    }
}

/// An act of an instance, with the number of its partner and the letter of its message's name.
#[derive(Clone, Copy)]
pub enum Does {
    Send(usize, u8),
    Receive(usize),
    Any,
    Close(usize),
    Open,
    Shut,
    Stop,
}

pub fn act(rt: &impl Abort, does: Does) -> BareAct {
    match does {
        Does::Send(to, letter) => BareAct::Send(instance(rt, to), name(rt, letter)),
        Does::Receive(from) => BareAct::Receive(instance(rt, from)),
        Does::Any => BareAct::Any,
        Does::Close(to) => BareAct::Close(instance(rt, to)),
        Does::Open => BareAct::Open,
        Does::Shut => BareAct::Shut,
        Does::Stop => BareAct::Stop,
    }
}

/// The answer to an act. An event has its instance and its number.
#[derive(Clone, Copy)]
pub enum Says {
    Sent(usize, u32),
    Unsent(SendError),
    Got(usize, usize, u32),
    Nothing,
    Ended,
    NowClosed,
    Marked,
    Unmarked(RegionError),
    /// The instance stopped, and has no answer.
    Stopped,
}

fn answer(rt: &impl Abort, says: Says) -> Option<BareAnswer> {
    match says {
        Says::Sent(number, index) => Some(BareAnswer::Sent(event(rt, number, index))),
        Says::Unsent(error) => Some(BareAnswer::Unsent(error)),
        Says::Got(from, number, index) => Some(BareAnswer::Got(
            instance(rt, from),
            event(rt, number, index),
        )),
        Says::Nothing => Some(BareAnswer::Nothing),
        Says::Ended => Some(BareAnswer::Ended),
        Says::NowClosed => Some(BareAnswer::NowClosed),
        Says::Marked => Some(BareAnswer::Marked),
        Says::Unmarked(error) => Some(BareAnswer::Unmarked(error)),
        Says::Stopped => None,
    }
}

/// The script with these acts.
pub fn script(rt: &impl Abort, alloc: Global, acts: &[Does]) -> Script {
    let mut list = Vec::new(alloc);
    for does in acts {
        assert!(rt; list.push(act(rt, *does)).is_ok());
    }
    Script::new(list)
}

/// The acts of a script and the most turns that it gets; the stretches of its trace, each with its count; and its end.
#[derive(Clone, Copy)]
pub struct Driven {
    pub acts: &'static [Does],
    pub most: u32,
    pub trace: &'static [(u32, Does, Says)],
    pub end: End,
}

/// Asserts that the trace has these stretches.
fn has(rt: &impl Abort, trace: &Trace, expected: &[(u32, Does, Says)]) {
    let kept = trace.stretches();
    assert_eq!(rt; kept.len(), expected.len());
    for (stretch, (count, does, says)) in kept.iter().zip(expected) {
        assert_eq!(rt; stretch.count, *count);
        assert_eq!(rt; stretch.turn.act, act(rt, *does));
        assert_eq!(rt; stretch.turn.answer, answer(rt, *says));
    }
}

/// A script drives the mailbox, with this trace and this end.
pub fn drives<'a>(
    rt: &impl Abort,
    alloc: Global,
    mailbox: Mailbox<'a>,
    driven: &Driven,
) -> Mailbox<'a> {
    let mut script = script(rt, alloc, driven.acts);
    let (mailbox, trace, ended) = drive(alloc, mailbox, &mut script, driven.most, &Open);
    assert_eq!(rt; ended, driven.end);
    has(rt, &trace, driven.trace);
    mailbox
}

/// The result of running a board on threads, with this number of instances, and of slots on each lane.
pub fn run_board<R: Threads + Abort + Sync, G: Gate + Sync>(
    rt: &R,
    alloc: Global,
    (instances, capacity): (usize, usize),
    behaviours: Vec<Box<dyn Behaviour + Send>>,
    gate: &G,
) -> Run {
    let mut board = Board::new(alloc, instances, capacity).expect(rt, "a board");
    let posts = board.posts().expect(rt, "posts");
    match run(rt, posts, behaviours, 1_000_000, gate) {
        Ok(ran) => ran,
        Err(_) => panic!(rt; "the board was run"),
    }
}
