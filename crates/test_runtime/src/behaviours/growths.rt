//! Tests of runs whose growth is refused. The trace is then a beginning of the whole one, and the line has as many
//! events as the trace. A test ends with a growth of its own. The refusal of this growth shows that each one before it
//! was refused in an earlier run of the test.
use crate::behaviours::calls::{instance, name};
use behaviour::{BareAct, BareAnswer, Behaviour, Script};
use board::{Board, SendError};
use chart::Line;
use instances::{End, Open, Run, RunError, Trace, drive, run};
use mailbox::Mailbox;
use std::alloc::Global;
use std::process::Abort;
use std::test::Fail;
use std::thread::Threads;

/// The number of messages that each script sends.
const MESSAGES: usize = 12;

/// The number of sends in a trace. A send may also be refused for lack of memory, and then the script stops.
fn sent(rt: &impl Abort, trace: &Trace) -> usize {
    let mut many: usize = 0;
    for stretch in trace.stretches() {
        match stretch.turn.answer {
            Some(BareAnswer::Sent(_)) => many = many.wrapping_add(1),
            Some(other) => assert_eq!(rt; other, BareAnswer::Unsent(SendError::Memory)),
            None => {}
        }
    }
    many
}

/// A script of sends to the instance with this number.
fn script(rt: &impl Abort, alloc: Global, to: usize) -> Option<Script> {
    let send = BareAct::Send(instance(rt, to), name(rt, b'x'));
    let acts = [send; MESSAGES].to_vec(alloc);
    match acts {
        Ok(acts) => Some(Script::new(acts)),
        Err(_) => None,
    }
}

/// A script of twelve sends drives the mailbox until it stops, or memory is refused.
fn is_driven(rt: &impl Abort, alloc: Global, mailbox: Mailbox, mut script: Script) {
    let (mailbox, trace, end) = drive(alloc, mailbox, &mut script, 20, &Open);
    match end {
        End::Stopped => assert!(rt; stops_last(&trace)),
        End::Memory => assert!(rt; trace.stretches().len() < 13),
        End::TurnsSpent => panic!(rt; "a script of twelve acts stops before its twentieth turn"),
    }
    assert_eq!(rt; mailbox.line().len(), sent(rt, &trace));
}

/// Whether the last turn is a single stop.
fn stops_last(trace: &Trace) -> bool {
    match trace.stretches().last() {
        Some(last) => {
            last.count == 1 && last.turn.act == BareAct::Stop && last.turn.answer.is_none()
        }
        None => false,
    }
}

#[test]
fn refused_growths_of_a_run(rt: HostRuntime) -> Result<(), Fail> {
    let alloc = rt.alloc();
    if let Ok(mut board) = Board::new(alloc, 2, MESSAGES) {
        if let (Ok(posts), Some(script)) = (board.posts(), script(&rt, alloc, 2)) {
            let post = posts.into_iter().next().expect(&rt, "a post");
            is_driven(&rt, alloc, Mailbox::new(post), script);
        }
    }
    Vec::<u8>::with_capacity(alloc, 1).map_err(|_| "every growth was refused")?;
    Ok(())
}

/// A board of two that these behaviours ran on threads, or none if a growth was refused.
fn run_two<R: Threads + Abort + Sync>(
    rt: &R,
    alloc: Global,
    behaviours: Vec<Box<dyn Behaviour + Send>>,
) -> Option<Run> {
    let Ok(mut board) = Board::new(alloc, 2, MESSAGES) else {
        return None;
    };
    let Ok(posts) = board.posts() else {
        return None;
    };
    match run(rt, posts, behaviours, 20, &Open) {
        Ok(run) => Some(run),
        Err(RunError::Memory) => None,
        Err(RunError::InvalidInput(..)) => panic!(rt; "two posts and two behaviours"),
    }
}

/// A board of two that was run by scripts which send to each other, or none if a growth was refused.
fn run_scripts<R: Threads + Abort + Sync>(rt: &R, alloc: Global) -> Option<Run> {
    let mut behaviours: Vec<Box<dyn Behaviour + Send>> = Vec::new(alloc);
    for to in [2, 1] {
        let Some(script) = script(rt, alloc, to) else {
            return None;
        };
        let Ok(boxed) = Box::new(alloc, script) else {
            return None;
        };
        if behaviours.push(boxed).is_err() {
            return None;
        }
    }
    run_two(rt, alloc, behaviours)
}

/// Whether an instance did all its acts. If it didn't, its end or its trace shows that a growth was refused. Its line
/// has exactly the sends of its trace.
fn is_whole(rt: &impl Abort, line: &Line, trace: &Trace, end: End) -> bool {
    let sends = sent(rt, trace);
    assert_eq!(rt; line.len(), sends);
    let refused = BareAnswer::Unsent(SendError::Memory);
    let was_refused = trace
        .stretches()
        .iter()
        .any(|stretch| stretch.turn.answer == Some(refused));
    let is_whole = end == End::Stopped && sends == MESSAGES;
    assert_eq!(rt; is_whole, end != End::Memory && !was_refused);
    is_whole
}

/// The number of instances of a run that did all their acts.
fn whole(rt: &impl Abort, ran: &Run) -> usize {
    let mut whole: usize = 0;
    for (place, line) in ran.gathered.chart.lines().iter().enumerate() {
        let trace = ran.traces.get(place).expect(rt, "a trace");
        let end = ran.ends.get(place).expect(rt, "an end");
        whole = whole.wrapping_add(usize::from(is_whole(rt, line, trace, *end)));
    }
    whole
}

/// At most one growth is refused in each run of the test. So there is no run because of F6, or one instance reports F6
/// and the other one did all its acts, or both did.
#[test]
fn refused_growths_on_threads(rt: HostRuntime) -> Result<(), Fail> {
    if let Some(ran) = run_scripts(&rt, rt.alloc()) {
        let whole = whole(&rt, &ran);
        assert!(rt; whole == 1 || whole == 2, "{whole} did all their acts");
        assert_eq!(rt; ran.gathered.reports.len(), 0);
    }
    Vec::<u8>::with_capacity(rt.alloc(), 1).map_err(|_| "every growth was refused")?;
    Ok(())
}
