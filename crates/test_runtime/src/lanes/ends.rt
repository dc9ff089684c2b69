//! Tests of the ends of both forms of a lane, over plain words and slots, compared step by step with a plain closable
//! queue.
mod machines;

use lane_core::answers::{Found, ReceiverStep, Room, SenderStep};
use machines::{FlagLane, IndexLane, Machine, Queue, Shown, Step};
use std::alloc::{AllocError, Global};
use std::process::Abort;
use std::test::Fail;

/// A lane and a queue after the same steps, and the number of these steps that were on words.
#[derive(Clone, Copy, Debug, PartialEq, Eq)]
struct Pair<M> {
    lane: M,
    queue: Queue,
    words: u32,
}

/// Whether the step touches a slot and no word.
fn is_touch(step: Step) -> bool {
    matches!(&step, Step::Fills(_) | Step::Takes | Step::PutsBack(_))
}

/// Makes a step on both, and asserts that they show the same. It returns nothing if the lane's end may not make this
/// step.
fn after<M: Machine>(rt: &impl Abort, pair: &Pair<M>, step: Step) -> Option<Pair<M>> {
    let mut lane = pair.lane;
    let mut queue = pair.queue;
    let shown = lane.step(step);
    if shown == Shown::Refused {
        return None;
    }
    assert_eq!(rt; shown, queue.step(step));
    let words = if is_touch(step) {
        pair.words
    } else {
        pair.words.wrapping_add(1)
    };
    Some(Pair { lane, queue, words })
}

/// Each lane and queue that a run of up to this many steps on words reaches, once.
fn reached<M: Machine>(
    rt: &impl Abort,
    alloc: Global,
    capacity: u32,
    most: u32,
) -> Result<Vec<Pair<M>>, AllocError> {
    let mut pairs = Vec::new(alloc);
    pairs.push(Pair {
        lane: M::new(capacity as u64),
        queue: Queue::new(capacity),
        words: 0,
    })?;
    for at in 0..1_000_000usize {
        let pair = match pairs.get(at) {
            Some(pair) => *pair,
            None => return Ok(pairs),
        };
        for step in pair.queue.steps() {
            if let Some(next) = after(rt, &pair, step) {
                let known = pairs.iter().any(|other| other.lane == next.lane
                    && other.queue == next.queue
                    && other.words <= next.words);
                if !known && next.words <= most {
                    pairs.push(next)?;
                }
            }
        }
    }
    Ok(pairs)
}

/// Asserts that every run of up to ten steps on words shows the same as the queue. In some of the runs a lane is
/// filled, closed while it is full, drained, and found ended.
fn agrees_with_a_queue<M: Machine>(
    rt: &impl Abort,
    alloc: Global,
    capacity: u32,
) -> Result<(), AllocError> {
    let pairs: Vec<Pair<M>> = reached(rt, alloc, capacity, 10)?;
    let full = pairs.iter().any(|pair| pair.queue.closed && pair.queue.room() == Room::Full);
    let ended = pairs.iter().any(|pair| pair.queue.next == capacity
        && pair.queue.found() == Found::Ended);
    assert!(rt; full);
    assert!(rt; ended);
    Ok(())
}

#[test]
fn every_short_run_is_one_of_a_queue(rt: HostRuntime) -> Result<(), Fail> {
    let alloc = rt.alloc();
    agrees_with_a_queue::<IndexLane>(&rt, alloc, 1)?;
    agrees_with_a_queue::<IndexLane>(&rt, alloc, 2)?;
    agrees_with_a_queue::<FlagLane>(&rt, alloc, 1)?;
    agrees_with_a_queue::<FlagLane>(&rt, alloc, 2)?;
    Ok(())
}

/// A send, by the steps that the end asks for.
fn send<M: Machine>(rt: &impl Abort, lane: &mut M, message: u32) -> Room {
    let mut room = Room::Vacant;
    if lane.next_of_sender() == SenderStep::Load {
        if lane.step(Step::SenderLoads) == Shown::Room(Room::Full) {
            room = Room::Full;
        }
    }
    if room == Room::Vacant {
        assert_eq!(rt; lane.next_of_sender(), SenderStep::Fill);
        assert_eq!(rt; lane.step(Step::Fills(message)), Shown::Made);
        assert_eq!(rt; lane.next_of_sender(), SenderStep::Publish);
        assert_eq!(rt; lane.step(Step::Publishes), Shown::Made);
    }
    room
}

/// A receive, by the steps that the end asks for: it finds this, and takes this message.
fn receive<M: Machine>(rt: &impl Abort, lane: &mut M, found: Found, message: Option<u32>) {
    if lane.next_of_receiver() == ReceiverStep::Look {
        assert!(rt; lane.step(Step::ReceiverLoads) == Shown::Found(found));
    }
    if message.is_some() {
        let steps = [
            (ReceiverStep::Take, Step::Takes, Shown::Took(message)),
            (ReceiverStep::Free, Step::Frees, Shown::Made),
        ];
        for (next, step, shown) in steps {
            assert!(rt; lane.next_of_receiver() == next);
            assert!(rt; lane.step(step) == shown);
        }
    }
}

/// Asserts that a full lane can be closed and drained, and has then ended. Before that a send finds it full.
fn fills_closes_and_drains<M: Machine>(rt: &impl Abort, capacity: u32) {
    let mut lane: M = M::new(capacity as u64);
    receive(rt, &mut lane, Found::Nothing, None);
    for round in 0..3u32 {
        for message in 0..capacity {
            assert_eq!(rt;
                send(rt, &mut lane, message),
                Room::Vacant,
                "message {message} of round {round}"
            );
        }
        assert_eq!(rt; send(rt, &mut lane, 1_000), Room::Full);
        assert_eq!(rt; send(rt, &mut lane, 1_001), Room::Full);
        if round == 2 {
            assert_eq!(rt; lane.step(Step::Closes), Shown::Made);
        }
        for message in 0..capacity {
            receive(rt, &mut lane, Found::Message, Some(message));
        }
        if round < 2 {
            receive(rt, &mut lane, Found::Nothing, None);
        }
    }
    receive(rt, &mut lane, Found::Ended, None);
    receive(rt, &mut lane, Found::Ended, None);
    assert_eq!(rt; lane.step(Step::Closes), Shown::Refused);
    assert_eq!(rt; lane.step(Step::Publishes), Shown::Refused);
}

#[test]
fn full_lanes_close_and_drain(rt: HostRuntime) {
    for capacity in [1u32, 2, 64] {
        fills_closes_and_drains::<IndexLane>(&rt, capacity);
        fills_closes_and_drains::<FlagLane>(&rt, capacity);
    }
}

/// Makes the steps in turn, and asserts what each of them shows.
fn shows(rt: &impl Abort, lane: &mut IndexLane, steps: &[(Step, Shown)]) {
    for (step, shown) in steps {
        assert!(rt; lane.step(*step) == *shown);
    }
}

/// A message that is put back is taken again. If a sender fills two slots and publishes once, the receiver sees both or
/// none.
#[test]
fn several_go_at_once_over_index_words(rt: HostRuntime) {
    let mut lane = IndexLane::new(2);
    let filled = [
        (Step::SenderLoads, Shown::Room(Room::Vacant)),
        (Step::Fills(7), Shown::Made),
        (Step::Fills(8), Shown::Made),
        (Step::ReceiverLoads, Shown::Found(Found::Nothing)),
        (Step::Publishes, Shown::Made),
        (Step::Fills(9), Shown::Refused),
        (Step::ReceiverLoads, Shown::Found(Found::Message)),
        (Step::Takes, Shown::Took(Some(7))),
        (Step::Takes, Shown::Took(Some(8))),
        (Step::PutsBack(8), Shown::Made),
        (Step::Frees, Shown::Made),
    ];
    shows(&rt, &mut lane, filled.as_slice());
    assert!(rt; lane.taken == 1 && lane.put == 4);
    let closed = [
        (Step::Takes, Shown::Took(Some(8))),
        (Step::Closes, Shown::Made),
    ];
    shows(&rt, &mut lane, closed.as_slice());
    assert!(rt; lane.put == 5);
}
