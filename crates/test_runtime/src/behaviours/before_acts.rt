//! Tests that gates come before the acts: while a gate is open for a send, its message can't have come yet.
use crate::behaviours::calls::{Does, instance, run_board, script};
use behaviour::{Act, Answer, Behaviour};
use chart::InstanceNo;
use instances::Gate;
use std::sync::Arc;
use std::sync::atomic::{AtomicU64, Ordering};
use std::thread;

/// Receives from one instance until a message comes, and counts it for others that share its counter.
#[derive(Drop)]
struct Waiter {
    from: InstanceNo,
    got: Arc<AtomicU64>,
}

impl Behaviour for Waiter {
    ghost use Rattle.test_runtime.specs.Behaviours.Readers.{waiter_act};

    ghost act = { λ waiter last. waiter_act waiter.from last };

    ghost after = { λ waiter last. waiter };

    fn next(&mut self, last: &Answer) -> Act {
        match last {
            Answer::Got(_) => {
                self.got.fetch_add(1, Ordering::SeqCst);
                Act::Stop
            }
            _ => Act::Receive(self.from),
        }
    }
}

/// Holds back the sender's first act for a while, and checks whether its message has come nevertheless.
#[derive(Drop)]
struct Watch {
    sender: InstanceNo,
    got: Arc<AtomicU64>,
    early: AtomicU64,
}

impl Gate for Watch {
    fn before(&self, p: InstanceNo, turn: u32) {
        thread::yield_now();
        if p != self.sender || turn != 1 {
            return;
        }
        for _ in 0..10_000 {
            if self.got.load(Ordering::SeqCst) > 0 {
                self.early.fetch_add(1, Ordering::SeqCst);
                return;
            }
            thread::yield_now();
        }
    }
}

#[test]
fn gates_come_before_their_acts(rt: HostRuntime) {
    let alloc = rt.alloc();
    let sender = instance(&rt, 1);
    let got = Arc::new(alloc, AtomicU64::new(0)).expect(&rt, "a counter");
    let watch = Watch {
        sender,
        got: got.clone().expect(&rt, "the same counter"),
        early: AtomicU64::new(0),
    };
    let script = script(&rt, alloc, &[Does::Send(2, b'x')]);
    let script = Box::new(alloc, script).expect(&rt, "a box");
    let waiter = Box::new(alloc, Waiter { from: sender, got }).expect(&rt, "a box");
    let mut behaviours: Vec<Box<dyn Behaviour + Send>> = Vec::new(alloc);
    assert!(rt; behaviours.push(script).is_ok());
    assert!(rt; behaviours.push(waiter).is_ok());
    let ran = run_board(&rt, alloc, (2, 1), behaviours, &watch);
    assert_eq!(rt; ran.traces.len(), 2);
    assert_eq!(rt; watch.early.load(Ordering::SeqCst), 0);
}
