//! Tests of gates, which see each turn.
use crate::behaviours::calls::{Does, instance, script};
use board::Board;
use chart::InstanceNo;
use instances::{End, Gate, drive};
use mailbox::Mailbox;
use std::cell::Cell;

/// Counts the turns of an instance, as long as they come in their order.
#[derive(Drop)]
struct Counter {
    of: InstanceNo,
    seen: Cell<u32>,
}

impl Gate for Counter {
    fn before(&self, p: InstanceNo, turn: u32) {
        if p == self.of && turn > 0 && turn - 1 == self.seen.get() {
            self.seen.set(turn);
        }
    }
}

#[test]
fn gates_see_each_turn(rt: HostRuntime) {
    let alloc = rt.alloc();
    let counter = Counter {
        of: instance(&rt, 2),
        seen: Cell::new(0),
    };
    let mut board = Board::new(alloc, 2, 1).expect(&rt, "a board");
    let mut posts = board.posts().expect(&rt, "posts");
    let mailbox = Mailbox::new(posts.pop().expect(&rt, "the second post"));
    let mut acts = script(&rt, alloc, &[Does::Open, Does::Shut, Does::Open]);
    let (_, trace, end) = drive(alloc, mailbox, &mut acts, 9, &counter);
    assert_eq!(rt; end, End::Stopped);
    assert_eq!(rt; trace.stretches().len(), 4);
    assert_eq!(rt; counter.seen.get(), 4);
}
