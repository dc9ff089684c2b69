//! Tests of a behaviour that is no script, and gets the bodies of the messages that come.
use crate::behaviours::calls::{instance, name};
use behaviour::{Act, Answer, Behaviour};
use board::{Board, Post};
use chart::{InstanceNo, Message};
use instances::{End, Open, drive};
use mailbox::Mailbox;
use std::alloc::Global;
use std::process::Abort;

/// Receives from an instance until its lane ends, and keeps how many bytes were in the last body.
#[derive(Drop)]
pub struct Reader {
    from: InstanceNo,
    bytes: usize,
}

impl Behaviour for Reader {
    ghost use Rattle.test_runtime.specs.Behaviours.Readers.{reader_act, bytes_after};

    ghost act = { λ reader last. reader_act reader.from last };

    ghost after = { λ reader last. record reader { bytes = bytes_after reader.bytes last } };

    fn next(&mut self, last: &Answer) -> Act {
        match last {
            Answer::Ended => Act::Stop,
            Answer::Got(arrival) => {
                self.bytes = arrival.message.body().len();
                Act::Receive(self.from)
            }
            _ => Act::Receive(self.from),
        }
    }
}

/// Sends a message with a body to the second instance, and closes the lane.
fn sends(rt: &impl Abort, alloc: Global, post: &mut Post) {
    let body = b"body".to_vec(alloc).expect(rt, "a body");
    let Ok(message) = Message::new(name(rt, b'x'), body) else {
        panic!(rt; "a message")
    };
    assert!(rt; post.send(instance(rt, 2), message).is_ok());
    assert!(rt; post.close(instance(rt, 2)).is_ok());
}

#[test]
fn readers_get_bodies(rt: HostRuntime) {
    let alloc = rt.alloc();
    let mut board = Board::new(alloc, 2, 1).expect(&rt, "a board");
    let mut posts = board.posts().expect(&rt, "posts");
    let mailbox = Mailbox::new(posts.pop().expect(&rt, "the second post"));
    let mut first = posts.pop().expect(&rt, "the first post");
    sends(&rt, alloc, &mut first);
    let mut reader = Reader {
        from: instance(&rt, 1),
        bytes: 0,
    };
    let (mailbox, trace, end) = drive(alloc, mailbox, &mut reader, 9, &Open);
    assert_eq!(rt; end, End::Stopped);
    assert_eq!(rt; trace.stretches().len(), 3);
    assert_eq!(rt; mailbox.line().len(), 1);
    assert_eq!(rt; reader.bytes, 4);
}
