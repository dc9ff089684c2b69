//! Tests of messages between handles.

use crate::handles::calls::{gets, holds, is_refused, no_arrival, pair, sends};
use board::Peek;
use c_board::Found;

/// Messages that cross. Each receive has races with the earlier events of its instance that the message's sender
/// doesn't know of. The lane is full after two messages, and is closed at the end.
#[test]
fn messages_both_ways(rt: HostRuntime) {
    let alloc = rt.alloc();
    let [mut first, mut second] = pair(&rt, alloc, 2);
    sends(&rt, alloc, &mut first, 2, b"ask", b"12345678", 1);
    sends(&rt, alloc, &mut first, 2, b"ask", b"", 2);
    is_refused(&rt, first.send(alloc, 2, b"ask", b""), 11);
    sends(&rt, alloc, &mut second, 1, b"alarm", b"now", 1);
    gets(&rt, &mut second, 1, b"12345678", &[1]);
    gets(&rt, &mut second, 1, b"", &[1]);
    gets(&rt, &mut first, 2, b"now", &[1, 2]);
    holds(&rt, "it is closed", first.close(2).is_ok());
    let mut output = no_arrival();
    let found = second.receive(1, &mut output);
    holds(&rt, "it has ended", matches!(found, Ok(Peek::Ended)));
    holds(&rt, "nothing is reported", output.from == 0);
    let found = second.any();
    holds(&rt, "all have ended", matches!(found, Ok(Found::Ended)));
    first.end(alloc);
    second.end(alloc);
}
