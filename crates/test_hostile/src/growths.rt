//! Tests of worked schedules with each growth of memory refused in turn, by the calls of posts and of mailboxes. Each
//! refused call is made once more, and then returns its full answer. A test ends with a growth of its own. The refusal
//! of this growth shows that each one before it was refused in an earlier run of the test.
use crate::callers::{Caller, Listed, Single};
use crate::calls::{every_growth_was_refused, has_come, holds, instance, message, put};
use crate::schedules::{Deed, WORKED, Worked};
use board::{Arrival, Board, SendError, TakeError};
use chart::InstanceNo;
use mailbox::Mailbox;
use std::alloc::Global;
use std::process::Abort;
use std::test::Fail;

/// Sends a message with this name, and once more if memory was refused.
fn sends<'a, C: Caller<'a>>(
    rt: &impl Abort,
    alloc: Global,
    caller: &mut C,
    letter: u8,
    to: InstanceNo,
) {
    if let Err((back, error)) = caller.send(to, message(rt, alloc, letter)) {
        holds(rt, "memory was refused", error == SendError::Memory);
        holds(rt, "it is sent", caller.send(to, back).is_ok());
    }
}

/// The instances from which a message may be received.
#[derive(Clone, Copy)]
enum Source {
    From(InstanceNo),
    /// Any instance that has a message.
    Any,
}

/// Receives a message, at the second attempt if memory was refused.
fn gets<'a, C: Caller<'a>>(rt: &impl Abort, caller: &mut C, source: &Source) -> Arrival {
    let taken = match take(caller, source) {
        Ok(taken) => taken,
        Err(_) => take(caller, source).expect(rt, "a message"),
    };
    taken.expect(rt, "a message")
}

fn take<'a, C: Caller<'a>>(caller: &mut C, source: &Source) -> Result<Option<Arrival>, TakeError> {
    match source {
        Source::From(from) => caller.receive(*from),
        Source::Any => caller.any(),
    }
}

fn makes<'a, C: Caller<'a>>(rt: &impl Abort, alloc: Global, caller: &mut C, deed: &Deed) {
    match *deed {
        Deed::Sends(letter, to) => sends(rt, alloc, caller, letter, instance(rt, to)),
        Deed::Gets(letter, from, race) => {
            let arrival = gets(rt, caller, &Source::From(instance(rt, from)));
            has_come(rt, &arrival, letter, from, race);
        }
        Deed::GetsAny(letter, from, race) => {
            let arrival = gets(rt, caller, &Source::Any);
            has_come(rt, &arrival, letter, from, race);
        }
    }
}

/// A board, made at the second attempt if memory was refused.
fn board_of(rt: &impl Abort, alloc: Global, worked: &Worked) -> Board {
    match Board::new(alloc, worked.instances, worked.capacity) {
        Ok(board) => board,
        Err(_) => Board::new(alloc, worked.instances, worked.capacity).expect(rt, "a board"),
    }
}

/// Makes the deeds, each of them by a caller.
fn make_all<'a, C: Caller<'a>>(
    rt: &impl Abort,
    alloc: Global,
    callers: &mut [C],
    deeds: &[(usize, Deed)],
) {
    for (by, deed) in deeds {
        assert!(rt; 1 <= *by && *by <= callers.len());
        makes(rt, alloc, &mut callers[*by - 1], deed);
    }
}

/// Makes the deeds of a schedule, unless memory was refused for the posts or for the list of callers.
fn follow<'a, C: Caller<'a>>(
    rt: &impl Abort,
    alloc: Global,
    board: &'a mut Board,
    worked: &Worked,
) {
    let Ok(posts) = board.posts() else { return };
    let mut callers = Vec::new(alloc);
    if callers.reserve(posts.len()).is_ok() {
        for post in posts {
            put(rt, &mut callers, C::over(alloc, post));
        }
        make_all(rt, alloc, callers.as_mut_slice(), worked.deeds);
    }
}

#[test]
fn refused_growths_by_posts(rt: HostRuntime) -> Result<(), Fail> {
    for worked in &WORKED {
        let mut board = board_of(&rt, rt.alloc(), worked);
        follow::<Single>(&rt, rt.alloc(), &mut board, worked);
    }
    every_growth_was_refused(rt.alloc())
}

#[test]
fn refused_growths_by_mailboxes(rt: HostRuntime) -> Result<(), Fail> {
    for worked in &WORKED {
        let mut board = board_of(&rt, rt.alloc(), worked);
        follow::<Mailbox>(&rt, rt.alloc(), &mut board, worked);
    }
    every_growth_was_refused(rt.alloc())
}

#[test]
fn refused_growths_by_lists(rt: HostRuntime) -> Result<(), Fail> {
    for worked in &WORKED {
        let mut board = board_of(&rt, rt.alloc(), worked);
        follow::<Listed>(&rt, rt.alloc(), &mut board, worked);
    }
    every_growth_was_refused(rt.alloc())
}
