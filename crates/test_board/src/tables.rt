//! Tables of calls: the calls of posts, and their answers.
ghost use Rattle.std.specs.Prelude.{◌≡◌};
ghost use Rattle.board.specs.Meeting.{AreOfOneBoard};

use crate::calls::{
    are, are_named, gets, have_come, holds, instance, is_event, message, messages, sends_as, stops,
};
use board::{
    Board, CloseError, Post, RegionError, SendError, Sent, Stop, TakeError, Taken, TakenMany,
};
use chart::InstanceNo;
use std::alloc::Global;
use std::process::Abort;

/// Why no message came.
#[derive(Clone, Copy, Debug, PartialEq, Eq)]
pub enum Missed {
    Nothing,
    Ended,
    Refused(TakeError),
}

/// A call of a post, and its answer. The first number is the partner's.
#[derive(Clone, Copy)]
pub enum Call {
    /// A send: the number of its event, or the refusal that returns the message.
    Send(usize, u8, Result<u32, SendError>),
    /// Sends, one by one, none of which is refused.
    Sends(usize, &'static [u8]),
    /// One send of several messages: the numbers of their events, or the refusal that returns the messages.
    SendAll(usize, &'static [u8], Result<&'static [u32], SendError>),
    /// One send of several messages that isn't refused, with any numbers of events.
    SendsAll(usize, &'static [u8]),
    /// Receives, one by one, that get messages with these names, each with these races.
    Gets(usize, &'static [u8], &'static [u32]),
    /// One receive of up to this number of messages: those that come, and why no more come.
    GetAll(usize, usize, &'static [u8], &'static [u32], Stop),
    /// A receive that gets nothing.
    Miss(usize, Missed),
    /// A receive of up to this number of messages that gets nothing.
    MissAll(usize, usize, Missed),
    Close(usize, Result<(), CloseError>),
    Open(Result<(), RegionError>),
    Shut(Result<(), RegionError>),
    /// No call: the post's line has this number of events.
    HasEvents(usize),
}

/// Sends messages with these names one by one.
fn sends(rt: &impl Abort, alloc: Global, post: &mut Post, to: usize, letters: &[u8])
    ensures { post.new.board ≡ post.old.board }
{
    let to = instance(rt, to);
    for letter in letters {
        assert!(rt; post.send(to, message(rt, alloc, *letter)).is_ok());
    }
}

/// Asserts that these are these events of the instance.
fn are_events(rt: &impl Abort, sents: &[Sent], instance: InstanceNo, events: &[u32]) {
    are(rt, "sends", sents.len(), events.len());
    for (sent, index) in sents.iter().zip(events) {
        is_event(rt, &sent.event, instance, *index);
    }
}

/// Asserts that these sends were to be accepted, and that they are these events of the instance.
fn are_answered(
    rt: &impl Abort,
    sents: &[Sent],
    instance: InstanceNo,
    answer: &Result<&'static [u32], SendError>,
) {
    match answer {
        Ok(events) => are_events(rt, sents, instance, events),
        Err(_) => panic!(rt; "they were sent"),
    }
}

/// Asserts that this refusal is the answer of the table.
fn is_refused(rt: &impl Abort, error: SendError, answer: &Result<&'static [u32], SendError>) {
    assert!(rt; matches!(answer, Err(wanted) if *wanted == error));
}

/// Sends messages with these names at once. If they are refused, they come back, and no event is made.
fn send_all(
    rt: &impl Abort,
    alloc: Global,
    post: &mut Post,
    to: usize,
    letters: &[u8],
    answer: &Result<&'static [u32], SendError>,
)
    ensures { post.new.board ≡ post.old.board }
{
    let messages = messages(rt, alloc, letters).expect(rt, "messages");
    let before = post.line().len();
    match post.send_all(instance(rt, to), messages) {
        Ok(sents) => are_answered(rt, sents.as_slice(), post.number(), answer),
        Err((back, error)) => {
            is_refused(rt, error, answer);
            are_named(rt, back.as_slice(), letters);
            are(rt, "events", post.line().len(), before);
        }
    }
}

/// Receives messages with these names one by one.
fn gets_each(rt: &impl Abort, post: &mut Post, from: usize, letters: &[u8], races: &[u32])
    ensures { post.new.board ≡ post.old.board }
{
    for letter in letters {
        gets(rt, post, from, *letter, races);
    }
}

/// Receives messages with these names by one call, for up to `max` messages.
fn get_all(
    rt: &impl Abort,
    post: &mut Post,
    from: usize,
    max: usize,
    letters: &[u8],
    races: &[u32],
    stop: Stop,
)
    ensures { post.new.board ≡ post.old.board }
{
    assert!(rt; 1 <= max);
    match post.receive_up_to(instance(rt, from), max) {
        Ok(
            TakenMany::Got {
                arrivals,
                stop: stopped,
            },
        ) => {
            have_come(rt, arrivals.as_slice(), letters, races);
            stops(rt, stopped, stop);
        }
        _ => panic!(rt; "no messages came"),
    }
}

/// Why no message came.
pub fn why_nothing(rt: &impl Abort, taken: Result<Taken, TakeError>) -> Missed {
    match taken {
        Ok(Taken::Nothing) => Missed::Nothing,
        Ok(Taken::Ended) => Missed::Ended,
        Err(error) => Missed::Refused(error),
        Ok(Taken::Got(_)) => panic!(rt; "a message came"),
    }
}

/// Why no messages came.
fn why_none(rt: &impl Abort, taken: Result<TakenMany, TakeError>) -> Missed {
    match taken {
        Ok(TakenMany::Nothing) => Missed::Nothing,
        Ok(TakenMany::Ended) => Missed::Ended,
        Err(error) => Missed::Refused(error),
        Ok(TakenMany::Got { .. }) => panic!(rt; "messages came"),
    }
}

/// Asserts that a receive gets nothing, and why.
fn misses(rt: &impl Abort, post: &mut Post, from: usize, why: Missed)
    ensures { post.new.board ≡ post.old.board }
{
    let taken = post.receive(instance(rt, from));
    assert_eq!(rt; why_nothing(rt, taken), why);
}

/// Asserts that a receive of up to `max` messages gets nothing, and why.
fn misses_all(rt: &impl Abort, post: &mut Post, from: usize, max: usize, why: Missed)
    ensures { post.new.board ≡ post.old.board }
{
    assert!(rt; 1 <= max);
    let taken = post.receive_up_to(instance(rt, from), max);
    assert_eq!(rt; why_none(rt, taken), why);
}

/// Sends messages with these names at once, with any numbers of events.
fn sends_all(rt: &impl Abort, alloc: Global, post: &mut Post, to: usize, letters: &[u8])
    ensures { post.new.board ≡ post.old.board }
{
    let messages = messages(rt, alloc, letters).expect(rt, "messages");
    let sent = post.send_all(instance(rt, to), messages);
    holds(rt, "they are sent", sent.is_ok());
}

/// Makes the call, a receive or another one, and asserts its answer.
fn make(rt: &impl Abort, alloc: Global, post: &mut Post, call: &Call)
    ensures { post.new.board ≡ post.old.board }
{
    match *call {
        Call::Gets(from, letters, races) => gets_each(rt, post, from, letters, races),
        Call::GetAll(from, max, letters, races, stop) => {
            get_all(rt, post, from, max, letters, races, stop)
        }
        Call::Miss(from, why) => misses(rt, post, from, why),
        Call::MissAll(from, max, why) => misses_all(rt, post, from, max, why),
        _ => make_other(rt, alloc, post, call),
    }
}

/// Makes a call that sends, or one without a message.
fn make_other(rt: &impl Abort, alloc: Global, post: &mut Post, call: &Call)
    ensures { post.new.board ≡ post.old.board }
{
    match *call {
        Call::Send(to, letter, answer) => sends_as(rt, alloc, post, to, letter, answer),
        Call::Sends(to, letters) => sends(rt, alloc, post, to, letters),
        Call::SendAll(to, letters, answer) => send_all(rt, alloc, post, to, letters, &answer),
        Call::SendsAll(to, letters) => sends_all(rt, alloc, post, to, letters),
        _ => make_without_message(rt, post, call),
    }
}

fn make_without_message(rt: &impl Abort, post: &mut Post, call: &Call)
    ensures { post.new.board ≡ post.old.board }
{
    match *call {
        Call::Close(to, answer) => { holds(rt, "a close", post.close(instance(rt, to)) == answer) }
        Call::Open(answer) => holds(rt, "a coregion begins", post.open_coregion() == answer),
        Call::Shut(answer) => holds(rt, "a coregion ends", post.close_coregion() == answer),
        Call::HasEvents(many) => are(rt, "events", post.line().len(), many),
        _ => panic!(rt; "no such call"),
    }
}

/// The post with this number makes the call.
pub fn make_at(rt: &impl Abort, alloc: Global, posts: &mut [Post], by: usize, call: &Call)
    requires { AreOfOneBoard posts.old }
    ensures { AreOfOneBoard posts.new }
{
    assert!(rt; 1 <= by && by <= posts.len());
    make(rt, alloc, &mut posts[by - 1], call);
}

/// Makes the calls, each of them by an instance.
pub fn make_all(rt: &impl Abort, alloc: Global, posts: &mut [Post], calls: &[(usize, Call)])
    requires { AreOfOneBoard posts.old }
    ensures { AreOfOneBoard posts.new }
{
    for (by, call) in calls {
        make_at(rt, alloc, posts, *by, call);
    }
}

/// Calls at the start, calls that are repeated, and calls at the end.
#[derive(Clone, Copy)]
pub struct Turns<'t> {
    pub first: &'t [(usize, Call)],
    pub times: usize,
    pub turn: &'t [(usize, Call)],
    pub last: &'t [(usize, Call)],
}

/// Makes these calls on a board with this number of instances, and of slots on each lane.
pub fn play_turns(
    rt: &impl Abort,
    alloc: Global,
    instances: usize,
    capacity: usize,
    turns: &Turns,
) {
    let mut board = Board::new(alloc, instances, capacity).expect(rt, "a board");
    let mut posts = board.posts().expect(rt, "posts");
    let posts = posts.as_mut_slice();
    make_all(rt, alloc, posts, turns.first);
    for _ in 0..turns.times {
        make_all(rt, alloc, posts, turns.turn);
    }
    make_all(rt, alloc, posts, turns.last);
}

/// The same without repeated calls.
pub fn play(
    rt: &impl Abort,
    alloc: Global,
    instances: usize,
    capacity: usize,
    calls: &[(usize, Call)],
) {
    let turns = Turns {
        first: calls,
        times: 0,
        turn: &[],
        last: &[],
    };
    play_turns(rt, alloc, instances, capacity, &turns);
}
