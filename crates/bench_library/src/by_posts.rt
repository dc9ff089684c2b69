//! The same messages passed by posts without behaviours. Each job has a post of its own.
ghost use Rattle.std.specs.Prelude.{◌≡◌};
ghost use Rattle.board.specs.Meeting.{AreOfOneBoard};

use crate::load::{Load, events_of};
use crate::timing::{nanoseconds_since, when_all};
use anyhow::bail;
use behaviour::{Act, BareAct};
use board::{Board, Post, SendError, Taken, gather};
use std::alloc::Global;
use std::thread;
use std::thread::Threads;
use std::time::{Clock, Instant};

/// The most times that an act is tried.
const LOOKS: u32 = 1_000_000;

/// The result of an act.
#[derive(Clone, Copy, Debug, PartialEq, Eq)]
enum Tried {
    Done,
    /// The lane is full, or no message waits.
    Waits,
    Refused,
}

/// Tries an act, with an empty body.
fn try_act(alloc: Global, post: &mut Post, act: &BareAct) -> Tried
    ensures { post.new.board ≡ post.old.board }
{
    match act.with_empty_body(alloc) {
        Act::Send(to, message) => match post.send(to, message) {
            Ok(_) => Tried::Done,
            Err((_message, error)) => {
                if error == SendError::Full {
                    Tried::Waits
                } else {
                    Tried::Refused
                }
            }
        },
        Act::Receive(from) => match post.receive(from) {
            Ok(Taken::Got(_)) => Tried::Done,
            Ok(Taken::Nothing) => Tried::Waits,
            _ => Tried::Refused,
        },
        _ => Tried::Refused,
    }
}

/// Does an act as soon as possible. It returns whether the act was done.
fn do_act(alloc: Global, post: &mut Post, act: &BareAct) -> bool
    ensures { post.new.board ≡ post.old.board }
{
    for _ in 0..LOOKS {
        match try_act(alloc, post, act) {
            Tried::Done => return true,
            Tried::Waits => thread::yield_now(),
            Tried::Refused => return false,
        }
    }
    false
}

/// Does the acts of the post's instance, up to the first that is refused.
fn do_all<'a>(alloc: Global, mut post: Post<'a>, lists: &[Vec<BareAct>]) -> Post<'a>
    ensures { result.board ≡ post.entry.board }
{
    if let Some(acts) = lists.get(post.number().place()) {
        for act in acts.as_slice() {
            if !do_act(alloc, &mut post, act) {
                break;
            }
        }
    }
    post
}

/// Adds the acts of an instance.
fn add_list(
    lists: &mut Vec<Vec<BareAct>>,
    alloc: Global,
    load: Load,
    place: usize,
) -> anyhow::Result<()> {
    lists.push(load.acts(alloc, place)?)?;
    Ok(())
}

/// The acts of each instance.
fn lists(alloc: Global, load: Load) -> anyhow::Result<Vec<Vec<BareAct>>> {
    let mut lists = Vec::new(alloc);
    for place in 0..load.instances {
        add_list(&mut lists, alloc, load, place)?;
    }
    Ok(lists)
}

/// The number of events on a board with these posts.
fn gathered_events(alloc: Global, posts: Vec<Post>) -> anyhow::Result<usize>
    requires { AreOfOneBoard posts.items }
{
    match gather(alloc, posts) {
        Ok(gathered) => Ok(events_of(&gathered.chart)),
        Err(_) => bail!("no memory for the chart"),
    }
}

/// The number of events on a board with these posts, after each of them has done its acts in a job of its own.
fn events_by_lists<R: Threads + Sync>(
    rt: &R,
    alloc: Global,
    posts: Vec<Post>,
    lists: &[Vec<BareAct>],
) -> anyhow::Result<usize>
    requires { AreOfOneBoard posts.items }
{
    let each = |post| -> Post
        ensures { result.board ≡ post.entry.board }
    { do_all(alloc, post, lists) };
    let left = thread::map_vec(rt, posts, &each)?;
    gathered_events(alloc, left)
}

/// The nanoseconds from before the threads are made until the board is gathered. Its lines then have this number of
/// events.
fn time_lists<R: Threads + Sync + Clock>(
    rt: &R,
    alloc: Global,
    posts: Vec<Post>,
    lists: &[Vec<BareAct>],
    events: usize,
) -> anyhow::Result<u64>
    requires { AreOfOneBoard posts.items }
{
    let start = Instant::now(rt)?;
    let had = events_by_lists(rt, alloc, posts, lists)?;
    let took = nanoseconds_since(rt, &start);
    when_all(took, had, events)
}

/// The nanoseconds that posts take to pass these messages, on a fresh board.
pub fn time_posts<R: Threads + Sync + Clock>(
    rt: &R,
    alloc: Global,
    load: Load,
) -> anyhow::Result<u64> {
    let lists = lists(alloc, load)?;
    let mut board = Board::new(alloc, load.instances, load.capacity)?;
    let posts = board.posts()?;
    time_lists(rt, alloc, posts, lists.as_slice(), load.events())
}
