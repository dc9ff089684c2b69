//! Posts on threads.
ghost use Rattle.std.specs.Prelude.{◌≡◌};
ghost use Rattle.board.specs.Meeting.{AreOfOneBoard};

use crate::gathering::gather_board;
use crate::passing::{instance, send_by};
use board::{Board, Post, Taken};
use std::alloc::Global;
use std::thread;
use std::thread::Threads;

/// The first instance sends to the second one and closes the lane.
fn ask(alloc: Global, post: &mut Post) -> anyhow::Result<()>
    ensures { post.new.board ≡ post.old.board }
{
    send_by(alloc, post, 2, b"hello")?;
    post.close(instance(2)?)?;
    Ok(())
}

/// The second one receives until the lane has ended, and looks at most a million times.
fn listen(post: &mut Post) -> anyhow::Result<()>
    ensures { post.new.board ≡ post.old.board }
{
    let first = instance(1)?;
    for _ in 0..1_000_000 {
        match post.receive(first)? {
            Taken::Got(_) => {}
            Taken::Nothing => thread::yield_now(),
            Taken::Ended => break,
        }
    }
    Ok(())
}

/// What an instance does by itself. A refusal ends it.
fn act(alloc: Global, post: &mut Post)
    ensures { post.new.board ≡ post.old.board }
{
    let _done = if post.number().number() == 1 {
        ask(alloc, post)
    } else {
        listen(post)
    };
}

/// Each post is held by a thread of its own; afterwards the board is gathered.
fn act_all<R: Threads + Print + Sync>(rt: &R, alloc: Global, posts: Vec<Post>) -> anyhow::Result<()>
    requires { AreOfOneBoard posts.items }
{
    let mut posts = posts;
    let each = |_: usize, post: &mut Post|
        ensures { post.exit.now.board ≡ post.entry.now.board }
    { act(alloc, post) };
    let many = posts.len().max(1);
    thread::for_each_mut(rt, posts.as_mut_slice(), many, &each);
    gather_board(rt, alloc, posts)
}

/// Runs two instances on threads.
pub fn act_on_threads<R: Threads + Print + Sync>(rt: &R, alloc: Global) -> anyhow::Result<()> {
    let mut board = Board::new(alloc, 2, 1)?;
    let posts = board.posts()?;
    act_all(rt, alloc, posts)
}
