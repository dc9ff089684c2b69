//! Two messages that cross.
ghost use Rattle.std.specs.Prelude.{◌≡◌};
ghost use Rattle.board.specs.Meeting.{AreOfOneBoard};

use crate::gathering::gather_board;
use crate::passing::{receive_by, send_by};
use anyhow::bail;
use board::{Board, Post};
use std::alloc::Global;

/// One of the posts sends a message of this name to another.
fn send(alloc: Global, posts: &mut [Post], by: usize, to: usize, name: &[u8]) -> anyhow::Result<()>
    requires { AreOfOneBoard posts.old }
    ensures { AreOfOneBoard posts.new }
{
    if by < 1 || posts.len() < by {
        bail!("no such post");
    }
    send_by(alloc, &mut posts[by - 1], to, name)
}

/// One of the posts receives a message from another.
fn receive<R: Print>(rt: &R, posts: &mut [Post], by: usize, from: usize) -> anyhow::Result<()>
    requires { AreOfOneBoard posts.old }
    ensures { AreOfOneBoard posts.new }
{
    if by < 1 || posts.len() < by {
        bail!("no such post");
    }
    receive_by(rt, &mut posts[by - 1], from)
}

/// Each of two instances sends before it receives.
fn pass<R: Print>(rt: &R, alloc: Global, posts: &mut [Post]) -> anyhow::Result<()>
    requires { AreOfOneBoard posts.old }
    ensures { AreOfOneBoard posts.new }
{
    send(alloc, posts, 1, 2, b"cancel")?;
    send(alloc, posts, 2, 1, b"question")?;
    receive(rt, posts, 1, 2)?;
    receive(rt, posts, 2, 1)
}

/// Two messages cross on a board of two instances.
pub fn cross<R: Print>(rt: &R, alloc: Global) -> anyhow::Result<()> {
    let mut board = Board::new(alloc, 2, 1)?;
    let mut posts = board.posts()?;
    pass(rt, alloc, posts.as_mut_slice())?;
    gather_board(rt, alloc, posts)
}
