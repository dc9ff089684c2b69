//! A mailbox.
use crate::passing::send_by;
use anyhow::bail;
use board::{Board, Post, Taken};
use mailbox::Mailbox;
use std::alloc::Global;

/// The instance that a message came from, or 0 if none waits yet.
fn look(mailbox: &mut Mailbox) -> anyhow::Result<usize> {
    match mailbox.any()? {
        Taken::Got(arrival) => Ok(arrival.from.number()),
        Taken::Nothing => Ok(0),
        Taken::Ended => bail!("all others closed their lanes to it"),
    }
}

/// Looks for a message before one is sent, and after that.
fn look_around<R: Print>(
    rt: &R,
    alloc: Global,
    sender: &mut Post,
    mailbox: &mut Mailbox,
) -> anyhow::Result<()> {
    println!(rt; "a message of {}", look(mailbox)?)?;
    send_by(alloc, sender, 2, b"hello")?;
    println!(rt; "a message of {}", look(mailbox)?)?;
    Ok(())
}

/// The second of two posts becomes a mailbox.
pub fn look_twice<R: Print>(rt: &R, alloc: Global) -> anyhow::Result<()> {
    let mut board = Board::new(alloc, 2, 1)?;
    let mut posts = board.posts()?;
    let (Some(second), Some(mut first)) = (posts.pop(), posts.pop()) else {
        bail!("two posts");
    };
    let mut mailbox = Mailbox::new(second);
    look_around(rt, alloc, &mut first, &mut mailbox)
}
