//! Two clients order at a server, each on a thread of its own. The server prints each race of its receives as it
//! comes.
#![tactic(auto)]

use anyhow::bail;
use board::{Arrival, Board, Post, Taken};
use chart::{InstanceNo, Message, Name};
use mailbox::Mailbox;
use std::alloc::Global;
use std::thread::Threads;
use std::{str, thread};

/// A client sends its order to the server, which is the third instance.
fn order(alloc: Global, mut post: Post) -> anyhow::Result<()> {
    let Ok(message) = Message::new(Name::new(b"order")?, b"tea".to_vec(alloc)?) else {
        bail!("a body has at most 4,096 bytes");
    };
    if let Err((_, error)) = post.send(InstanceNo::at_place(2), message) {
        bail!("not sent: {error}");
    }
    post.close(InstanceNo::at_place(2))?;
    Ok(())
}

/// Prints the races of a receive: the earlier events of its line that nothing forces to come first.
fn print_races<R: Print>(rt: &R, mailbox: &Mailbox, arrival: &Arrival) -> anyhow::Result<()> {
    let name = arrival.message.name();
    let receive = arrival.report.receive().index;
    let line = mailbox.line();
    for event in arrival.report.earlier().iter() {
        let place = event.index.saturating_sub(1) as usize;
        if place < line.len() {
            let earlier = line.event(place);
            println!(rt;
                "{} (event {receive}) may come before {} (event {})",
                str::from_utf8(name.as_bytes())?,
                str::from_utf8(earlier.name().as_bytes())?,
                event.index
            )?;
        }
    }
    Ok(())
}

/// The server receives from both, until they have closed their lanes. Its timeout is a number of looks.
fn serve<R: Print>(rt: &R, post: Post) -> anyhow::Result<()> {
    let mut mailbox = Mailbox::new(post);
    for _ in 0..1_000_000 {
        match mailbox.any()? {
            Taken::Got(arrival) => print_races(rt, &mailbox, &arrival)?,
            Taken::Nothing => thread::yield_now(),
            Taken::Ended => return Ok(()),
        }
    }
    bail!("no client came")
}

fn main(rt: HostRuntime) -> anyhow::Result<()> {
    let alloc = rt.alloc();
    let mut board = Board::new(alloc, 3, 1)?;
    let posts = board.posts()?;
    let act = |post: Post| -> anyhow::Result<()> {
        if post.number() == InstanceNo::at_place(2) {
            serve(&rt, post)
        } else {
            order(alloc, post)
        }
    };
    for done in thread::map_vec(&rt, posts, &act)? {
        done?;
    }
    Ok(())
}
