//! The same exchange without behaviours. Each instance has its post itself, in a job of its own.
ghost use Rattle.std.specs.Prelude.{◌≡◌, IfOk};
ghost use Rattle.board.specs.Meeting.{AreOfOneBoard};
ghost use Rattle.instances.specs.Laws.{IsAccepted};

use crate::audits::audited;
use crate::parties::{PATIENCE, REQUESTS, SLOTS, client, logger, message, server};
use anyhow::bail;
use board::{Arrival, Board, GatherError, Gathered, Post, Taken, gather};
use chart::InstanceNo;
use mailbox::Mailbox;
use std::alloc::Global;
use std::thread;
use std::thread::Threads;

/// Sends a message with this name to an instance.
fn send(
    alloc: Global,
    post: &mut Post,
    to: InstanceNo,
    name: &[u8],
    request: u32,
) -> anyhow::Result<()>
    ensures { post.new.board ≡ post.old.board }
{
    match post.send(to, message(alloc, name, request)?) {
        Ok(_) => Ok(()),
        Err((_, error)) => bail!("not sent: {error}"),
    }
}

/// The next message from an instance, or none if its lane ends or if none has come after `PATIENCE` looks.
fn wait_for(post: &mut Post, from: InstanceNo) -> anyhow::Result<Option<Arrival>>
    ensures { post.new.board ≡ post.old.board }
{
    for _ in 0..PATIENCE {
        match post.receive(from)? {
            Taken::Got(arrival) => return Ok(Some(arrival)),
            Taken::Nothing => thread::yield_now(),
            Taken::Ended => return Ok(None),
        }
    }
    Ok(None)
}

/// The client tells the logger of each request, asks the server and waits for the answer.
fn ask(alloc: Global, post: &mut Post) -> anyhow::Result<()>
    ensures { post.new.board ≡ post.old.board }
{
    for request in 1..=REQUESTS {
        send(alloc, post, logger(), b"asks", request)?;
        send(alloc, post, server(), b"ask", request)?;
        if wait_for(post, server())?.is_none() {
            break;
        }
    }
    post.close(server())?;
    post.close(logger())?;
    Ok(())
}

/// The server waits for a request, tells the logger of it and answers. It gives up if none comes for long.
fn serve(alloc: Global, post: &mut Post) -> anyhow::Result<()>
    ensures { post.new.board ≡ post.old.board }
{
    for request in 1..=REQUESTS {
        if wait_for(post, client())?.is_none() {
            break;
        }
        send(alloc, post, logger(), b"serves", request)?;
        send(alloc, post, client(), b"answer", request)?;
    }
    post.close(client())?;
    post.close(logger())?;
    Ok(())
}

/// The logger receives any message that comes, until all others have closed their lanes to it.
fn log<'a>(post: Post<'a>) -> Post<'a>
    ensures { result.board ≡ post.entry.board }
{
    let mut mailbox = Mailbox::new(post);
    for _ in 0..PATIENCE {
        match mailbox.any() {
            Ok(Taken::Got(_)) => {}
            Ok(Taken::Nothing) => thread::yield_now(),
            _ => break,
        }
    }
    mailbox.into_post()
}

/// The acts of an instance. A refusal ends them.
fn act<'a>(alloc: Global, mut post: Post<'a>) -> Post<'a>
    ensures { result.board ≡ post.entry.board }
{
    let number = post.number();
    if number == client() {
        let _done = ask(alloc, &mut post);
        post
    } else if number == server() {
        let _done = serve(alloc, &mut post);
        post
    } else {
        log(post)
    }
}

/// The result of the posts, if an audit accepts it.
fn gathered(alloc: Global, posts: Vec<Post>) -> anyhow::Result<Gathered>
    requires { AreOfOneBoard posts.items }
    ensures { IfOk result IsAccepted }
{
    match gather(alloc, posts) {
        Ok(gathered) => audited(alloc, gathered),
        Err(GatherError { posts: _, cause }) => bail!("not gathered: {cause}"),
    }
}

/// The result of the three, whose reports were audited.
pub fn exchange<R: Threads + AllocGlobal + Sync>(rt: &R) -> anyhow::Result<Gathered>
    ensures { IfOk result IsAccepted }
{
    let alloc = rt.alloc();
    let mut board = Board::new(alloc, 3, SLOTS)?;
    let posts = board.posts()?;
    let each = move |post| -> Post
        ensures { result.board ≡ post.entry.board }
    { act(alloc, post) };
    let left = thread::map_vec(rt, posts, &each)?;
    gathered(alloc, left)
}
