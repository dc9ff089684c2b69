//! The exchange by behaviours. `run` lets each of them act on a thread of its own.
ghost use Rattle.std.specs.Prelude.{IfOk};
ghost use Rattle.instances.specs.Laws.{IsAccepted};

use crate::audits::audited;
use crate::client::{Client, ClientStep};
use crate::letters::{Letter, Letters};
use crate::logger::Logger;
use crate::parties::{PATIENCE, REQUESTS, SLOTS, client, logger, message, server};
use crate::server::{Server, ServerStep};
use anyhow::bail;
use behaviour::Behaviour;
use board::{Board, Gathered};
use chart::InstanceNo;
use instances::{Gate, MAX_TURNS, run};
use std::alloc::Global;
use std::collections::VecDeque;
use std::sync::Arc;
use std::sync::atomic::AtomicU64;
use std::thread;
use std::thread::Threads;

/// Lets other threads run first before each act. So an instance that waits doesn't keep a processor from those that it
/// waits for.
struct OthersFirst;

impl Gate for OthersFirst {
    fn before(&self, _p: InstanceNo, _turn: u32) {
        thread::yield_now();
    }
}

/// Adds a letter.
fn write(
    alloc: Global,
    queue: &mut VecDeque<Letter>,
    to: InstanceNo,
    name: &[u8],
    request: u32,
) -> anyhow::Result<()> {
    let message = message(alloc, name, request)?;
    queue.push_back(Letter { to, message })?;
    Ok(())
}

/// Two letters for each request: one with the first name to the logger, and then one with the other name to a partner.
fn letters(alloc: Global, note: &[u8], to: InstanceNo, name: &[u8]) -> anyhow::Result<Letters> {
    let mut queue = VecDeque::new(alloc);
    for request in 1..=REQUESTS {
        write(alloc, &mut queue, logger(), note, request)?;
        write(alloc, &mut queue, to, name, request)?;
    }
    Ok(Letters::new(queue))
}

/// The client at the start, with its letters.
fn client_at_first(alloc: Global) -> anyhow::Result<Client> {
    Ok(Client {
        server: server(),
        logger: logger(),
        letters: letters(alloc, b"asks", server(), b"ask")?,
        step: ClientStep::Tell,
    })
}

/// The server at the start, with its letters.
fn server_at_first(alloc: Global) -> anyhow::Result<Server> {
    Ok(Server {
        client: client(),
        logger: logger(),
        letters: letters(alloc, b"serves", client(), b"answer")?,
        patience: PATIENCE,
        left: PATIENCE,
        step: ServerStep::Wait,
    })
}

/// Lets these three act on a board of their own.
fn run_three<R: Threads + Sync>(
    rt: &R,
    alloc: Global,
    behaviours: Vec<Box<dyn Behaviour + Send>>,
) -> anyhow::Result<Gathered>
    ensures { IfOk result IsAccepted }
{
    let mut board = Board::new(alloc, 3, SLOTS)?;
    let posts = board.posts()?;
    match run(rt, posts, behaviours, MAX_TURNS, &OthersFirst) {
        Ok(ran) => audited(alloc, ran.gathered),
        Err(_) => bail!("not run"),
    }
}

/// The result of the three, whose reports were audited.
pub fn exchange<R: Threads + AllocGlobal + Sync>(rt: &R) -> anyhow::Result<Gathered>
    ensures { IfOk result IsAccepted }
{
    let alloc = rt.alloc();
    let mut behaviours: Vec<Box<dyn Behaviour + Send>> = Vec::new(alloc);
    behaviours.push(Box::new(alloc, client_at_first(alloc)?)?)?;
    behaviours.push(Box::new(alloc, server_at_first(alloc)?)?)?;
    let bytes = Arc::new(alloc, AtomicU64::new(0))?;
    behaviours.push(Box::new(alloc, Logger { bytes })?)?;
    run_three(rt, alloc, behaviours)
}
