//! Messages that behaviours pass on threads.
ghost use Rattle.board.specs.Meeting.{AreOfOneBoard};

use crate::load::{Load, events_of};
use crate::patient_script::PatientScript;
use crate::timing::{nanoseconds_since, when_all};
use anyhow::bail;
use behaviour::{Behaviour, Script};
use board::{Board, Post};
use instances::{MAX_TURNS, Open, run};
use std::alloc::Global;
use std::thread::Threads;
use std::time::{Clock, Instant};

/// The nanoseconds from before the threads are made until the board is gathered. Its lines then have this number of
/// events.
fn time_run<R: Threads + Sync + Clock>(
    rt: &R,
    posts: Vec<Post>,
    behaviours: Vec<Box<dyn Behaviour + Send>>,
    events: usize,
) -> anyhow::Result<u64>
    requires { AreOfOneBoard posts.items }
{
    let start = Instant::now(rt)?;
    let Ok(ran) = run(rt, posts, behaviours, MAX_TURNS, &Open) else {
        bail!("no memory for a run");
    };
    let took = nanoseconds_since(rt, &start);
    when_all(took, events_of(&ran.gathered.chart), events)
}

/// The nanoseconds that behaviours take to pass these messages, on a fresh board.
pub fn time_behaviours<R: Threads + Sync + Clock>(
    rt: &R,
    alloc: Global,
    load: Load,
) -> anyhow::Result<u64> {
    let mut behaviours: Vec<Box<dyn Behaviour + Send>> = Vec::new(alloc);
    for place in 0..load.instances {
        let script = Script::new(load.acts(alloc, place)?);
        behaviours.push(Box::new(alloc, PatientScript { script })?)?;
    }
    let mut board = Board::new(alloc, load.instances, load.capacity)?;
    let posts = board.posts()?;
    time_run(rt, posts, behaviours, load.events())
}
