//! A run that fills all lines.
use crate::fillers::Filler;
use crate::gates::OthersFirst;
use crate::passing::{Passed, run_board};
use anyhow::bail;
use behaviour::{BareAnswer, Behaviour};
use board::{Gathered, SendError, TakeError};
use chart::{InstanceNo, MAX_EVENTS, Name};
use instances::Trace;
use std::alloc::Global;
use std::thread::Threads;
use std::time::Clock;

const INSTANCES: usize = 8;

/// The number of slots of a lane: the most.
const SLOTS: usize = 64;

/// The numbers of messages that each instance sends and receives: together they fill a line. As many more messages are
/// sent to an instance as a lane has slots. So no lane to it stays full for ever, and a message waits when its line is
/// full.
const SENDS: u32 = 2080;

const RECEIVES: u32 = 2016;

/// The most turns that an instance has, so that it can look again if a lane is full or no message waits. It is the most
/// that a run allows.
const TURNS: u32 = 1_000_000;

/// The instance at this place.
fn filler(alloc: Global, place: usize) -> anyhow::Result<Filler> {
    Ok(Filler {
        alloc,
        near: InstanceNo::at_place(place.wrapping_add(1) % INSTANCES),
        far: InstanceNo::at_place(place.wrapping_add(3) % INSTANCES),
        name: Name::new(b"m")?,
        sends: SENDS,
        receives: RECEIVES,
    })
}

/// Whether a send, and later a receive, were refused because the line is full (F7).
fn ended_with_its_line(trace: &Trace) -> bool {
    let mut unsent = false;
    let mut unreceived = false;
    for stretch in trace.stretches() {
        match stretch.turn.answer {
            Some(BareAnswer::Unsent(SendError::LineFull)) => unsent = true,
            Some(BareAnswer::Unreceived(TakeError::LineFull)) => unreceived = unsent,
            _ => {}
        }
    }
    unreceived
}

/// Whether each line is full, and as many messages are left as were sent to full lines.
fn are_full(gathered: &Gathered) -> bool {
    for line in gathered.chart.lines() {
        if line.len() != MAX_EVENTS {
            return false;
        }
    }
    Passed::of(gathered).left == INSTANCES * SLOTS
}

/// Eight instances fill their lines, and each tries one more send and one more receive. It returns the number of lines.
pub fn fill_lines<R: Threads + Clock + Sync>(rt: &R, alloc: Global) -> anyhow::Result<usize> {
    let mut behaviours: Vec<Box<dyn Behaviour + Send>> = Vec::new(alloc);
    for place in 0..INSTANCES {
        behaviours.push(Box::new(alloc, filler(alloc, place)?)?)?;
    }
    let ran = run_board(
        rt,
        alloc,
        SLOTS,
        behaviours,
        TURNS,
        &OthersFirst { clock: rt },
    )?;
    if !are_full(&ran.gathered) {
        bail!("a line isn't full");
    }
    for trace in ran.traces.iter() {
        if !ended_with_its_line(trace) {
            bail!("a send or a receive wasn't refused");
        }
    }
    Ok(ran.gathered.chart.lines().len())
}
