//! Runs of boards on threads, with their audits.
ghost use Rattle.std.specs.Prelude.{IfOk};
ghost use Rattle.instances.specs.Laws.{IsAccepted};

use anyhow::bail;
use behaviour::Behaviour;
use board::{Board, Gathered};
use closure::audit;
use instances::{End, Gate, Run, run};
use std::alloc::Global;
use std::thread::Threads;

/// The numbers of messages that were passed.
#[derive(Clone, Copy, Debug)]
pub struct Passed {
    pub sent: usize,
    pub received: usize,
    pub left: usize,
}

impl Passed {
    /// The numbers for a run, from its lines, its reports and the messages that are left on its lanes.
    pub fn of(gathered: &Gathered) -> Passed {
        let mut events = 0usize;
        for line in gathered.chart.lines() {
            events = events.saturating_add(line.len());
        }
        let mut left = 0usize;
        for lane in gathered.left.iter() {
            left = left.saturating_add(lane.messages.len());
        }
        let received = gathered.reports.len();
        let sent = events.saturating_sub(received);
        Passed {
            sent,
            received,
            left,
        }
    }

    /// The sums of both.
    pub fn joined(self, other: Passed) -> Passed {
        Passed {
            sent: self.sent.saturating_add(other.sent),
            received: self.received.saturating_add(other.received),
            left: self.left.saturating_add(other.left),
        }
    }
}

/// The run, if an audit accepts its chart and its reports, and each of its instances has stopped.
fn audited(alloc: Global, ran: Run) -> anyhow::Result<Run>
    ensures { IfOk result (λ ran. IsAccepted ran.gathered) }
{
    for end in ran.ends.iter() {
        if *end != End::Stopped {
            bail!("an instance didn't stop");
        }
    }
    match audit(alloc, &ran.gathered.chart, ran.gathered.reports.as_slice()) {
        Ok(()) => Ok(ran),
        Err(_) => bail!("the audit doesn't accept it"),
    }
}

/// Runs these behaviours on a board with this number of slots on each lane, for at most this number of turns.
pub fn run_board<R: Threads + Sync, G: Gate + Sync>(
    rt: &R,
    alloc: Global,
    slots: usize,
    behaviours: Vec<Box<dyn Behaviour + Send>>,
    turns: u32,
    gate: &G,
) -> anyhow::Result<Run> {
    let mut board = Board::new(alloc, behaviours.len(), slots)?;
    let posts = board.posts()?;
    match run(rt, posts, behaviours, turns, gate) {
        Ok(ran) => audited(alloc, ran),
        Err(_) => bail!("it wasn't run"),
    }
}
