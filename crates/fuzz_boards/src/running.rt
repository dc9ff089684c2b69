//! Runs of boards whose instances do random acts.
use crate::gates::Together;
use crate::lanes::are_whole;
use crate::ledger::Ledger;
use crate::passing::{Passed, run_board};
use crate::random_acts::{TURNS, acts_of_seed};
use crate::wild::Wild;
use anyhow::{Context, bail};
use behaviour::Behaviour;
use chart::MAX_INSTANCES;
use std::alloc::Global;
use std::sync::Arc;
use std::thread::Threads;

/// A number of runs, among this number of instances, over lanes with this number of slots. The first run has this seed.
#[derive(Clone, Copy, Debug)]
pub struct Runs {
    pub instances: usize,
    pub slots: usize,
    pub seed: u64,
    pub many: u64,
}

/// The instance at the next place in the run with this seed. Its ledger is kept.
fn random_instance(
    alloc: Global,
    ledgers: &mut Vec<Arc<Ledger>>,
    seed: u64,
    instances: usize,
) -> anyhow::Result<Wild> {
    let acts = acts_of_seed(alloc, seed, ledgers.len(), instances)?;
    let ledger = Arc::new(alloc, Ledger::new(alloc)?)?;
    ledgers.push(Arc::try_clone(&ledger)?)?;
    Ok(Wild { acts, ledger })
}

/// The numbers of messages that were passed in the run with this seed, which is accepted.
fn wild_run<R: Threads + Sync>(
    rt: &R,
    alloc: Global,
    runs: Runs,
    seed: u64,
) -> anyhow::Result<Passed> {
    let mut ledgers = Vec::new(alloc);
    let mut behaviours: Vec<Box<dyn Behaviour + Send>> = Vec::new(alloc);
    for _ in 0..runs.instances.min(MAX_INSTANCES) {
        let wild = random_instance(alloc, &mut ledgers, seed, runs.instances)?;
        behaviours.push(Box::new(alloc, wild)?)?;
    }
    let gate = Together::new(behaviours.len());
    let ran = run_board(rt, alloc, runs.slots, behaviours, TURNS, &gate)?;
    if !are_whole(ledgers.as_slice(), ran.gathered.left.as_slice()) {
        bail!("a lane lost or changed a message");
    }
    Ok(Passed::of(&ran.gathered))
}

/// The numbers of messages that were passed in these runs. They stop at the first run that isn't accepted, and the
/// error names its seed.
pub fn run_all<R: Threads + Sync>(rt: &R, alloc: Global, runs: Runs) -> anyhow::Result<Passed> {
    let mut passed = Passed {
        sent: 0,
        received: 0,
        left: 0,
    };
    for number in 0..runs.many {
        let seed = runs.seed.wrapping_add(number);
        let of_run = wild_run(rt, alloc, runs, seed).context(format_args!(
            "in the run of seed {seed}"
        ))?;
        passed = passed.joined(of_run);
    }
    Ok(passed)
}
