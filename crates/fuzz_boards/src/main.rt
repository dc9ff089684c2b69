//! Wild runs: behaviours do random acts, each behaviour on a thread of its own. A partner may be the instance itself,
//! or an instance that the board doesn't have. Each run is audited. On each lane the sent messages are the received
//! ones, followed by those that are left.
//!
//! Without words it makes runs among 3, 8 and 32 instances, and one that fills the lines of 8. It then prints only what
//! doesn't depend on the scheduling of threads. With the words `INSTANCES SLOTS SEED RUNS` it makes `RUNS` runs over
//! lanes with `SLOTS` slots, from this seed on. It then prints how many messages were passed. It stops at the first run
//! that fails.
#![tactic(auto)]

mod acts;
mod fillers;
mod full_lines;
mod gates;
mod lanes;
mod ledger;
mod passing;
mod random_acts;
mod running;
mod wild;

use anyhow::bail;
use full_lines::fill_lines;
use running::{Runs, run_all};
use std::convert::AsStr;
use std::env;
use std::thread::Threads;
use std::time::Clock;

/// Makes these runs, and prints how many were accepted.
fn print_runs<R: Threads + Print + AllocGlobal + Sync>(rt: &R, runs: Runs) -> anyhow::Result<()> {
    run_all(rt, rt.alloc(), runs)?;
    let Runs {
        instances,
        many,
        ..
    } = runs;
    println!(rt;
        "{many} runs of {instances} instances: accepted, and what was sent was received or is left"
    )?;
    Ok(())
}

/// Makes all runs that need no words, and prints a line for each kind.
fn print_all<R: Threads + Clock + Print + AllocGlobal + Sync>(rt: &R) -> anyhow::Result<()> {
    for (instances, many) in [(3, 200), (8, 20), (32, 20)] {
        print_runs(
            rt,
            Runs {
                instances,
                slots: 2,
                seed: 0,
                many,
            },
        )?;
    }
    let lines = fill_lines(rt, rt.alloc())?;
    println!(rt; "{lines} full lines: accepted, and what comes then is refused")?;
    Ok(())
}

/// Makes these runs, and prints how many messages were passed.
fn count<R: Threads + Print + AllocGlobal + Sync>(rt: &R, runs: Runs) -> anyhow::Result<()> {
    let passed = run_all(rt, rt.alloc(), runs)?;
    let Runs { many, .. } = runs;
    println!(rt;
        "{many} runs, {} messages sent, {} received, {} left",
        passed.sent, passed.received, passed.left
    )?;
    Ok(())
}

fn main(rt: HostRuntime) -> anyhow::Result<()> {
    let words: Vec<String> = env::args(&rt)?.collect(rt.alloc())?;
    match words.as_slice() {
        [_] => print_all(&rt),
        [_, instances, slots, seed, many] => {
            let runs = Runs {
                instances: instances.as_str().parse::<usize>()?,
                slots: slots.as_str().parse::<usize>()?,
                seed: seed.as_str().parse::<u64>()?,
                many: many.as_str().parse::<u64>()?,
            };
            count(&rt, runs)
        }
        _ => bail!("the words are none, or INSTANCES SLOTS SEED RUNS"),
    }
}
