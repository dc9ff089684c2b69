//! Measures what messages between threads cost if behaviours pass them, beside the same messages passed by posts alone.
use crate::by_behaviours::time_behaviours;
use crate::by_posts::time_posts;
use crate::load::{Load, Pattern};
use crate::timing::median;
use chart::MAX_EVENTS;
use std::thread::Threads;
use std::time::Clock;

/// The number of runs of each kind. Their median is printed.
const RUNS: usize = 15;

/// The number of rounds that are passed if nothing is timed.
const FEW: usize = 16;

const PATTERNS: [Pattern; 3] = [Pattern::OneWay, Pattern::ToAndFro, Pattern::AllToAll];

const INSTANCES: [usize; 3] = [2, 4, 8];

const CAPACITIES: [usize; 3] = [1, 8, 64];

/// The number of loads: each pattern, with each number of instances and of slots.
const LOADS: usize = 27;

/// The load with this number, from 0: one of three patterns, of three numbers of instances, and of three numbers of
/// slots.
fn load_at(number: usize) -> Load {
    Load {
        pattern: PATTERNS[number / 9 % 3],
        instances: INSTANCES[number / 3 % 3],
        capacity: CAPACITIES[number % 3],
        most: MAX_EVENTS,
    }
}

/// How many a second, if this many took this number of nanoseconds.
fn per_second(many: usize, took: u64) -> u64 {
    (many as u64).saturating_mul(1_000_000_000) / took.max(1)
}

/// Prints how many messages and events are passed in a second, by behaviours and by posts in turn.
fn print_times<R: Threads + Sync + Clock + AllocGlobal + Print>(
    rt: &R,
    load: Load,
) -> anyhow::Result<()> {
    let mut by_behaviours = [0u64; RUNS];
    let mut by_posts = [0u64; RUNS];
    for place in 0..RUNS {
        by_behaviours[place] = time_behaviours(rt, rt.alloc(), load)?;
        by_posts[place] = time_posts(rt, rt.alloc(), load)?;
    }
    let run = median(by_behaviours.as_mut_slice());
    let posts = median(by_posts.as_mut_slice());
    let run_messages = per_second(load.messages(), run);
    let run_events = per_second(load.events(), run);
    let post_messages = per_second(load.messages(), posts);
    let post_events = per_second(load.events(), posts);
    println!(rt; "{load},{run_messages},{run_events},{post_messages},{post_events}")?;
    Ok(())
}

/// Passes some of the messages once in each way, and prints how many would be timed.
fn print_messages<R: Threads + Sync + Clock + AllocGlobal + Print>(
    rt: &R,
    load: Load,
) -> anyhow::Result<()> {
    let few = Load { most: FEW, ..load };
    let _run = time_behaviours(rt, rt.alloc(), few)?;
    let _posts = time_posts(rt, rt.alloc(), few)?;
    println!(rt; "{load}")?;
    Ok(())
}

/// Prints the results of each pattern among few and several instances, on lanes with few and with many slots.
pub fn print_threads<R: Threads + Sync + Clock + AllocGlobal + Print>(
    rt: &R,
    timed: bool,
) -> anyhow::Result<()> {
    if timed {
        println!(rt;
            "pattern,instances,capacity,messages,events,run messages/s,run events/s,posts messages/s,posts events/s"
        )?;
    } else {
        println!(rt; "pattern,instances,capacity,messages,events")?;
    }
    for number in 0..LOADS {
        if timed {
            print_times(rt, load_at(number))?;
        } else {
            print_messages(rt, load_at(number))?;
        }
    }
    Ok(())
}
