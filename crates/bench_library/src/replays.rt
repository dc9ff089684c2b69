//! Measures what it costs to replay a schedule.
use crate::load::events_of;
use crate::timing::{median, nanoseconds_since};
use anyhow::bail;
use schedule::Schedule;
use schedule_replay::replay;
use std::alloc::Global;
use std::time::{Clock, Instant};

/// How often the replays are timed. The median is printed.
const REPETITIONS: usize = 5;

fn schedule_in(alloc: Global, text: &[u8]) -> anyhow::Result<Schedule> {
    match Schedule::read(alloc, text) {
        Ok(schedule) => Ok(schedule),
        Err(_) => bail!("the file has no schedule's text"),
    }
}

/// The nanoseconds of this number of replays, timed once.
fn time_once<R: Clock + AllocGlobal>(
    rt: &R,
    schedule: &Schedule,
    times: u32,
) -> anyhow::Result<u64> {
    let start = Instant::now(rt)?;
    for _ in 0..times {
        replay(rt.alloc(), schedule)?;
    }
    nanoseconds_since(rt, &start)
}

/// The microseconds of this number of replays: the median of several times.
fn time<R: Clock + AllocGlobal>(rt: &R, schedule: &Schedule, times: u32) -> anyhow::Result<u64> {
    let mut took = [0u64; REPETITIONS];
    for place in 0..REPETITIONS {
        took[place] = time_once(rt, schedule, times)?;
    }
    Ok(median(took.as_mut_slice()) / 1000)
}

/// Prints on standard error how long this number of replays takes.
fn print_times<R: Clock + AllocGlobal + Eprint>(
    rt: &R,
    schedule: &Schedule,
    times: u32,
) -> anyhow::Result<()> {
    let took = time(rt, schedule, times)?;
    eprintln!(rt; "{took} microseconds")?;
    Ok(())
}

/// Prints how many events and notes the outcome of the schedule has.
fn print_counts<R: AllocGlobal + Print>(rt: &R, schedule: &Schedule) -> anyhow::Result<()> {
    let outcome = replay(rt.alloc(), schedule)?;
    let events = events_of(outcome.chart());
    let notes = outcome.notes().len();
    println!(rt; "a replay: {events} events and {notes} notes")?;
    Ok(())
}

/// Prints how long this number of replays takes, or else the counts of the outcome.
pub fn print_replays<R: Clock + AllocGlobal + Print + Eprint>(
    rt: &R,
    text: &[u8],
    times: Option<u32>,
) -> anyhow::Result<()> {
    let schedule = schedule_in(rt.alloc(), text)?;
    match times {
        Some(times) => print_times(rt, &schedule, times),
        None => print_counts(rt, &schedule),
    }
}
