//! A schedule on threads.
use anyhow::bail;
use behaviour::Behaviour;
use board::Board;
use instances::{End, MAX_TURNS, Open, Run, run};
use schedule::Schedule;
use schedule_threads::scripts::scripts;
use std::thread::Threads;

/// Prints a line for each instance that spent its turns, and for each receive.
fn print_run<R: Print>(rt: &R, ran: &Run) -> anyhow::Result<()> {
    for end in ran.ends.iter() {
        if *end == End::TurnsSpent {
            println!(rt; "an instance spent its turns")?;
        }
    }
    for report in ran.gathered.reports.iter() {
        println!(rt; "a receive with {} races", report.earlier().len())?;
    }
    Ok(())
}

/// Runs a schedule: each instance does its own commands, on a thread of its own, in a million turns at most.
pub fn run_schedule<R: Threads + Print + AllocGlobal + Sync>(
    rt: &R,
    text: &[u8],
) -> anyhow::Result<()> {
    let alloc = rt.alloc();
    let schedule = Schedule::read(alloc, text)?;
    let mut behaviours: Vec<Box<dyn Behaviour + Send>> = Vec::new(alloc);
    for script in scripts(alloc, &schedule)? {
        behaviours.push(Box::new(alloc, script)?)?;
    }
    let mut board = Board::new(alloc, schedule.names().len(), schedule.capacity().slots())?;
    let posts = board.posts()?;
    match run(rt, posts, behaviours, MAX_TURNS, &Open) {
        Ok(ran) => print_run(rt, &ran),
        Err(_) => bail!("not run"),
    }
}
