//! Measures what parts of the library cost: recorders, messages on threads, replays, and the reading, searching and
//! writing of a chart. With a word that asks for times it prints them. Without it, it prints what it would time, which
//! doesn't depend on the machine.
//!
//! - `recorders` and `threads`, optionally followed by `time`: recorders on short and on long lines, and messages that
//!   behaviours and posts pass.
//! - `replays FILE`, optionally followed by `time NUMBER`: this number of replays of a schedule.
//! - `charts FILE`, optionally followed by `time`: the text of a chart, which `time` also writes to standard output.
//! - `make token`, `make mixed` and `make bursts`: the text of a large chart with this traffic is written.
//! - `all CHART SCHEDULE`: it prints what each of the first four would time.
#![tactic(auto)]

mod by_behaviours;
mod by_posts;
mod charts;
mod load;
mod pair;
mod patient_script;
mod patterns;
mod recorders;
mod replays;
mod threads;
mod timing;

use anyhow::bail;
use charts::{make_chart, print_charts};
use patterns::pattern_in;
use recorders::print_recorders;
use replays::print_replays;
use std::convert::AsStr;
use std::rt::{Env, Files};
use std::thread::Threads;
use std::time::Clock;
use std::{env, fs};
use threads::print_threads;

/// Whether times are requested, by the single word `time`.
fn is_timed(words: &[String]) -> anyhow::Result<bool> {
    match words {
        [] => Ok(false),
        [word] if word.as_str() == "time" => Ok(true),
        _ => bail!("behind it may stand the word time"),
    }
}

/// How many replays are timed, if times are requested.
fn times_in(words: &[String]) -> anyhow::Result<Option<u32>> {
    match words {
        [] => Ok(None),
        [word, times] if word.as_str() == "time" => Ok(Some(times.as_str().parse::<u32>()?)),
        _ => bail!("behind the file may stand time NUMBER"),
    }
}

/// Prints the times or the counts of replays of the schedule in a file.
fn replays_of<R: Clock + AllocGlobal + Print + Eprint + Files>(
    rt: &R,
    file: &str,
    times: Option<u32>,
) -> anyhow::Result<()> {
    let text = fs::read(rt, file)?;
    print_replays(rt, text.as_slice(), times)
}

/// Prints the times or the races of the chart in a file.
fn charts_of<R: Clock + AllocGlobal + Print + Eprint + Files>(
    rt: &R,
    file: &str,
    timed: bool,
) -> anyhow::Result<()> {
    let text = fs::read(rt, file)?;
    print_charts(rt, text.as_slice(), timed)
}

/// Writes the chart with the traffic that has this name.
fn make_named<R: Print>(rt: &R, name: &str) -> anyhow::Result<()> {
    match pattern_in(name) {
        Some(pattern) => make_chart(rt, pattern),
        None => bail!("the traffic is token, mixed or bursts"),
    }
}

/// Prints what each of the four would time.
fn print_all<R: Threads + Sync + Clock + AllocGlobal + Print + Eprint>(
    rt: &R,
    chart: &[u8],
    schedule: &[u8],
) -> anyhow::Result<()> {
    print_recorders(rt, false)?;
    print_threads(rt, false)?;
    print_replays(rt, schedule, None)?;
    print_charts(rt, chart, false)
}

/// The same for a chart and a schedule in files.
fn all<R: Threads + Sync + Clock + AllocGlobal + Print + Eprint + Files>(
    rt: &R,
    chart: &str,
    schedule: &str,
) -> anyhow::Result<()> {
    let chart = fs::read(rt, chart)?;
    let schedule = fs::read(rt, schedule)?;
    print_all(rt, chart.as_slice(), schedule.as_slice())
}

/// Executes the command in these words.
fn print_group<R: Threads + Sync + Clock + AllocGlobal + Print + Eprint + Files>(
    rt: &R,
    words: &[String],
) -> anyhow::Result<()> {
    match words {
        [_, word, rest @ ..] if word.as_str() == "recorders" => {
            print_recorders(rt, is_timed(rest)?)
        }
        [_, word, rest @ ..] if word.as_str() == "threads" => print_threads(rt, is_timed(rest)?),
        [_, word, file, rest @ ..] if word.as_str() == "replays" => {
            replays_of(rt, file.as_str(), times_in(rest)?)
        }
        [_, word, file, rest @ ..] if word.as_str() == "charts" => {
            charts_of(rt, file.as_str(), is_timed(rest)?)
        }
        [_, word, name] if word.as_str() == "make" => make_named(rt, name.as_str()),
        [_, word, chart, schedule] if word.as_str() == "all" => {
            all(rt, chart.as_str(), schedule.as_str())
        }
        _ => bail!("the words are recorders, threads, replays, charts, make or all"),
    }
}

fn main(rt: HostRuntime) -> anyhow::Result<()> {
    let words: Vec<String> = env::args(&rt)?.collect(rt.alloc())?;
    print_group(&rt, words.as_slice())
}
