//! Measures what a send and a receive with its report cost, on short and on long lines.
ghost use Rattle.chart.specs.declared.instance.TheConstants.{MAX_INSTANCES};
ghost use Rattle.bench_library.specs.Partners.{ArePartners};
ghost use Rattle.std.specs.Prelude.{◌≤◌};

use crate::pair::{Pattern, exchange, partners};
use crate::timing::{median, nanoseconds_since};
use anyhow::bail;
use chart::Name;
use clock::INLINE_ENTRIES;
use line_recorder::Recorder;
use std::time::{Clock, Instant};

/// The numbers of events of short and of long lines.
const SHORT: usize = 64;

const LONG: usize = 4000;

/// The number of messages that are timed on each pair of lines. One more message precedes them, since it makes a line
/// of 64 events grow.
const TIMED: usize = 63;

/// The number of fresh pairs of lines in a repetition.
const FRESH: usize = 64;

/// The number of repetitions. Their median is printed.
const REPETITIONS: usize = 15;

/// The messages that are timed: their directions, and the number of instances.
#[derive(Clone, Copy)]
struct Load {
    pattern: Pattern,
    instances: usize,
}

/// The nanoseconds of the timed messages between these two. Each line has this number of events, and one more, before
/// them.
fn time_messages<R: Clock>(
    rt: &R,
    first: &mut Recorder,
    second: &mut Recorder,
    pattern: Pattern,
    events: usize,
) -> anyhow::Result<u64>
    requires { ArePartners first.old second.old }
{
    let name = Name::new(b"ping")?;
    let before = exchange(first, second, pattern, events.saturating_add(1), name)?;
    let start = Instant::now(rt)?;
    let after = exchange(first, second, pattern, TIMED, name)?;
    let took = nanoseconds_since(rt, &start)?;
    if before > 0 || after > 0 {
        bail!("a report has races");
    }
    Ok(took)
}

/// The nanoseconds of the timed messages on two fresh lines. Each line has this number of events, and one more, before
/// them.
fn time_pair<R: Clock + AllocGlobal>(rt: &R, load: Load, events: usize) -> anyhow::Result<u64>
    requires at_least_two { 2 ≤ load.instances }
    requires at_most { load.instances ≤ MAX_INSTANCES }
{
    let (mut first, mut second) = partners(rt.alloc(), load.instances)?;
    time_messages(rt, &mut first, &mut second, load.pattern, events)
}

/// The total nanoseconds of the timed messages on all fresh lines. Each line has this number of events, and one more,
/// before them.
fn repetition<R: Clock + AllocGlobal>(rt: &R, load: Load, events: usize) -> anyhow::Result<u64>
    requires at_least_two { 2 ≤ load.instances }
    requires at_most { load.instances ≤ MAX_INSTANCES }
{
    let mut nanoseconds = 0u64;
    for _ in 0..FRESH {
        nanoseconds = nanoseconds.saturating_add(time_pair(rt, load, events)?);
    }
    Ok(nanoseconds)
}

/// Prints what a message costs on short lines and on long lines, which are timed in turn.
fn print_times<R: Clock + AllocGlobal + Print>(rt: &R, load: Load) -> anyhow::Result<()>
    requires at_least_two { 2 ≤ load.instances }
    requires at_most { load.instances ≤ MAX_INSTANCES }
{
    let mut on_short = [0u64; REPETITIONS];
    let mut on_long = [0u64; REPETITIONS];
    for place in 0..REPETITIONS {
        on_short[place] = repetition(rt, load, SHORT)?;
        on_long[place] = repetition(rt, load, LONG)?;
    }
    let messages = (FRESH * TIMED) as u64;
    let short = median(on_short.as_mut_slice()) / messages;
    let long = median(on_long.as_mut_slice()) / messages;
    let percent = long.saturating_mul(100) / short.max(1);
    let Load { pattern, instances } = load;
    println!(rt;
        "{pattern}, {instances} instances: {short} ns a message on a line of {SHORT} events, {long} ns on one of {LONG}: {percent} %"
    )?;
    Ok(())
}

/// Passes the messages once, and prints how many would be timed.
fn print_messages<R: Clock + AllocGlobal + Print>(rt: &R, load: Load) -> anyhow::Result<()>
    requires at_least_two { 2 ≤ load.instances }
    requires at_most { load.instances ≤ MAX_INSTANCES }
{
    let _short = repetition(rt, load, SHORT)?;
    let _long = repetition(rt, load, LONG)?;
    let messages = FRESH * TIMED;
    let Load { pattern, instances } = load;
    println!(rt;
        "{pattern}, {instances} instances: {messages} messages each on lines of {SHORT} and of {LONG} events, without races"
    )?;
    Ok(())
}

/// Prints the results of both patterns among this number of instances.
fn print_among<R: Clock + AllocGlobal + Print>(
    rt: &R,
    timed: bool,
    instances: usize,
) -> anyhow::Result<()>
    requires at_least_two { 2 ≤ instances }
    requires at_most { instances ≤ MAX_INSTANCES }
{
    for pattern in [Pattern::OneWay, Pattern::Replies] {
        let load = Load { pattern, instances };
        if timed {
            print_times(rt, load)?;
        } else {
            print_messages(rt, load)?;
        }
    }
    Ok(())
}

/// Prints the results of recorders among two instances, among as many as a clock stores without memory, and among one
/// more.
pub fn print_recorders<R: Clock + AllocGlobal + Print>(rt: &R, timed: bool) -> anyhow::Result<()> {
    print_among(rt, timed, 2)?;
    print_among(rt, timed, INLINE_ENTRIES)?;
    print_among(rt, timed, INLINE_ENTRIES + 1)
}
