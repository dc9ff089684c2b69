//! Measures what it costs to read the text of a chart, to search the chart and to write it again.
ghost use Rattle.std.specs.Prelude.{◌≡◌, length, IfOk};

use crate::patterns::{Pattern, write_chart};
use crate::timing::{median, nanoseconds_since};
use anyhow::bail;
use chart::{Chart, Names, Report};
use closure::Closure;
use msc_text::reader::read;
use msc_text::write;
use std::alloc::Global;
use std::io;
use std::time::{Clock, Instant};
use texts::StreamOut;

/// How often each of these is timed. The median is printed.
const REPETITIONS: usize = 5;

/// The names and the chart in a text.
fn chart_in(alloc: Global, text: &[u8]) -> anyhow::Result<(Names, Chart)>
    ensures { IfOk result (λ read. length read.0 ≡ length read.1) }
{
    match read(alloc, text) {
        Ok(read) => Ok(read),
        Err(_) => bail!("the file has no chart's text"),
    }
}

/// The number of races in these reports.
fn races_of(reports: &[Report]) -> usize {
    let mut races = 0usize;
    for report in reports {
        races = races.saturating_add(report.earlier().len());
    }
    races
}

/// The number of races of the chart.
fn races_in(alloc: Global, chart: &Chart) -> anyhow::Result<usize> {
    let Ok(closure) = Closure::of(alloc, chart) else {
        bail!("the chart isn't possible");
    };
    let reports = closure.races()?;
    Ok(races_of(reports.as_slice()))
}

/// The nanoseconds of reading the text once.
fn read_once<R: Clock + AllocGlobal>(rt: &R, text: &[u8]) -> anyhow::Result<u64> {
    let start = Instant::now(rt)?;
    let _read = chart_in(rt.alloc(), text)?;
    nanoseconds_since(rt, &start)
}

/// The microseconds of reading the text: the median of several times.
fn time_reading<R: Clock + AllocGlobal>(rt: &R, text: &[u8]) -> anyhow::Result<u64> {
    let mut took = [0u64; REPETITIONS];
    for place in 0..REPETITIONS {
        took[place] = read_once(rt, text)?;
    }
    Ok(median(took.as_mut_slice()) / 1000)
}

/// The nanoseconds of searching the chart once.
fn search_once<R: Clock + AllocGlobal>(rt: &R, chart: &Chart) -> anyhow::Result<u64> {
    let start = Instant::now(rt)?;
    let _races = races_in(rt.alloc(), chart)?;
    nanoseconds_since(rt, &start)
}

/// The microseconds of searching the chart: the median of several times.
fn time_searching<R: Clock + AllocGlobal>(rt: &R, chart: &Chart) -> anyhow::Result<u64> {
    let mut took = [0u64; REPETITIONS];
    for place in 0..REPETITIONS {
        took[place] = search_once(rt, chart)?;
    }
    Ok(median(took.as_mut_slice()) / 1000)
}

/// Writes the text of the chart to standard output. It returns whether the text was written.
fn is_written<R: Print>(rt: &R, names: &Names, chart: &Chart) -> bool
    requires { length names.now ≡ length chart.now }
{
    let mut out = StreamOut::new(io::writer(rt));
    write(names, chart, &mut out).is_ok()
}

/// The nanoseconds of writing the chart's text to standard output once.
fn write_once<R: Clock + Print>(rt: &R, names: &Names, chart: &Chart) -> anyhow::Result<u64>
    requires { length names.now ≡ length chart.now }
{
    let start = Instant::now(rt)?;
    if !is_written(rt, names, chart) {
        bail!("the chart could not be written");
    }
    nanoseconds_since(rt, &start)
}

/// The microseconds of writing the chart's text to standard output: the median of several times.
fn time_writing<R: Clock + Print>(rt: &R, names: &Names, chart: &Chart) -> anyhow::Result<u64>
    requires { length names.now ≡ length chart.now }
{
    let mut took = [0u64; REPETITIONS];
    for place in 0..REPETITIONS {
        took[place] = write_once(rt, names, chart)?;
    }
    Ok(median(took.as_mut_slice()) / 1000)
}

/// Writes the chart with this traffic to standard output.
pub fn make_chart<R: Print>(rt: &R, pattern: Pattern) -> anyhow::Result<()> {
    let mut out = StreamOut::new(io::writer(rt));
    if write_chart(pattern, &mut out).is_err() {
        bail!("the chart could not be written");
    }
    Ok(())
}

/// Prints the times on standard error, and writes the text to standard output.
fn print_times<R: Clock + AllocGlobal + Print + Eprint>(
    rt: &R,
    text: &[u8],
    names: &Names,
    chart: &Chart,
) -> anyhow::Result<()>
    requires { length names.now ≡ length chart.now }
{
    let reading = time_reading(rt, text)?;
    let searching = time_searching(rt, chart)?;
    let writing = time_writing(rt, names, chart)?;
    eprintln!(rt; "read {reading}, searched {searching}, written {writing} microseconds")?;
    Ok(())
}

/// Prints the number of races.
fn print_races<R: AllocGlobal + Print>(rt: &R, chart: &Chart) -> anyhow::Result<()> {
    let instances = chart.lines().len();
    let races = races_in(rt.alloc(), chart)?;
    println!(rt; "{instances} instances, {races} races")?;
    Ok(())
}

/// Prints the times and writes the text, or else prints the number of races.
pub fn print_charts<R: Clock + AllocGlobal + Print + Eprint>(
    rt: &R,
    text: &[u8],
    timed: bool,
) -> anyhow::Result<()> {
    let (names, chart) = chart_in(rt.alloc(), text)?;
    if timed {
        print_times(rt, text, &names, &chart)
    } else {
        print_races(rt, &chart)
    }
}
