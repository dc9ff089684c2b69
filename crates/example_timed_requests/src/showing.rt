//! The output of the program.
ghost use Rattle.instances.specs.Laws.{IsAccepted};

use crate::parties::{client, logger, server};
use anyhow::bail;
use board::Gathered;
use chart::{Chart, InstanceNo, Name, Names};
use msc_text::{add_chart, add_races};
use std::alloc::Global;
use std::io;
use texts::{StreamOut, TextBuffer, WriteError};

/// The names of the three, in the order of their instances.
fn names(alloc: Global) -> anyhow::Result<Names> {
    let mut names = Names::new(alloc);
    for name in [b"client", b"server", b"logger"] {
        names.add(Name::new(name)?)?;
    }
    Ok(names)
}

/// Prints the chart, and a line for each race.
pub fn show<R: Print + AllocGlobal>(rt: &R, gathered: &Gathered) -> anyhow::Result<()>
    requires { IsAccepted gathered.now }
{
    let names = names(rt.alloc())?;
    if names.len() != gathered.chart.lines().len() {
        bail!("a board of three has three lines");
    }
    let mut out = StreamOut::new(io::writer(rt));
    let mut text = TextBuffer::new(&mut out);
    add_chart(&mut text, &names, &gathered.chart)?;
    add_races(&mut text, &names, gathered.reports.as_slice())?;
    text.finish()?;
    Ok(())
}

/// The number of messages from an instance that the logger received.
fn got_from(chart: &Chart, sender: InstanceNo) -> usize {
    let mut many = 0usize;
    for line in chart.lines() {
        if line.instance() == logger() {
            for event in line.events() {
                if event.is_receive_from(sender) {
                    many = many.saturating_add(1);
                }
            }
        }
    }
    many
}

/// Checks and prints what doesn't depend on the scheduling of threads. The logger sends nothing. So for each message of
/// the client and each message of the server, the logger could have received the two in the other order.
pub fn check<R: Print>(rt: &R, gathered: &Gathered) -> anyhow::Result<()> {
    let mut races = 0usize;
    for report in gathered.reports.iter() {
        if report.receive().instance == logger() {
            races = races.saturating_add(report.earlier().len());
        }
    }
    let pairs = got_from(&gathered.chart, client()).saturating_mul(got_from(
        &gathered.chart,
        server(),
    ));
    if races != pairs {
        bail!("{races} races of {pairs} pairs of messages");
    }
    println!(rt; "the logger's 2 senders race, each message with each of the other's")?;
    Ok(())
}
