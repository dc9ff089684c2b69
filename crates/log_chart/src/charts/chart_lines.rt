//! The lines of a log's chart.
ghost use Rattle.std.specs.Prelude.{◌≡◌, ◌≢◌, ◌<◌, ◌≤◌, ◌++◌, ◌∷◌, [], length, map, All, IfOk, OnOk};
ghost use Rattle.chart.specs.Charts.{IsLine};
ghost use Rattle.chart.specs.Events.{partner_of, region_of};
ghost use Rattle.chart.specs.declared.instance.TheConstants.{MAX_INSTANCES};
ghost use Rattle.chart.specs.declared.line.TheConstants.{MAX_EVENTS};
ghost use Rattle.log_chart.specs.Charts.ChartLines.{name_at, event_of, chart_from, first_full, AreNamed};
ghost use Rattle.log_chart.specs.Items.{naming_line};

use crate::{Entry, HostLine, Item, MessageNo};
use chart::{Event, InstanceNo, Line, LineError, MAX_EVENTS, Name};
use std::alloc::{AllocError, Global};

fn naming_line(message: MessageNo) -> usize
    ensures { result ≡ naming_line message }
{
    match message {
        MessageNo::Sent(number) => number,
        MessageNo::Begun(number) => number,
    }
}

/// The name in the line of the log with this number.
fn name_at(log: &[Entry], number: usize) -> Name
    requires { number < length log.now }
    ensures { result ≡ name_at log.now number }
{
    log[number].name
}

/// The event of a host.
fn event_of(log: &[Entry], item: &Item) -> Event
    requires { naming_line item.now.message < length log.now }
    ensures value { result ≡ event_of log.now item.now }
    ensures region { region_of result ≡ 0 }
{
    let name = name_at(log, naming_line(item.message));
    if item.sends {
        Event::Send {
            to: item.partner,
            name,
        }
    } else {
        Event::Receive {
            from: item.partner,
            name,
            region: 0,
        }
    }
}

/// Adds one more event to a line that accepts it. It fails only if there is no memory.
fn push(line: &mut Line, event: Event) -> Result<(), AllocError>
    requires region { region_of event ≡ 0 }
    requires apart { partner_of event ≢ line.old.instance }
    requires room { length line.old.events < MAX_EVENTS }
    ensures { OnOk result (line.new ≡ record line.old { events = line.old.events ++ event ∷ [] }) }
{
    match line.push(event) {
        Ok(()) => Ok(()),
        Err(LineError::Memory) => Err(AllocError),
        Err(LineError::ToItself | LineError::LineFull) => unreachable!(),
    }
}

/// The line of a host with these events, which a line accepts. It fails only if there is no memory.
fn line_of(
    alloc: Global,
    log: &[Entry],
    host: InstanceNo,
    items: &[Item],
) -> Result<Line, AllocError>
    requires named { AreNamed (length log.now) items.now }
    requires line { IsLine (record { instance = host; events = map (event_of log.now) items.now }) }
    ensures { IfOk result (λ line. line ≡ record { instance = host; events = map (event_of log.now) items.now }) }
{
    let mut line = Line::new(alloc, host);
    for item in items {
        push(&mut line, event_of(log, item))?;
    }
    Ok(line)
}

/// The lines of the hosts, which are lines of a chart. It fails only if there is no memory.
pub(crate) fn lines_of(
    alloc: Global,
    log: &[Entry],
    lines: &[HostLine],
) -> Result<Vec<Line>, AllocError>
    requires count { length lines.now ≤ MAX_INSTANCES }
    requires named { All (AreNamed (length log.now)) lines.now }
    requires each { All IsLine (chart_from log.now 1 lines.now) }
    ensures { IfOk result (λ made. made.items ≡ chart_from log.now 1 lines.now) }
{
    let mut made = Vec::new(alloc);
    for (place, line) in lines.iter().enumerate() {
        made.push(line_of(alloc, log, InstanceNo::at_place(place), line.as_slice())?)?;
    }
    Ok(made)
}

/// The first instance that has more events than a line holds.
pub(crate) fn first_full(lines: &[HostLine]) -> Option<InstanceNo>
    requires { length lines.now ≤ MAX_INSTANCES }
    ensures { result ≡ first_full 1 lines.now }
{
    for (place, line) in lines.iter().enumerate() {
        if MAX_EVENTS < line.as_slice().len() {
            return Some(InstanceNo::at_place(place));
        }
    }
    None
}
