//! The race pairs of a chart that count.
ghost use Rattle.std.specs.Prelude.{◌≡◌, ◌++◌, [], length, map, false, IfOk, OnOk};
ghost use Rattle.std.specs.List.{list_any};
ghost use Rattle.chart.specs.Charts.{chart_lines, IsPossible};
ghost use Rattle.chart.specs.Reports.{AreReports};
ghost use Rattle.repair.specs.Best.{HasPairs};
ghost use Rattle.repair.specs.Counted.{luck_of, lucky_events, lucky_report, AreCounted};
ghost use Rattle.repair.specs.Marks.{is_at, AreMarks};

use crate::marks::marked;
use crate::pairs::count_pairs;
use chart::{Chart, EventNo, InstanceNo, Report};
use shown_races::{Showing, shown_reports};
use std::alloc::{AllocError, Global};
use std::marker::Model;

/// Which races of a chart count: those that are shown, or only those of them that were luck. A contract sees the lists.
#[derive(Debug, Drop)]
pub struct Counted {
    /// The races that are shown.
    pub showing: Showing,
    /// Whether only races that were luck count.
    pub only_luck: bool,
    /// The races that were luck, by their numbers in the chart.
    pub luck: Vec<Report>,
}

impl Model for Counted {
    ghost use Rattle.repair.specs.Counted.{CountedView};

    ghost Value = { CountedView };

    ghost view = { λ c. record { showing = c.showing; only_luck = c.only_luck; luck = c.luck.items } };
}

impl Counted {
    /// All races that are shown.
    pub fn shown(alloc: Global, showing: Showing) -> Counted
        ensures { result ≡ record { showing = showing; only_luck = false; luck = [] } }
    {
        Counted {
            showing,
            only_luck: false,
            luck: Vec::new(alloc),
        }
    }
}

fn is_at(event: &EventNo, instance: InstanceNo, index: u32) -> bool
    ensures { result ≡ is_at instance index event.now }
{
    event.instance == instance && event.index == index
}

fn one_is_at(events: &[EventNo], instance: InstanceNo, index: u32) -> bool
    ensures { result ≡ list_any (is_at instance index) events.now }
{
    events.iter().any(|event| is_at(event, instance, index))
}

/// The same where the numbers of an instance's events among them are marked.
fn one_is_marked(
    marks: &[bool],
    marked: InstanceNo,
    events: &[EventNo],
    instance: InstanceNo,
    index: u32,
) -> bool
    requires { AreMarks marked events.now marks.now }
    ensures { result ≡ list_any (is_at instance index) events.now }
{
    let place = index as usize;
    if instance == marked && place < marks.len() {
        return marks[place];
    }
    one_is_at(events, instance, index)
}

fn add_luck(
    alloc: Global,
    events: &mut Vec<EventNo>,
    receive: &EventNo,
    report: &Report,
) -> Result<(), AllocError>
    ensures { OnOk result (events.new.items ≡ events.old.items ++ luck_of receive.now report.now) }
{
    if !is_at(&report.receive(), receive.instance, receive.index) {
        return Ok(());
    }
    let earlier = report.earlier().listed(alloc)?;
    for event in earlier.as_slice() {
        events.push(*event)?;
    }
    Ok(())
}

/// The events that were earlier than the receive by luck.
fn lucky_events(
    alloc: Global,
    luck: &[Report],
    receive: &EventNo,
) -> Result<Vec<EventNo>, AllocError>
    ensures { IfOk result (λ events. events.items ≡ lucky_events luck.now receive.now) }
{
    let mut events = Vec::new(alloc);
    for report in luck {
        add_luck(alloc, &mut events, receive, report)?;
    }
    Ok(events)
}

/// The report with only the races that were luck.
fn lucky_report(alloc: Global, luck: &[Report], report: &Report) -> Result<Report, AllocError>
    ensures { IfOk result (λ lucky. lucky ≡ lucky_report luck.now report.now) }
{
    let receive = report.receive();
    let events = lucky_events(alloc, luck, &receive)?;
    let marks = marked(alloc, receive.instance, events.as_slice())?;
    let earlier = report.earlier().listed(alloc)?;
    let mut kept = Vec::new(alloc);
    for event in earlier.as_slice() {
        if one_is_marked(
            marks.as_slice(),
            receive.instance,
            events.as_slice(),
            event.instance,
            event.index,
        ) {
            kept.push(*event)?;
        }
    }
    Report::of(alloc, receive, kept.as_slice())
}

fn lucky_reports(
    alloc: Global,
    luck: &[Report],
    reports: &[Report],
) -> Result<Vec<Report>, AllocError>
    ensures { IfOk result (λ lucky. lucky.items ≡ map (lucky_report luck.now) reports.now) }
{
    let mut lucky = Vec::new(alloc);
    for report in reports {
        lucky.push(lucky_report(alloc, luck, report)?)?;
    }
    Ok(lucky)
}

/// The reports of a possible chart with only the races that count. `reports` are those with all races.
pub(crate) fn counted_reports(
    alloc: Global,
    chart: &Chart,
    counted: &Counted,
    reports: Vec<Report>,
) -> Result<Vec<Report>, AllocError>
    requires possible { IsPossible (length chart.now) (chart_lines chart.now) }
    requires reports { AreReports chart.now reports.items }
    ensures { IfOk result (λ those. AreCounted counted.now chart.now those.items) }
{
    let shown = shown_reports(alloc, chart, counted.showing, reports)?;
    if !counted.only_luck {
        return Ok(shown);
    }
    let lucky = lucky_reports(alloc, counted.luck.as_slice(), shown.as_slice())?;
    Ok(lucky)
}

/// How many race pairs of a possible chart with these reports count.
pub(crate) fn count_counted(
    alloc: Global,
    chart: &Chart,
    counted: &Counted,
    reports: Vec<Report>,
) -> Result<usize, AllocError>
    requires possible { IsPossible (length chart.now) (chart_lines chart.now) }
    requires reports { AreReports chart.now reports.items }
    ensures { IfOk result (HasPairs counted.now chart.now) }
{
    let those = counted_reports(alloc, chart, counted, reports)?;
    // (a call states what each chart keeps)
    let _ = chart.lines();
    Ok(count_pairs(those.as_slice()))
}
