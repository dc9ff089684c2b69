//! Verdicts on the races of a recording.
ghost use Rattle.std.specs.Prelude.{ℕ, ◌≡◌, ◌<◌, ◌≤◌, ◌↔◌, length, min, Some, All, IfOk, IsTrue};
ghost use Rattle.chart.specs.Charts.{chart_lines, IsReceiveFrom};
ghost use Rattle.chart.specs.Events.{ith};
ghost use Rattle.chart.specs.Places.{IsEvent};
ghost use Rattle.chart.specs.Ranges.{IsRange, events_of};
ghost use Rattle.closure.specs.Faults.{place_of};
ghost use Rattle.log_chart.specs.Items.{naming_line};
ghost use Rattle.race_verdicts.specs.Luck.Judging.{IsLoggedVerdict};
ghost use Rattle.race_verdicts.specs.Luck.Places.{host_items, items_of};
ghost use Rattle.race_verdicts.specs.Luck.Recorded.{IsRecording, IsSendLine};
ghost use Rattle.race_verdicts.specs.Luck.Runs.{AreAlike};
ghost use Rattle.race_verdicts.specs.Luck.Verdicts.{IsBegun, IsVerdict, IsVerdictRun, OneVerdictLaw};
ghost use Rattle.race_verdicts.specs.Recordings.{recording_view};

use crate::luck::arrivals::Arrivals;
use crate::luck::invented::Beginnings;
use crate::luck::lanes::Lanes;
use crate::luck::lines::takers_of;
use crate::luck::order::Order;
use crate::luck::runs::{Kind, Runs};
use crate::luck::taking::Taking;
use crate::{Recording, Verdict, VerdictRun};
use chart::{EventNo, EventRange};
use closure::Closure;
use log_chart::{HostLine, Item, MessageNo};
use std::alloc::{AllocError, Global};
use std::marker::Model;

/// An event of a host.
fn item_at(hosts: &[HostLine], event: &EventNo) -> Item
    requires begun { 1 ≤ event.now.index }
    requires within { event.now.index ≤ length (host_items hosts.now event.now.instance) }
    ensures { ith (host_items hosts.now event.now.instance) event.now.index ≡ Some result }
{
    let items = hosts[event.instance.place()].as_slice();
    items[event.index as usize - 1]
}

fn smaller_of(first: usize, second: usize) -> usize
    ensures { result ≡ min first second }
{
    first.min(second)
}

/// Decides which races of a recording were luck. Contracts see the chart's lines and the recording.
#[derive(Drop)]
pub struct Judge<'a> {
    recording: Recording<'a>,
    beginnings: Beginnings<'a>,
    order: Order<'a>,
    taking: Taking<'a>,
    arrivals: Arrivals<'a>,
    lanes: Lanes<'a>,
    runs: Runs<'a>,
}

impl<'a> Model for Judge<'a> {
    ghost use Rattle.race_verdicts.specs.Recordings.{recording_view};
    ghost use Rattle.race_verdicts.specs.Luck.Judging.{IsJudge};
    ghost use Rattle.race_verdicts.specs.Luck.Recorded.{JudgeView};

    ghost Value = { JudgeView };

    ghost view = { λ j. j.beginnings };

    ghost invariant = { λ j. IsJudge j.beginnings (recording_view j.recording) j.taking j.arrivals j.lanes j.order
        j.runs };
}

impl<'a> Judge<'a> {
    /// The judge of a log's recording, with the closure of its chart. It keeps one number for each pair of a line and a
    /// host, and one for each event.
    ///
    /// F6: it fails only if there is no memory.
    pub fn of(
        alloc: Global,
        recording: Recording<'a>,
        closure: &'a Closure<'a>,
    ) -> Result<Judge<'a>, AllocError>
        requires { IsRecording closure.now (recording_view recording) }
        ensures { IfOk result (λ judge. judge
            ≡ record { lines = closure.now; recording = recording_view recording.entry }) }
    {
        let hosts = closure.len();
        let beginnings = Beginnings::of(alloc, closure, recording)?;
        let takers = takers_of(alloc, recording.lines)?;
        let arrivals = Arrivals::of(alloc, recording, &takers)?;
        let lanes = Lanes::of(alloc, recording, takers)?;
        let taking = Taking::of(alloc, recording)?;
        let order = Order::of(alloc, hosts, recording.lines)?;
        let runs = Runs::of(alloc, recording.hosts)?;
        Ok(Judge {
            recording,
            beginnings,
            order,
            taking,
            arrivals,
            lanes,
            runs,
        })
    }

    /// The verdict on the receive of a line, whose message is `own`, and a later receive of the message that line
    /// `send` sends.
    fn logged_verdict(&self, line: usize, own: MessageNo, send: usize) -> Verdict
        requires line { line < length self.now.recording.lines }
        requires own { naming_line own < length self.now.recording.lines }
        requires send { IsSendLine self.now.recording.lines send }
        ensures { IsLoggedVerdict self.now.recording line own send result }
    {
        if self.order.is_ahead(line, send) {
            return Verdict::OrderedByLeftOut;
        }
        if !self.taking.would_take(line, send) {
            return Verdict::WouldNotTake;
        }
        if self.arrivals.came_first(MessageNo::Sent(send), own) {
            return Verdict::PassedOver;
        }
        if self
            .lanes
            .is_behind(&self.taking, &self.arrivals, line, own, send)
        {
            return Verdict::BehindAnother;
        }
        Verdict::Luck
    }

    /// The verdict on a receive and an earlier event of its line. It takes no memory, and nearly the same time for each
    /// pair.
    pub fn verdict(&self, receive: EventNo, earlier: EventNo) -> Verdict
        requires receive { (q : ℕ) × IsReceiveFrom (chart_lines self.now.lines) q (place_of receive) }
        requires earlier { IsEvent (chart_lines self.now.lines) (place_of earlier) }
        ensures { IsVerdict self.now.lines self.now.recording (place_of receive) (place_of earlier) result }
    {
        let hosts = self.recording.hosts;
        let item = item_at(hosts, &receive);
        let before = item_at(hosts, &earlier);
        let Some(line) = before.line else {
            return Verdict::BegunInTheMiddle;
        };
        let MessageNo::Sent(send) = item.message else {
            return Verdict::BegunInTheMiddle;
        };
        if self.beginnings.are_before(&receive) {
            return Verdict::BegunInTheMiddle;
        }
        if before.sends {
            return Verdict::EarlierIsSend;
        }
        self.logged_verdict(line, before.message, send)
    }

    /// Whether a receive's send is invented, or an invented send comes before it.
    fn is_begun(&self, receive: &EventNo) -> bool
        requires { (q : ℕ) × IsReceiveFrom (chart_lines self.now.lines) q (place_of receive.now) }
        ensures begun { IsTrue result ↔ IsBegun self.now.lines self.now.recording (place_of receive.now) }
        ensures recording { IsRecording self.now.lines self.now.recording }
    {
        let item = item_at(self.recording.hosts, receive);
        match item.message {
            MessageNo::Begun(_) => true,
            MessageNo::Sent(_) => self.beginnings.are_before(receive),
        }
    }

    /// How many of these neighbouring events are of the kind of the first, from the first on. If the first is a receive
    /// of the log, the number is 1.
    fn alike(&self, earlier: &EventRange) -> usize
        requires range { IsRange earlier.now }
        requires begun { 1 ≤ earlier.now.first.index }
        requires within { earlier.now.first.index ≤ length (items_of self.now.recording earlier.now.first.instance) }
        ensures { AreAlike (items_of self.now.recording earlier.now.first.instance) earlier.now.first.index
            earlier.now.count result }
    {
        let first = item_at(self.recording.hosts, &earlier.first);
        if Kind::of(&first).is(Kind::Receive) {
            return 1;
        }
        let run = self.runs.count(&earlier.first);
        smaller_of(run, earlier.count)
    }

    /// The verdict on a receive and the first of these neighbouring events of its line. It comes with the number of
    /// events that have it, from the first on. If the receive is begun in the middle, all have it. Otherwise these are
    /// the invented ones, the sends of the log, or one receive of the log. It takes no memory, and as much time for
    /// many events as for one.
    pub fn verdict_of_first(&self, receive: EventNo, earlier: EventRange) -> VerdictRun
        requires receive { (q : ℕ) × IsReceiveFrom (chart_lines self.now.lines) q (place_of receive) }
        requires range { IsRange earlier }
        requires earlier { All (λ e. IsEvent (chart_lines self.now.lines) (place_of e)) (events_of earlier) }
        ensures { IsVerdictRun self.now.lines self.now.recording (place_of receive) earlier result }
    {
        if self.is_begun(&receive) {
            return VerdictRun {
                verdict: Verdict::BegunInTheMiddle,
                count: earlier.count,
            };
        }
        VerdictRun {
            verdict: self.verdict(receive, earlier.first),
            count: self.alike(&earlier),
        }
    }
}

/// A receive and an earlier event have at most one verdict.
pub fn one_verdict_law()
    ensures { OneVerdictLaw }
{}
