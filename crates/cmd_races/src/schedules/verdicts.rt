//! The verdicts on the races of a schedule.
ghost use Rattle.std.specs.Prelude.{◌≡◌, ◌<◌, ◌≤◌, ◌↔◌, ℕ, true, Some, IfOk, IsTrue, AllPairs};
ghost use Rattle.chart.specs.Charts.{at, chart_lines, IsReceiveFrom, IsNumbered};
ghost use Rattle.chart.specs.declared.event.Event.{Event};
ghost use Rattle.chart.specs.Events.{ith, is_receive_from, is_receive};
ghost use Rattle.chart.specs.Places.{IsEvent};
ghost use Rattle.closure.specs.Faults.{place_of};
ghost use Rattle.cmd_races.specs.Schedules.Makers.{IsReceive, NamesSender};
ghost use Rattle.cmd_races.specs.Schedules.Verdicts.{IsBehind, TakesAny, IsVerdict};

use crate::schedules::makers::lines_named;
use chart::line_events::events_of;
use chart::{Event, EventNo, EventRange, InstanceNo, Line};
use race_verdicts::Verdict;
use races_text::judged::{Part, Verdicts};
use races_text::named::event_at;
use schedule::{Command, Note};
use std::alloc::{AllocError, Global};
use std::marker::Model;

/// The commands that made the receives of a schedule. A contract sees the commands, their notes and the lines of the
/// chart.
#[derive(Drop)]
pub struct Makers<'a> {
    commands: &'a [Command],
    notes: &'a [Note],
    lines: &'a [Line],
    /// For each event of each line, whether its command named its sender.
    named: Vec<Vec<bool>>,
}

impl<'a> Model for Makers<'a> {
    ghost use Rattle.std.specs.Prelude.{◌≡◌, map};
    ghost use Rattle.chart.specs.Charts.{IsNumbered, chart_lines};
    ghost use Rattle.cmd_races.specs.Schedules.Makers.{RunView};
    ghost use Rattle.cmd_races.specs.Schedules.Tables.{named_lines};

    ghost Value = { RunView };

    ghost view = { λ m. record { commands = m.commands.now; notes = m.notes.now; lines = m.lines.now } };

    ghost invariant = { λ m. (map (λ table. table.items) m.named.items ≡ named_lines m.commands.now m.notes.now m.lines.now)
        × IsNumbered m.lines.now };
}

fn is_receive(event: &Event) -> bool
    ensures { result ≡ is_receive event.now }
{
    matches!(event, Event::Receive { .. })
}

/// Whether the event with this number is a receive from the sender.
fn is_from(events: &[Event], sender: InstanceNo, index: usize) -> bool
    ensures { IsTrue result ↔ ((m : Event) × (ith events.now index ≡ Some m) × (is_receive_from sender m ≡ true)) }
{
    match event_at(events, index) {
        Some(event) => event.is_receive_from(sender),
        None => false,
    }
}

/// Whether a receive from the sender is between these two events. The search goes back from the later one.
fn is_between(events: &[Event], sender: InstanceNo, earlier: usize, later: usize) -> bool
    ensures { IsTrue result ↔ ((i : ℕ) × (earlier < i) × (i < later)
        × ((m : Event) × (ith events.now i ≡ Some m) × (is_receive_from sender m ≡ true))) }
{
    let mut index = later;
    while index > 0 {
        index -= 1;
        if index <= earlier {
            return false;
        }
        if is_from(events, sender, index) {
            return true;
        }
    }
    false
}

impl<'a> Makers<'a> {
    /// The commands that made the receives of a chart with these lines. The notes are in the order of their lines.
    pub fn of(
        alloc: Global,
        commands: &'a [Command],
        notes: &'a [Note],
        lines: &'a [Line],
    ) -> Result<Makers<'a>, AllocError>
        requires notes { AllPairs (λ a b. a.line ≤ b.line) notes.now }
        requires lines { IsNumbered lines.now }
        ensures { IfOk result (λ makers. makers ≡ record { commands = commands.now; notes = notes.now; lines = lines.now }) }
    {
        let named = lines_named(alloc, commands, notes, lines)?;
        Ok(Makers {
            commands,
            notes,
            lines,
            named,
        })
    }

    /// Whether the event is the receive of a command that named its sender.
    fn names_sender(&self, event: &EventNo) -> bool
        requires { 1 ≤ event.now.index }
        ensures { IsTrue result ↔ NamesSender self.now (place_of event.now) }
    {
        let Some(table) = self.named.get(event.instance.place()) else {
            return false;
        };
        match table.get(event.index as usize - 1) {
            Some(named) => *named,
            None => false,
        }
    }

    /// Whether another receive from the same sender is between these two.
    fn is_behind(&self, receive: &EventNo, earlier: &EventNo) -> bool
        ensures { IsTrue result ↔ IsBehind (chart_lines self.now.lines) (place_of receive.now) (place_of earlier.now) }
    {
        let line = events_of(self.lines, receive.instance);
        match event_at(line, receive.index as usize) {
            Some(event) if is_receive(&event) => {
                let (later, earlier) = (receive.index as usize, earlier.index as usize);
                is_between(line, event.partner(), earlier, later)
            }
            _ => false,
        }
    }

    /// The verdict of a receive and an earlier one of its line.
    fn verdict_of_receives(&self, receive: &EventNo, earlier: &EventNo) -> Verdict
        requires { IsReceive (chart_lines self.now.lines earlier.now.instance) earlier.now.index }
        ensures { IsVerdict self.now (place_of receive.now) (place_of earlier.now) result }
    {
        if self.names_sender(earlier) {
            return Verdict::WouldNotTake;
        }
        if self.is_behind(receive, earlier) {
            return Verdict::BehindAnother;
        }
        Verdict::Any
    }

    /// The verdict of a receive and an earlier event of its line.
    fn verdict_of(&self, receive: &EventNo, earlier: &EventNo) -> Verdict
        requires { IsEvent (chart_lines self.now.lines) (place_of earlier.now) }
        ensures { IsVerdict self.now (place_of receive.now) (place_of earlier.now) result }
    {
        let line = events_of(self.lines, earlier.instance);
        let Some(event) = event_at(line, earlier.index as usize) else {
            unreachable!();
        };
        if is_receive(&event) {
            return self.verdict_of_receives(receive, earlier);
        }
        Verdict::EarlierIsSend
    }
}

impl Verdicts for Makers<'_> {
    ghost use Rattle.chart.specs.Places.{IsEvent};
    ghost use Rattle.closure.specs.Faults.{place_of};
    ghost use Rattle.cmd_races.specs.Schedules.Verdicts.{IsVerdict};

    ghost is_race = { λ m r e. IsEvent (chart_lines m.lines) (place_of e) };

    ghost is_verdict = { λ m r e verdict. IsVerdict m (place_of r) (place_of e) verdict };

    fn verdict_of_first(&self, receive: &EventNo, earlier: &EventRange) -> Part {
        let first = earlier.first;
        let verdict = self.verdict_of(receive, &first);
        Part::of(&first, verdict)
    }
}
