//! Neighbouring events of a host that are of one kind.
ghost use Rattle.std.specs.Prelude.{ℕ, ◌≡◌, ◌+◌, ◌-◌, ◌<◌, ◌≤◌, ◌↔◌, length, IfOk, IsTrue};
ghost use Rattle.race_verdicts.specs.Luck.Places.{host_items};
ghost use Rattle.race_verdicts.specs.Luck.Runs.{kind_of, IsNextAlike, IsRun, HaveRuns, AreRuns};

use crate::luck::tables::Table;
use chart::EventNo;
use log_chart::{HostLine, Item};
use std::alloc::{AllocError, Global};
use std::marker::Model;

/// The kind of an event.
#[derive(Clone, Copy, Debug, PartialEq, Eq)]
pub(crate) enum Kind {
    /// It has no line of the log.
    Invented,
    /// A send of the log.
    Send,
    /// A receive of the log.
    Receive,
}

impl Kind {
    pub(crate) fn of(item: &Item) -> Kind
        ensures { result ≡ kind_of item.now }
    {
        match (item.line, item.sends) {
            (None, _) => Kind::Invented,
            (Some(_), true) => Kind::Send,
            (Some(_), false) => Kind::Receive,
        }
    }

    /// Whether both kinds are the same.
    pub(crate) fn is(self, other: Kind) -> bool
        ensures { IsTrue result ↔ (self ≡ other) }
    {
        self == other
    }
}

/// Whether the event after the one at this place, from 0, is of the same kind.
fn is_next_alike(items: &[Item], place: usize) -> bool
    requires { place < length items.now }
    ensures { IsTrue result ↔ IsNextAlike items.now place }
{
    let next = place + 1;
    if next == items.len() {
        return false;
    }
    Kind::of(&items[next]).is(Kind::of(&items[place]))
}

/// How many events from this place on are of one kind. `runs` has these numbers for the later places.
fn run_at(items: &[Item], runs: &Table, place: usize) -> usize
    requires place { place < length items.now }
    requires later { HaveRuns items.now runs.now (place + 1) }
    ensures { IsRun items.now place result }
{
    if !is_next_alike(items, place) {
        return 1;
    }
    let Some(run) = runs.at(place + 1) else {
        unreachable!()
    };
    run + 1
}

/// The same for each event of a host.
fn runs_of(alloc: Global, items: &[Item]) -> Result<Table, AllocError>
    ensures { IfOk result (λ runs. HaveRuns items.now runs 0) }
{
    let mut runs = Table::none(alloc, items.len())?;
    let mut place = items.len();
    'items: while place > 0 {
        place -= 1;
        let run = run_at(items, &runs, place);
        runs.set(place, Some(run));
    }
    Ok(runs)
}

/// The same for each host.
fn runs_of_all(alloc: Global, hosts: &[HostLine]) -> Result<Vec<Table>, AllocError>
    ensures { IfOk result (λ tables. AreRuns hosts.now tables.items) }
{
    let mut tables = Vec::new(alloc);
    for place in 0..hosts.len() {
        tables.push(runs_of(alloc, hosts[place].as_slice())?)?;
    }
    Ok(tables)
}

/// For each event of each host, how many events from it on are of one kind. Contracts see the events.
#[derive(Drop)]
pub(crate) struct Runs<'a> {
    hosts: &'a [HostLine],
    /// The number for each event of each host.
    runs: Vec<Table>,
}

impl<'a> Model for Runs<'a> {
    ghost use Rattle.std.specs.Prelude.{List};
    ghost use Rattle.log_chart.specs.declared.item.Item.{Item};
    ghost use Rattle.race_verdicts.specs.Luck.Runs.{AreRuns};

    ghost Value = { List (List Item) };

    ghost view = { λ r. r.hosts.now };

    ghost invariant = { λ r. AreRuns r.hosts.now r.runs.items };
}

impl<'a> Runs<'a> {
    pub(crate) fn of(alloc: Global, hosts: &'a [HostLine]) -> Result<Runs<'a>, AllocError>
        ensures { IfOk result (λ runs. runs ≡ hosts.now) }
    {
        let runs = runs_of_all(alloc, hosts)?;
        Ok(Runs { hosts, runs })
    }

    /// How many events from this one on are of one kind.
    pub(crate) fn count(&self, event: &EventNo) -> usize
        requires begun { 1 ≤ event.now.index }
        requires within { event.now.index ≤ length (host_items self.now event.now.instance) }
        ensures { IsRun (host_items self.now event.now.instance) (event.now.index - 1) result }
    {
        let place = event.index as usize - 1;
        let Some(run) = self.runs[event.instance.place()].at(place) else {
            unreachable!()
        };
        run
    }
}
