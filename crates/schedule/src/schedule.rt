//! Schedules.
ghost use Rattle.std.specs.Prelude.{◌≡◌, ◌≤◌, IfSome};
ghost use Rattle.std.specs.Option.{SomeIff};
ghost use Rattle.chart.specs.declared.history.TheConstants.{MAX_CAPACITY};

use crate::command::Command;
use chart::{MAX_CAPACITY, Names};
use std::marker::Model;

/// The number of slots of each lane, from 1 to [`MAX_CAPACITY`]. A contract sees it as the number.
#[derive(Clone, Copy, Debug, PartialEq, Eq, PartialOrd, Ord, Hash)]
pub struct Capacity {
    slots: u8,
}

impl Model for Capacity {
    ghost use Rattle.std.specs.Prelude.{ℕ, ◌≤◌};
    ghost use Rattle.chart.specs.declared.history.TheConstants.{MAX_CAPACITY};

    ghost Value = { ℕ };

    ghost view = { λ c. c.slots };

    ghost invariant = { λ c. (1 ≤ c.slots) × (c.slots ≤ MAX_CAPACITY) };

    ghost inverse = { λ n. record { slots = n } };
}

impl Capacity {
    /// The capacity of this number of slots, or nothing if the number isn't from 1 to [`MAX_CAPACITY`].
    pub fn new(slots: usize) -> Option<Capacity>
        ensures { SomeIff result ((1 ≤ slots) × (slots ≤ MAX_CAPACITY)) slots }
    {
        if slots < 1 || MAX_CAPACITY < slots {
            return None;
        }
        Some(Capacity { slots: slots as u8 })
    }

    pub fn slots(self) -> usize
        ensures value { result ≡ self }
        ensures first { 1 ≤ result }
        ensures last { result ≤ MAX_CAPACITY }
    {
        usize::from(self.slots)
    }
}

/// A schedule: the instances' names, the capacity of their lanes, and their commands in order. A contract sees it as a
/// record of these.
///
/// It has 2 to 32 names, and each command's actor and partner are two of the instances.
#[derive(Debug, Drop)]
pub struct Schedule {
    names: Names,
    capacity: Capacity,
    commands: Vec<Command>,
}

impl Model for Schedule {
    ghost use Rattle.schedule.specs.Plans.{Plan, IsPlan};

    ghost Value = { Plan };

    ghost view = { λ s. record { names = s.names; capacity = s.capacity; commands = s.commands.items } };

    ghost invariant = { λ s. IsPlan (record { names = s.names; capacity = s.capacity; commands = s.commands.items }) };
}

impl Schedule {
    ghost use Rattle.std.specs.Prelude.{◌≡◌};
    ghost use Rattle.schedule.specs.Plans.{IsPlan};

    /// The schedule of these parts.
    pub fn new(names: Names, capacity: Capacity, commands: Vec<Command>) -> Schedule
        requires { IsPlan (record { names = names; capacity = capacity; commands = commands.items }) }
        ensures { result ≡ record { names = names; capacity = capacity; commands = commands.items } }
    {
        Schedule {
            names,
            capacity,
            commands,
        }
    }

    pub fn names(&self) -> &Names
        ensures value { result.now ≡ self.now.names }
        ensures plan { IsPlan self.now }
    {
        &self.names
    }

    pub fn capacity(&self) -> Capacity
        ensures { result ≡ self.now.capacity }
    {
        self.capacity
    }

    /// The commands, in order.
    pub fn commands(&self) -> &[Command]
        ensures value { result.now ≡ self.now.commands }
        ensures plan { IsPlan self.now }
    {
        self.commands.as_slice()
    }
}
