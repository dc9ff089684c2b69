//! The numbers of instances and of their events.
ghost use Rattle.std.specs.Prelude.{◌≡◌, ◌≤◌, ◌<◌, ◌+◌, suc};
ghost use Rattle.std.specs.Option.{SomeIff};
ghost use Rattle.chart.specs.declared.instance.TheConstants.{MAX_INSTANCES};

use std::marker::Model;

/// The most instances that a chart, a schedule or a board has.
pub const MAX_INSTANCES: usize = 32;

const _: () = prove!(MAX_INSTANCES == 32);

/// The number of an instance, from 1 to [`MAX_INSTANCES`]. Other libraries call an instance a process, an actor or a
/// participant. A contract sees it as the number.
#[derive(Clone, Copy, Debug, PartialEq, Eq, PartialOrd, Ord, Hash)]
pub struct InstanceNo {
    number: u8,
}

impl Model for InstanceNo {
    ghost use Rattle.std.specs.Prelude.{ℕ, ◌≤◌};
    ghost use Rattle.chart.specs.declared.instance.TheConstants.{MAX_INSTANCES};

    ghost Value = { ℕ };

    ghost view = { λ p. p.number };

    ghost invariant = { λ p. (1 ≤ p.number) × (p.number ≤ MAX_INSTANCES) };

    ghost inverse = { λ n. record { number = n } };
}

impl InstanceNo {
    /// The instance with number 1.
    pub const FIRST: InstanceNo = InstanceNo { number: 1 };

    /// The instance of this number, or nothing if the number isn't from 1 to [`MAX_INSTANCES`].
    pub fn new(number: usize) -> Option<InstanceNo>
        ensures { SomeIff result ((1 ≤ number) × (number ≤ MAX_INSTANCES)) number }
    {
        if number < 1 || MAX_INSTANCES < number {
            return None;
        }
        Some(InstanceNo {
            number: number as u8,
        })
    }

    /// The instance at a place of a list whose places begin at 0.
    #[inline(always)]
    pub fn at_place(place: usize) -> InstanceNo
        requires { place < MAX_INSTANCES }
        ensures { result ≡ suc place }
    {
        InstanceNo {
            number: place as u8 + 1,
        }
    }

    /// The number, from 1.
    #[inline(always)]
    pub fn number(self) -> usize
        ensures value { result ≡ self }
        ensures first { 1 ≤ result }
        ensures last { result ≤ MAX_INSTANCES }
    {
        usize::from(self.number)
    }

    /// The instance's place in a list whose places begin at 0.
    #[inline(always)]
    pub fn place(self) -> usize
        ensures value { self ≡ suc result }
        ensures last { result < MAX_INSTANCES }
    {
        usize::from(self.number - 1)
    }
}

/// An event of a chart: an instance, and the number of one of its events, from 1.
#[derive(Clone, Copy, Debug, PartialEq, Eq, PartialOrd, Ord, Hash)]
pub struct EventNo {
    pub instance: InstanceNo,
    pub index: u32,
}
