//! The names of a line's messages.
ghost use Rattle.std.specs.Prelude.{◌≡◌, ℕ, [], ◌-◌, ◌+◌, ◌≤◌, ◌<◌, length, slice_index_or, vec_len};
ghost use Rattle.std.specs.Prelude.{vec_capacity, OnOk, OnErr};
ghost use Rattle.chart.specs.declared.line.TheConstants.{MAX_EVENTS};
ghost use Rattle.chart.specs.declared.message_names.TheConstants.{GUESSES};

use crate::line::MAX_EVENTS;
use crate::name::Name;
use std::alloc::{AllocError, Global};

/// The number of kinds of events for each of which a line keeps the place of the last name. The kinds are sends to each
/// instance, and receives from each.
pub(crate) const GUESSES: usize = 64;

/// The number of names, the last ones added, that are searched for a name that isn't at its guessed place.
const NEAR: usize = 8;

/// The names of a line's messages. The line's events keep their places in this list.
///
/// The likely place of a name is guessed, and compared with what is there. A name that isn't found is added, though it
/// may be among the others.
#[derive(Debug, Drop)]
pub(crate) struct MessageNames {
    pub names: Vec<Name>,
    /// For each kind of events a guessed place. Any number may be here.
    guesses: [u16; GUESSES],
}

impl MessageNames {
    /// No names. It takes no memory.
    pub fn new(alloc: Global) -> MessageNames
        ensures { (result.names.items ≡ []) × (vec_capacity result.names ≡ 0) }
    {
        MessageNames {
            names: Vec::new(alloc),
            guesses: [0; GUESSES],
        }
    }

    /// The number of names that can be added without memory.
    #[inline(always)]
    pub fn room(&self) -> usize
        ensures { result ≡ vec_capacity self.now.names - vec_len self.now.names }
    {
        self.names.capacity() - self.names.len()
    }

    /// Makes room for this number of names.
    ///
    /// F6: it fails only if there is no memory, and then nothing has changed.
    pub fn reserve(&mut self, names: usize) -> Result<(), AllocError>
        ensures items { self.new.names.items ≡ self.old.names.items }
        ensures ok { OnOk result (names ≤ vec_capacity self.new.names - vec_len self.new.names) }
        ensures least { vec_capacity self.old.names ≤ vec_capacity self.new.names }
        ensures err { OnErr result (vec_capacity self.new.names ≡ vec_capacity self.old.names) }
    {
        self.names.reserve(names)
    }

    /// The name at a place.
    #[inline(always)]
    pub fn name(&self, place: u16) -> Name
        requires { place < length self.now.names.items }
        ensures { result ≡ slice_index_or self.now.names.items place [] }
    {
        self.names[place as usize]
    }

    /// The place of a name, which is added if it isn't found. There is room for it.
    #[inline(always)]
    pub fn place_of(&mut self, guess: usize, name: &Name) -> u16
        requires guess { guess < GUESSES }
        requires few { length self.old.names.items < MAX_EVENTS }
        requires room { vec_len self.old.names < vec_capacity self.old.names }
        ensures within { result < length self.new.names.items }
        ensures found { slice_index_or self.new.names.items result [] ≡ name.now }
        ensures kept { (k : ℕ) → k < length self.old.names.items
            → slice_index_or self.new.names.items k [] ≡ slice_index_or self.old.names.items k [] }
        ensures longer { length self.old.names.items ≤ length self.new.names.items }
        ensures few { length self.new.names.items ≤ length self.old.names.items + 1 }
        ensures capacity { vec_capacity self.new.names ≡ vec_capacity self.old.names }
    {
        let place = self.guesses[guess];
        if (place as usize) < self.names.len() && self.names[place as usize] == *name {
            return place;
        }
        self.find_or_add(guess, name)
    }

    /// The place of a name that isn't at its guessed place. It is added if it isn't found.
    #[cold]
    #[inline(never)]
    fn find_or_add(&mut self, guess: usize, name: &Name) -> u16
        requires guess { guess < GUESSES }
        requires few { length self.old.names.items < MAX_EVENTS }
        requires room { vec_len self.old.names < vec_capacity self.old.names }
        ensures within { result < length self.new.names.items }
        ensures found { slice_index_or self.new.names.items result [] ≡ name.now }
        ensures kept { (k : ℕ) → k < length self.old.names.items
            → slice_index_or self.new.names.items k [] ≡ slice_index_or self.old.names.items k [] }
        ensures longer { length self.old.names.items ≤ length self.new.names.items }
        ensures few { length self.new.names.items ≤ length self.old.names.items + 1 }
        ensures capacity { vec_capacity self.new.names ≡ vec_capacity self.old.names }
    {
        let length = self.names.len();
        for place in length.saturating_sub(NEAR)..length {
            if self.names[place] == *name {
                self.guesses[guess] = place as u16;
                return place as u16;
            }
        }
        self.names.push_reserved(*name);
        self.guesses[guess] = length as u16;
        length as u16
    }
}
