//! The names of a chart's instances.
ghost use Rattle.std.specs.Prelude.{ℕ, ◌≡◌, ◌≤◌, ◌<◌, ◌+◌, ◌++◌, ◌∷◌, [], ◌↔◌, suc, length, IfOk, OnErr, Ok, Err, Some};
ghost use Rattle.std.specs.Prelude.{IsTrue, ◌==◌, Contains, slice_get};
ghost use Rattle.chart.specs.Names.{instance_of};
ghost use Rattle.chart.specs.NameSets.{AreNames};
ghost use Rattle.chart.specs.declared.instance.TheConstants.{MAX_INSTANCES};
ghost use Rattle.chart.specs.declared.names.NamesError.TheVariants.{Memory};

use crate::instance::{InstanceNo, MAX_INSTANCES};
use crate::name::Name;
use indexmap::IndexSet;
use std::alloc::{AllocError, AllocFailed, Global};
use std::marker::Model;
use thiserror::Error;

/// Why a name isn't added: the first of these that applies.
#[derive(Clone, Copy, Debug, PartialEq, Eq, Error)]
pub enum NamesError {
    /// F22: an instance has the name already.
    #[error("the name was given before")]
    Duplicate,
    /// F8: there are [`MAX_INSTANCES`] names.
    #[error("there are at most 32 instances")]
    Instances,
    /// F6: a growth was refused.
    #[error("out of memory")]
    Memory,
}

impl From<AllocError> for NamesError {
    ghost from_gives = { λ _ e. e ≡ Memory };

    fn from(_e: AllocError) -> NamesError {
        NamesError::Memory
    }
}

impl<T: Drop> From<AllocFailed<T>> for NamesError {
    ghost from_gives = { λ _ e. e ≡ Memory };

    fn from(_e: AllocFailed<T>) -> NamesError {
        NamesError::Memory
    }
}

/// The names of instance 1, of instance 2, and so on: at most [`MAX_INSTANCES`], in the order in which they were
/// added, none twice. A contract sees the list of names.
#[derive(Debug)]
pub struct Names {
    names: IndexSet<Name>,
}

// Written by hand, as that of a chart is.
impl Drop for Names {
    #[inline(never)]
    fn drop(self) {
        let Names { names: _ } = self;
    }
}

impl Model for Names {
    ghost use Rattle.std.specs.Prelude.{ℕ, List};

    ghost Value = { List (List ℕ) };

    ghost use Rattle.chart.specs.NameSets.{AreNames};

    ghost view = { λ n. n.names.keys };

    ghost invariant = { λ n. AreNames n.names.keys };
}

impl Names {
    /// No names. It takes no memory.
    pub fn new(alloc: Global) -> Names
        ensures { result ≡ [] }
    {
        Names {
            names: IndexSet::new(alloc),
        }
    }

    /// A copy.
    ///
    /// F6: it fails only if there is no memory.
    pub fn copied(&self) -> Result<Names, AllocError>
        ensures { IfOk result (λ names. names ≡ self.now) }
    {
        Ok(Names {
            names: self.names.clone()?,
        })
    }

    pub fn len(&self) -> usize
        ensures value { result ≡ length self.now }
        ensures limit { result ≤ MAX_INSTANCES }
        ensures names { AreNames self.now }
    {
        self.names.len()
    }

    pub fn is_empty(&self) -> bool
        ensures { result ≡ (length self.now == 0) }
    {
        self.names.is_empty()
    }

    /// Whether an instance has the name. It takes no memory.
    pub fn contains(&self, name: Name) -> bool
        ensures { IsTrue result ↔ Contains self.now name }
    {
        self.names.contains(&name)
    }

    /// Gives the name to the next instance, and returns its number. A refusal, the first of F22, F8 and F6 that
    /// applies, leaves the names as they were.
    pub fn add(&mut self, name: Name) -> Result<InstanceNo, NamesError>
        ensures ok { IfOk result (λ p. (p ≡ length self.old + 1) × (self.new ≡ self.old ++ name ∷ [])) }
        ensures duplicate { (result ≡ Err NamesError.Duplicate) ↔ Contains self.old name }
        ensures instances { (result ≡ Err NamesError.Instances)
            ↔ ((Contains self.old name → ⊥) × (length self.old ≡ MAX_INSTANCES)) }
        ensures err { OnErr result (self.new ≡ self.old) }
    {
        if self.contains(name) {
            return Err(NamesError::Duplicate);
        }
        let place = self.names.len();
        if place >= MAX_INSTANCES {
            return Err(NamesError::Instances);
        }
        self.names.insert(name)?;
        Ok(InstanceNo::at_place(place))
    }

    /// The instance that has the name. It takes no memory.
    pub fn instance(&self, name: Name) -> Option<InstanceNo>
        ensures { result ≡ instance_of self.now name }
    {
        match self.names.get_index_of(&name) {
            Some(place) => Some(InstanceNo::at_place(place)),
            None => None,
        }
    }

    /// The name of an instance, if it has one. It takes no memory.
    pub fn name(&self, instance: InstanceNo) -> Option<Name>
        ensures { (place : ℕ) → instance ≡ suc place → result ≡ slice_get self.now place }
    {
        self.names.get_index(instance.place()).copied()
    }
}
