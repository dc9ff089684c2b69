//! Behaviours that are lists of acts.
ghost use Rattle.std.specs.Prelude.{◌≡◌, length};
ghost use Rattle.behaviour.specs.Scripts.{script_act, script_next};

use crate::act::Act;
use crate::answer::Answer;
use crate::bare_act::BareAct;
use crate::bare_answer::BareAnswer;
use crate::behaviour::Behaviour;
use board::{SendError, TakeError};
use std::marker::Model;

/// A behaviour that does these acts in their order, and then stops. Their messages have empty bodies.
///
/// It repeats an act if its lane was full (F11) or nothing waited. It stops if memory was refused (F6), and goes on to
/// the next act after every other answer. A contract sees its acts, and the place of the present one, from 0.
#[derive(Debug, Drop)]
pub struct Script {
    acts: Vec<BareAct>,
    place: usize,
}

impl Model for Script {
    ghost use Rattle.std.specs.Prelude.{◌≤◌, length};
    ghost use Rattle.behaviour.specs.Scripts.{ScriptView};

    ghost Value = { ScriptView };

    ghost view = { λ script. record { acts = script.acts.items; place = script.place } };

    ghost invariant = { λ script. script.place ≤ length script.acts.items };
}

/// The place of a script with `acts` acts after the answer `last` to the act at `place`, from 0. It stays the same
/// after [`BareAnswer::Start`], and if the lane was full or nothing waited. It is past the last act if memory was
/// refused, and otherwise the next place.
pub fn next_place(acts: usize, place: usize, last: BareAnswer) -> usize
    ensures { result ≡ script_next acts place last }
{
    match last {
        BareAnswer::Start | BareAnswer::Nothing | BareAnswer::Unsent(SendError::Full) => place,
        BareAnswer::Unsent(SendError::Memory) | BareAnswer::Unreceived(TakeError::Memory) => {
            acts
        }
        _ if acts <= place => acts,
        _ => place + 1,
    }
}

impl Script {
    /// A script at the first of these acts. The call takes no memory.
    pub fn new(acts: Vec<BareAct>) -> Script
        ensures { result ≡ record { acts = acts.items; place = 0 } }
    {
        Script { acts, place: 0 }
    }

    /// The place of the script after this answer.
    fn next_place(&self, last: BareAnswer) -> usize
        ensures { result ≡ script_next (length self.now.acts) self.now.place last }
    {
        next_place(self.acts.len(), self.place, last)
    }

    /// The act at the script's place; past the last act, it stops.
    fn act(&self) -> Act
        ensures { result ≡ script_act self.now }
    {
        match self.acts.get(self.place) {
            Some(act) => act.with_empty_body(*self.acts.allocator()),
            None => Act::Stop,
        }
    }
}

impl Behaviour for Script {
    ghost use Rattle.behaviour.specs.Scripts.{script_act, script_after};

    ghost act = { λ script last. script_act (script_after script last) };

    ghost after = { script_after };

    fn next(&mut self, last: &Answer) -> Act {
        self.place = self.next_place(last.bare());
        self.act()
    }
}
