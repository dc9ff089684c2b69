//! The record of a run.
ghost use Rattle.std.specs.Prelude.{◌≡◌, ◌<◌, ◌++◌, ◌∷◌, [], vec_len, vec_capacity};
ghost use Rattle.instances.specs.Traces.{turns_of};

use crate::turn::Turn;
use behaviour::{BareAct, BareAnswer};
use std::marker::Model;

/// One turn and equal ones directly after it, `count` in all.
#[derive(Clone, Copy, Debug, PartialEq, Eq)]
pub struct Stretch {
    pub turn: Turn,
    pub count: u32,
}

/// The turns of a run, in their order. A contract sees the list of them. Equal neighbours are kept as one turn with
/// their count.
#[derive(Debug, Drop)]
pub struct Trace {
    stretches: Vec<Stretch>,
}

impl Model for Trace {
    ghost use Rattle.std.specs.Prelude.{List};
    ghost use Rattle.instances.specs.declared.turn.Turn.{Turn};
    ghost use Rattle.instances.specs.Traces.{turns_of};

    ghost Value = { List Turn };

    ghost view = { λ trace. turns_of trace.stretches.items };
}

impl Trace {
    /// The turns of these stretches.
    pub(crate) fn of(stretches: Vec<Stretch>) -> Trace
        ensures { result ≡ turns_of stretches.items }
    {
        Trace { stretches }
    }

    /// Its turns in their order, with equal neighbours as one turn with their count.
    pub fn stretches(&self) -> &[Stretch]
        ensures { turns_of result.now ≡ self.now }
    {
        self.stretches.as_slice()
    }
}

/// Adds a turn. There is room for it.
pub(crate) fn add_turn(stretches: &mut Vec<Stretch>, act: BareAct, answer: Option<BareAnswer>)
    requires { vec_len stretches.old < vec_capacity stretches.old }
    ensures { turns_of stretches.new.items
        ≡ turns_of stretches.old.items ++ record { act = act; answer = answer } ∷ [] }
{
    let turn = Turn { act, answer };
    if let Some(last) = stretches.last_mut() {
        if last.turn.is(&turn) && last.count < u32::MAX {
            last.count += 1;
            return;
        }
    }
    stretches.push_reserved(Stretch { turn, count: 1 });
}
