//! A behaviour with random acts.
use crate::acts::Acts;
use crate::ledger::Ledger;
use behaviour::{Act, Answer, Behaviour};
use std::sync::Arc;

/// It does its acts after any answers. It keeps a ledger of its messages for others that share it, since a behaviour
/// itself doesn't come back from a run.
#[derive(Drop)]
pub struct Wild {
    pub acts: Acts,
    pub ledger: Arc<Ledger>,
}

impl Behaviour for Wild {
    ghost use Rattle.std.specs.Prelude.{drop};
    ghost use Rattle.fuzz_boards.specs.RandomActs.{first_act};

    ghost act = { λ wild last. first_act wild.acts };

    ghost after = { λ wild last. record wild { acts = drop 1 wild.acts } };

    fn next(&mut self, last: &Answer) -> Act {
        self.ledger.note_answer(last);
        let act = self.acts.take_first();
        self.ledger.note_act(&act);
        act
    }
}
