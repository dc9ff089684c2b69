//! Scripts for busy machines: a script that has to wait lets other threads run first.
use behaviour::{Act, Answer, Behaviour, Script};
use board::SendError;
use std::thread;

/// A script that lets other threads run first before it repeats an act. So it spends few turns while it waits for one
/// of them, even on a busy machine. Its acts are those of its script.
#[derive(Drop)]
pub struct PatientScript {
    pub script: Script,
}

impl Behaviour for PatientScript {
    ghost use Rattle.behaviour.specs.Scripts.{script_act, script_after};

    ghost act = { λ patient last. script_act (script_after patient.script last) };

    ghost after = { λ patient last. record patient { script = script_after patient.script last } };

    fn next(&mut self, last: &Answer) -> Act {
        if matches!(last, Answer::Nothing | Answer::Unsent(_, SendError::Full)) {
            thread::yield_now();
        }
        self.script.next(last)
    }
}
