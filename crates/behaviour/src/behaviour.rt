//! What drives an instance.
ghost use Rattle.std.specs.Prelude.{◌≡◌};

use crate::act::Act;
use crate::answer::Answer;

/// What an instance does: it is asked for the next act, and gets the answer to the last one.
///
/// Its ghost members are its meaning. For a state and the last answer, `act` is the next act, and `after` is the new
/// state.
pub trait Behaviour: Drop {
    ghost use Rattle.behaviour.specs.declared.act.Act.{Act};
    ghost use Rattle.behaviour.specs.declared.answer.Answer.{Answer};

    ghost act: { Self → Answer → Act };

    ghost after: { Self → Answer → Self };

    /// The next act. `last` is the answer to the act before it, or [`Answer::Start`] if there was none.
    fn next(&mut self, last: &Answer) -> Act
        ensures act { result ≡ act self.old last.now }
        ensures left { self.new ≡ after self.old last.now };
}
