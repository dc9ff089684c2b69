//! The exit status that reports whether there are races, if that is known.
ghost use Rattle.std.specs.Prelude.{◌≡◌};
ghost use Rattle.cmd_base.specs.Statuses.{status_in, code_of, status_exit};

use crate::answer::Answer;
use texts::Out;

/// Whether there are races, or some race is shown, if that is known.
#[derive(Clone, Copy, Debug, PartialEq, Eq)]
pub enum Status {
    /// No receive has a race, or none is shown.
    NoRaces,
    /// Some receive has a race, which is shown.
    Races,
    /// No race is shown, and whether there is one to show isn't known.
    NotKnown,
}

impl Status {
    /// The status for whether there are races, or some race is shown.
    pub fn of(has_races: bool) -> Status
        ensures { result ≡ status_in has_races }
    {
        if has_races {
            Status::Races
        } else {
            Status::NoRaces
        }
    }

    /// The exit status.
    fn code(self) -> u8
        ensures { result ≡ code_of self }
    {
        match self {
            Status::NoRaces => 0,
            Status::Races => 1,
            Status::NotKnown => 3,
        }
    }
}

/// No text, only the status.
impl Answer for Status {
    ghost exit = { status_exit };

    fn status(&self) -> u8 {
        self.code()
    }

    fn print_diagnostics<V: Out>(&self, _err: &mut V) {}
}
