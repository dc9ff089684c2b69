//! The verdict on a file.
ghost use Rattle.std.specs.Prelude.{◌≡◌, None};
ghost use Rattle.cmd_explain_file.specs.Verdicts.{status_of, verdict_exit};

use chart::EventNo;
use cmd_base::Answer;
use diagram_join::{JoinError, Overtaking};
use diagrams::{LeftOut, Place};
use fault_places::Step;
use schedule_replay::notes::Noted;
use texts::{Fault, Out};

/// Why another tool's text can't be imported.
#[derive(Clone, Copy, Debug)]
pub(crate) enum Unread {
    /// G1: a line to skip doesn't exist.
    Usage,
    /// F35: the text at this place can't be read.
    NotRead(Place),
    /// F21: the text ends too early.
    Unfinished,
    /// F23: in this line an arc of mscgen names an entity that doesn't exist.
    UnknownInstance(u64),
    /// F7, F8, F22, F34 or F37: there is no such chart.
    NoChart(JoinError),
}

/// The verdict on a file.
#[derive(Debug, Drop)]
pub(crate) enum Verdict {
    /// It has no fault.
    Read,
    /// A schedule, with the notes that its commands leave.
    Ran(Vec<Noted>),
    /// A diagram, with the constructs that its chart can't express, and the messages that overtake others.
    Built(Vec<LeftOut>, Vec<Overtaking>),
    /// A diagram that is refused.
    NotBuilt(Unread),
    /// A chart with text after it, and the fault of the whole text.
    Behind(Fault),
    /// The first fault of the text.
    Refused(Fault),
    /// F16: no message was sent for this receive.
    NoSend(EventNo),
    /// F17: the message of this receive was sent with another name.
    OtherName(EventNo),
    /// F18: these events come before each other, in a cycle.
    Cyclic(Vec<Step>),
}

/// The result for the exact text of a file that is refused as a text.
#[derive(Clone, Copy, Debug)]
pub(crate) enum Exactly {
    /// There is no result: the file isn't refused as a text, or its own fault is reported.
    Unasked,
    /// It has no fault.
    Read,
    /// It has this fault. The file has comments, which the exact text lacks.
    Refused(Fault),
}

/// The exit status is 1 if a fault is reported, and otherwise 0.
impl Answer for Verdict {
    ghost exit = { verdict_exit };

    fn status(&self) -> u8 {
        match self {
            Verdict::Read | Verdict::Ran(_) | Verdict::Built(_, _) | Verdict::Behind(_) => 0,
            Verdict::NotBuilt(_)
            | Verdict::Refused(_)
            | Verdict::NoSend(_)
            | Verdict::OtherName(_)
            | Verdict::Cyclic(_) => 1,
        }
    }

    fn print_diagnostics<V: Out>(&self, _err: &mut V) {}
}
