//! Verdicts on a receive and an earlier event of its line.
ghost use Rattle.std.specs.Prelude.{◌≡◌};
ghost use Rattle.cmd_explain_race.specs.Verdicts.{code_of, verdict_in};

use cmd_base::NotDone;

/// The verdict on a receive and an earlier event of its line.
#[derive(Clone, Copy)]
pub enum Verdict {
    /// The enforced order puts the event before the receive.
    Enforced,
    /// The enforced order doesn't: the pair is a race that is reported.
    Race,
    /// The enforced order doesn't, but both are in one coregion. So no report has the pair.
    Hidden,
}

/// The result of `why` for a pair of a file's chart.
#[derive(Clone, Copy)]
pub struct Explained {
    pub verdict: Verdict,
    /// The commands of the file's schedule that did nothing, if there are any.
    pub not_done: Option<NotDone>,
}

/// The result of `witness` for a pair.
#[derive(Clone, Copy)]
pub struct Witnessed {
    pub verdict: Verdict,
    /// Whether the schedule closes lanes. A witness never does.
    pub has_closes: bool,
}

impl Verdict {
    /// The verdict on a pair that isn't enforced.
    pub(crate) fn of(in_one_coregion: bool) -> Verdict
        ensures { result ≡ verdict_in in_one_coregion }
    {
        if in_one_coregion {
            Verdict::Hidden
        } else {
            Verdict::Race
        }
    }

    /// The exit status.
    pub(crate) fn code(self) -> u8
        ensures { result ≡ code_of self }
    {
        match self {
            Verdict::Enforced => 0,
            Verdict::Race | Verdict::Hidden => 1,
        }
    }
}
