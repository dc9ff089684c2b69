//! Answers of calls over whole boards, as numbers.
ghost use Rattle.std.specs.Prelude.{◌≡◌};
ghost use Rattle.msc.specs.Answers.{code_of, done_code};
ghost use Rattle.msc.specs.BoardAnswers.{report_from, report_after, left_from, left_after, waiting_code};

use crate::answers::{MscLeft, MscReport};
use crate::codes::code_of;
use c_board::boards::{Reported, Waiting};
use c_board::{Numbered, Numbering};

/// The number of a call that was done or refused, with each misuse by its cause.
pub(crate) fn done_by_cause<E: Numbered>(answer: Result<(), E>) -> i32
    ensures { result ≡ done_code (E.number Numbering.ByCause) answer }
{
    match answer {
        Ok(()) => 0,
        Err(refusal) => -(refusal.number(Numbering::ByCause) as i32),
    }
}

/// The description of a report, as C reads it.
fn report_from(reported: Reported) -> MscReport
    ensures { result ≡ report_from reported }
{
    MscReport {
        instance: reported.instance,
        event: reported.event,
        races: reported.races,
    }
}

/// The number of a call that described a report or was refused, and the description.
pub(crate) fn report_code<E: Numbered>(answer: Result<Reported, E>, report: &mut MscReport) -> i32
    ensures code { result ≡ done_code (E.number Numbering.Alike) answer }
    ensures report { report.new ≡ report_after report.old answer }
{
    match answer {
        Ok(output) => {
            *report = report_from(output);
            0
        }
        Err(refusal) => code_of(refusal),
    }
}

/// The description of a waiting message, as C reads it.
fn left_from(waiting: Waiting) -> MscLeft
    ensures { result ≡ left_from waiting }
{
    MscLeft {
        name_length: waiting.name,
        body_length: waiting.body,
    }
}

/// The number of a call that described a waiting message, found none, or was refused, and the description.
pub(crate) fn waiting_code<E: Numbered>(
    answer: Result<Option<Waiting>, E>,
    left: &mut MscLeft,
) -> i32
    ensures code { result ≡ waiting_code (E.number Numbering.Alike) answer }
    ensures left { left.new ≡ left_after left.old answer }
{
    match answer {
        Ok(Some(waiting)) => {
            *left = left_from(waiting);
            0
        }
        Ok(None) => 1,
        Err(refusal) => code_of(refusal),
    }
}
