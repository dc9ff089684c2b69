//! The kind of a file, and its first fault.
ghost use Rattle.std.specs.Prelude.{◌≡◌, ◌++◌, length, map, IfOk, IfErr, OnOk};
ghost use Rattle.cmd_explain_file.specs.Explaining.{text_fault, exactly_by, exactly_of, read_schedule, first_stated, typed_number, first_saying, more_sayings, last_sayings, subject_of, sayings_of, exactly_in, explanation_of, explained_exit, Explains};
ghost use Rattle.cmd_explain_file.specs.Kinds.{kind_of};
ghost use Rattle.cmd_explain_file.specs.Verdicts.{IsVerdict};
ghost use Rattle.cmd_explain_file.specs.declared.saying.Saying.TheVariants as sayings_stated;
ghost use Rattle.cmd_base.specs.Answers.{Answers};
ghost use Rattle.cmd_tidy.specs.Typing.{exact_text};

use crate::finding::{behind_finding, fault_finding, no_send, other_name, unread_finding};
use crate::judging::judge;
use crate::kind::{Kind, kind_by, shown};
use crate::saying::{Saying, write_sayings};
use crate::verdict::{Exactly, Verdict};
use cmd_base::{ProgramError, Text, answered};
use cmd_tidy::{ExactText, exact_text, typed_line};
use diagram_join::Overtaking;
use diagrams::LeftOut;
use fault_places::{Step, count_of_lines};
use schedule_replay::notes::Noted;
use std::alloc::{AllocError, Global};
use texts::{Fault, Out};

/// The fault of a text that is read as a schedule or a chart, if it has one.
fn text_fault(alloc: Global, text: &[u8]) -> Result<Option<Fault>, ProgramError>
    ensures fault { IfOk result (λ fault. fault ≡ text_fault text.now) }
    ensures memory { IfErr result (λ e. e ≡ ProgramError.Memory) }
{
    match Text::read(alloc, text) {
        Ok(_) => Ok(None),
        Err(ProgramError::Text(fault)) => Ok(Some(fault)),
        Err(ProgramError::Memory) => Err(ProgramError::Memory),
        Err(_) => unreachable!(),
    }
}

/// The result for an exact text, by its fault.
fn exactly_by(has_comments: bool, fault: Option<Fault>) -> Exactly
    ensures { result ≡ exactly_by has_comments fault }
{
    match fault {
        None => Exactly::Read,
        Some(fault) if has_comments => Exactly::Refused(fault),
        Some(_) => Exactly::Unasked,
    }
}

/// The result for a file's exact text. There is one only if the file is refused as a text.
fn exactly_of(
    alloc: Global,
    verdict: &Verdict,
    has_comments: bool,
    exact: &[u8],
) -> Result<Exactly, ProgramError>
    ensures exactly { IfOk result (λ exactly. exactly ≡ exactly_of verdict.now has_comments exact.now) }
    ensures memory { IfErr result (λ e. e ≡ ProgramError.Memory) }
{
    match verdict {
        Verdict::Refused(_) => {
            let fault = text_fault(alloc, exact)?;
            Ok(exactly_by(has_comments, fault))
        }
        _ => Ok(Exactly::Unasked),
    }
}

/// The number in the typed file of the line with a fault of the exact text.
fn typed_number(text: &[u8], lines: &[u64], fault: Fault) -> u64
    ensures { result ≡ typed_number text.now lines.now fault }
{
    match fault {
        Fault::Line(number, _) => typed_line(lines, number),
        Fault::Unfinished => count_of_lines(text) + 1,
    }
}

/// Adds the notes that a schedule's commands leave.
fn add_notes(sayings: &mut Vec<Saying>, notes: &[Noted]) -> Result<(), AllocError>
    ensures { OnOk result (sayings.new.items ≡ sayings.old.items ++ map sayings_stated.Note notes.now) }
{
    for noted in notes {
        sayings.push(Saying::Note(*noted))?;
    }
    Ok(())
}

/// Adds the constructs that a diagram's chart can't express.
fn add_left_out(sayings: &mut Vec<Saying>, left_out: &[LeftOut]) -> Result<(), AllocError>
    ensures { OnOk result (sayings.new.items ≡ sayings.old.items ++ map sayings_stated.LeftOut left_out.now) }
{
    for kind in left_out {
        sayings.push(Saying::LeftOut(*kind))?;
    }
    Ok(())
}

/// Adds the messages that overtake another one.
fn add_overtaking(sayings: &mut Vec<Saying>, overtaking: &[Overtaking]) -> Result<(), AllocError>
    ensures { OnOk result (sayings.new.items ≡ sayings.old.items ++ map sayings_stated.Overtaking overtaking.now) }
{
    for message in overtaking {
        sayings.push(Saying::Overtaking(*message))?;
    }
    Ok(())
}

/// Adds the steps of a cycle.
fn add_steps(sayings: &mut Vec<Saying>, steps: &[Step]) -> Result<(), AllocError>
    ensures { OnOk result (sayings.new.items ≡ sayings.old.items ++ map sayings_stated.Step steps.now) }
{
    for step in steps {
        sayings.push(Saying::Step(*step))?;
    }
    Ok(())
}

/// The first part after the kind, for a schedule that is read, by the notes that its commands leave.
fn read_schedule(notes: &[Noted]) -> Saying
    ensures { result ≡ read_schedule (length notes.now) }
{
    if notes.is_empty() {
        Saying::Read
    } else {
        Saying::Undone(notes.len() as u64)
    }
}

/// The first part after the kind, by the verdict.
fn first_stated(kind: Kind, text: &[u8], verdict: &Verdict) -> Saying
    ensures { result ≡ first_stated kind text.now verdict.now }
{
    match verdict {
        Verdict::Read | Verdict::Built(_, _) => Saying::Read,
        Verdict::Ran(notes) => read_schedule(notes),
        Verdict::NotBuilt(why) => Saying::Finding(unread_finding(kind, text, *why)),
        Verdict::Behind(fault) => Saying::Finding(behind_finding(kind, text, *fault)),
        Verdict::Refused(fault) => Saying::Finding(fault_finding(kind, text, *fault)),
        Verdict::NoSend(receive) => Saying::Finding(no_send(text, *receive)),
        Verdict::OtherName(receive) => Saying::Finding(other_name(text, *receive)),
        Verdict::Cyclic(_) => Saying::Cyclic,
    }
}

/// The same, by the result for the exact text. `exact` has the number of each of its lines in the typed file.
fn first_saying(
    kind: Kind,
    text: &[u8],
    exact: &ExactText,
    verdict: &Verdict,
    exactly: Exactly,
) -> Saying
    ensures { result ≡ first_saying kind text.now exact.now.bytes.items exact.now.lines.items verdict.now exactly }
{
    match exactly {
        Exactly::Refused(fault) => Saying::Typed(
            fault_finding(kind, &exact.bytes, fault),
            typed_number(text, &exact.lines, fault),
        ),
        Exactly::Unasked | Exactly::Read => first_stated(kind, shown(kind, text), verdict),
    }
}

/// Adds the further parts of a verdict.
fn add_more(sayings: &mut Vec<Saying>, verdict: &Verdict) -> Result<(), AllocError>
    ensures { OnOk result (sayings.new.items ≡ sayings.old.items ++ more_sayings verdict.now) }
{
    match verdict {
        Verdict::Ran(notes) => add_notes(sayings, notes),
        Verdict::Built(left_out, overtaking) => {
            add_left_out(sayings, left_out)?;
            add_overtaking(sayings, overtaking)
        }
        Verdict::Cyclic(steps) => add_steps(sayings, steps),
        _ => Ok(()),
    }
}

/// Adds the parts with help.
fn add_last(sayings: &mut Vec<Saying>, kind: Kind, exactly: Exactly) -> Result<(), AllocError>
    ensures { OnOk result (sayings.new.items ≡ sayings.old.items ++ last_sayings kind exactly) }
{
    match (exactly, kind) {
        (Exactly::Read, _) => sayings.push(Saying::Tidy)?,
        (_, Kind::Other) => sayings.push(Saying::Log)?,
        _ => {}
    }
    Ok(())
}

/// All parts of the explanation of a file of this kind.
fn sayings_of(
    alloc: Global,
    kind: Kind,
    first: Saying,
    verdict: &Verdict,
    exactly: Exactly,
) -> Result<Vec<Saying>, AllocError>
    ensures { IfOk result (λ sayings. sayings.items ≡ sayings_of kind first verdict.now exactly) }
{
    let mut sayings = Vec::new(alloc);
    sayings.push(Saying::Kind(kind))?;
    sayings.push(first)?;
    add_more(&mut sayings, verdict)?;
    add_last(&mut sayings, kind, exactly)?;
    Ok(sayings)
}

/// The text whose lines are shown.
fn subject_of<'a>(kind: Kind, text: &'a [u8], exact: &'a [u8], exactly: Exactly) -> &'a [u8]
    ensures { result.now ≡ subject_of kind text.now exact.now exactly }
{
    match exactly {
        Exactly::Refused(_) => exact,
        Exactly::Unasked | Exactly::Read => shown(kind, text),
    }
}

/// The verdict on a file, and its explanation.
#[derive(Drop)]
struct Explanation {
    kind: Kind,
    verdict: Verdict,
    exact: ExactText,
    exactly: Exactly,
    sayings: Vec<Saying>,
}

/// The verdict on a file, and its explanation.
fn read_and_explain(alloc: Global, text: &[u8]) -> Result<Explanation, ProgramError>
    ensures kind { IfOk result (λ done. done.kind ≡ kind_of text.now) }
    ensures verdict { IfOk result (λ done. IsVerdict (kind_of text.now) text.now done.verdict) }
    ensures exact { IfOk result (λ done. done.exact.bytes.items ≡ exact_text text.now) }
    ensures exactly { IfOk result (λ done. done.exactly ≡ exactly_in text.now done.verdict) }
    ensures sayings { IfOk result (λ done. done.sayings.items ≡ explanation_of text.now done.verdict) }
    ensures memory { IfErr result (λ e. e ≡ ProgramError.Memory) }
{
    let exact = match exact_text(alloc, text) {
        Ok(exact) => exact,
        Err(AllocError) => return Err(ProgramError::Memory),
    };
    let kind = kind_by(text, &exact.bytes);
    let verdict = judge(alloc, kind, text)?;
    let has_comments = !exact.comments.is_empty();
    let exactly = exactly_of(alloc, &verdict, has_comments, &exact.bytes)?;
    let first = first_saying(kind, text, &exact, &verdict, exactly);
    match sayings_of(alloc, kind, first, &verdict, exactly) {
        Ok(sayings) => Ok(Explanation {
            kind,
            verdict,
            exact,
            exactly,
            sayings,
        }),
        Err(AllocError) => Err(ProgramError::Memory),
    }
}

/// Writes the explanation of a file. All memory is taken before the first byte is written.
fn write_explanation<W: Out>(
    alloc: Global,
    text: &[u8],
    out: &mut W,
) -> Result<Verdict, ProgramError>
    ensures { Explains W.sink out.old out.new text.now result }
{
    let done = read_and_explain(alloc, text)?;
    let subject = subject_of(done.kind, text, &done.exact.bytes, done.exactly);
    match write_sayings(subject, &done.sayings, out) {
        Ok(()) => Ok(done.verdict),
        Err(_) => Err(ProgramError::Write),
    }
}

/// Reports the kind of the file with these bytes, and its first fault. The fault comes with its line, a caret under the
/// place, and what may stand there. A refusal is F6 or F24, and its line is written to `err`. Returns the exit status:
/// 0 if there is no fault, 1 if one is reported, and 2 after a refusal. Nothing is written to `out` before a refusal,
/// unless a write to it fails (F24). A failed write to `err` changes nothing.
pub fn explain<W: Out, V: Out>(alloc: Global, text: &[u8], out: &mut W, err: &mut V) -> u8
    ensures { Answers (Explains W.sink out.old out.new text.now) explained_exit V.sink err.old err.new result }
{
    answered(&write_explanation(alloc, text, out), err)
}
