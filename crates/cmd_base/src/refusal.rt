//! The text of refusals.
ghost use Rattle.std.specs.Prelude.{◌≡◌};
ghost use Rattle.texts.specs.Writing.{Wrote, Adds};
ghost use Rattle.cmd_base.specs.Refusals.{name_label, cause_label, label, behind_space, cause_detail, event_detail};
ghost use Rattle.cmd_base.specs.Refusals.{detail, start_text, end_text, refusal_text, number_detail, labelled_text, Tried};

use crate::error::ProgramError;
use chart::{Name, NameError};
use itoa::Buffer;
use texts::{Cause, Fault, Out, TextBuffer, WriteError};

#[tactic(auto, unfolding(crate::specs::Refusals::name_label))]
fn name_label(fault: NameError) -> &'static [u8]
    ensures { result.now ≡ name_label fault }
{
    match fault {
        NameError::Empty => b"F1 NameEmpty",
        NameError::TooLong => b"F2 NameTooLong",
        NameError::BadByte(_) => b"F3 NameBadByte",
        NameError::Reserved => b"F4 NameReserved",
    }
}

#[tactic(auto, unfolding(crate::specs::Refusals::cause_label))]
fn cause_label(cause: Cause) -> &'static [u8]
    ensures { result.now ≡ cause_label cause }
{
    match cause {
        Cause::Name(fault) => name_label(fault),
        Cause::LineFull => b"F7 LineFull",
        Cause::Instances => b"F8 Instances",
        Cause::Capacity => b"F9 Capacity",
        Cause::ToItself => b"F13 ToItself",
        Cause::Syntax => b"F20 Syntax",
        Cause::Duplicate => b"F22 Duplicate",
        Cause::UnknownInstance => b"F23 UnknownInstance",
    }
}

#[tactic(auto, unfolding(crate::specs::Refusals::label))]
fn label(error: &ProgramError) -> &'static [u8]
    ensures { result.now ≡ label error.now }
{
    match error {
        ProgramError::Usage => b"G1 Usage",
        ProgramError::File => b"G2 File",
        ProgramError::Memory => b"F6 Memory",
        ProgramError::Text(Fault::Line(_, cause)) => cause_label(*cause),
        ProgramError::Text(Fault::Unfinished) => b"F21 Unfinished",
        ProgramError::ReceiveWithoutSend { .. } => b"F16 ReceiveWithoutSend",
        ProgramError::NameMismatch { .. } => b"F17 NameMismatch",
        ProgramError::Cyclic => b"F18 Cyclic",
        ProgramError::Write => b"F24 Write",
    }
}

#[tactic(auto, unfolding(crate::specs::Refusals::behind_space))]
fn add_number<W: Out>(text: &mut TextBuffer<'_, W>, number: u64) -> Result<(), WriteError>
    ensures { Adds W.sink text.old text.new result (behind_space number) }
{
    let mut buffer = Buffer::new();
    let digits = buffer.format(number).as_bytes();
    text.add_all(&[b" ", digits])
}

#[tactic(auto, using(texts::proofs::Writes::joining), unfolding(crate::specs::Refusals::cause_detail))]
fn add_cause_detail<W: Out>(
    text: &mut TextBuffer<'_, W>,
    line: u64,
    cause: Cause,
) -> Result<(), WriteError>
    ensures { Adds W.sink text.old text.new result (cause_detail line cause) }
{
    match cause {
        Cause::Instances | Cause::Capacity => text.add(b""),
        Cause::Name(NameError::BadByte(place)) => {
            add_number(text, line)?;
            add_number(text, place as u64)
        }
        _ => add_number(text, line),
    }
}

#[tactic(auto, unfolding(crate::specs::Refusals::event_detail, crate::specs::Refusals::behind_space))]
fn add_event<W: Out>(
    text: &mut TextBuffer<'_, W>,
    instance: &Name,
    index: u32,
) -> Result<(), WriteError>
    ensures { Adds W.sink text.old text.new result (event_detail instance.now index) }
{
    let mut buffer = Buffer::new();
    let digits = buffer.format(index).as_bytes();
    text.add_all(&[b" ", instance.as_bytes(), b" ", digits])
}

#[tactic(auto, unfolding(crate::specs::Refusals::detail))]
fn add_detail<W: Out>(text: &mut TextBuffer<'_, W>, error: &ProgramError) -> Result<(), WriteError>
    ensures { Adds W.sink text.old text.new result (detail error.now) }
{
    match error {
        ProgramError::Text(Fault::Line(line, cause)) => { add_cause_detail(text, *line, *cause) }
        ProgramError::ReceiveWithoutSend { instance, index }
        | ProgramError::NameMismatch { instance, index } => { add_event(text, instance, *index) }
        _ => text.add(b""),
    }
}

#[tactic(auto, unfolding(crate::specs::Refusals::start_text))]
fn add_start<W: Out>(text: &mut TextBuffer<'_, W>) -> Result<(), WriteError>
    ensures { Adds W.sink text.old text.new result start_text }
{
    text.add(b"refused: ")
}

#[tactic(auto, unfolding(crate::specs::Refusals::end_text))]
fn add_end<W: Out>(text: &mut TextBuffer<'_, W>) -> Result<(), WriteError>
    ensures { Adds W.sink text.old text.new result end_text }
{
    text.add(b"\n")
}

#[tactic(auto, using(texts::proofs::Writes::joining), unfolding(crate::specs::Refusals::refusal_text))]
fn add_refusal<W: Out>(text: &mut TextBuffer<'_, W>, error: &ProgramError) -> Result<(), WriteError>
    ensures { Adds W.sink text.old text.new result (refusal_text error.now) }
{
    add_start(text)?;
    text.add(label(error))?;
    add_detail(text, error)?;
    add_end(text)
}

#[tactic(auto, using(texts::proofs::Writes::joining))]
fn write_refusal<W: Out>(error: &ProgramError, out: &mut W) -> Result<(), WriteError>
    ensures { Wrote W.sink out.old out.new result (refusal_text error.now) }
{
    let mut text = TextBuffer::new(out);
    add_refusal(&mut text, error)?;
    text.finish()
}

/// Prints the line of a refusal. Returns the exit status, which is 2 even if the line could not be written.
pub fn refused<V: Out>(error: &ProgramError, err: &mut V) -> u8
    ensures status { result ≡ 2 }
    ensures line { Tried V.sink err.old err.new (refusal_text error.now) }
{
    let _ = write_refusal(error, err);
    2
}

fn add_number_if<W: Out>(
    text: &mut TextBuffer<'_, W>,
    number: Option<u64>,
) -> Result<(), WriteError>
    ensures { Adds W.sink text.old text.new result (number_detail number) }
{
    match number {
        Some(number) => add_number(text, number),
        None => text.add(b""),
    }
}

#[tactic(auto, using(texts::proofs::Writes::joining), unfolding(crate::specs::Refusals::labelled_text))]
fn add_labelled<W: Out>(
    text: &mut TextBuffer<'_, W>,
    label: &[u8],
    number: Option<u64>,
) -> Result<(), WriteError>
    ensures { Adds W.sink text.old text.new result (labelled_text label.now number) }
{
    add_start(text)?;
    text.add(label)?;
    add_number_if(text, number)?;
    add_end(text)
}

#[tactic(auto, using(texts::proofs::Writes::joining))]
fn write_labelled<W: Out>(label: &[u8], number: Option<u64>, out: &mut W) -> Result<(), WriteError>
    ensures { Wrote W.sink out.old out.new result (labelled_text label.now number) }
{
    let mut text = TextBuffer::new(out);
    add_labelled(&mut text, label, number)?;
    text.finish()
}

/// Prints the line of a refusal that only another program has: its number and name, and a number after them, if there
/// is one. Returns the exit status, which is 2 even if the line could not be written.
pub fn refused_by<V: Out>(label: &[u8], number: Option<u64>, err: &mut V) -> u8
    ensures status { result ≡ 2 }
    ensures line { Tried V.sink err.old err.new (labelled_text label.now number) }
{
    let _ = write_labelled(label, number, err);
    2
}
