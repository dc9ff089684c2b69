//! The words for faults and notes.
ghost use Rattle.std.specs.Prelude.{◌≡◌};
ghost use Rattle.cmd_explain_file.specs.Words.{kind_words, cause_words, note_words, what_words, what_label, want_words, start_of};
ghost use Rattle.cmd_explain_file.specs.Sayings.{cyclic_text, tidy_text, log_text};
ghost use Rattle.cmd_base.specs.Refusals.{name_label, cause_label};
ghost use Rattle.schedule.specs.Outcomes.OutcomeText.{word_text};

use crate::finding::What;
use crate::kind::Kind;
use chart::NameError;
use diagram_tool::Tool;
use fault_places::Want;
use schedule::Word;
use texts::Cause;

/// The kind of the file, and the commands that read it.
#[tactic(auto, unfolding(crate::specs::Words::kind_words))]
pub(crate) fn kind_words(kind: Kind) -> &'static [u8]
    ensures { result.now ≡ kind_words kind }
{
    match kind {
        Kind::Schedule => b"a schedule, for mscrun replay, random and threads, and for mscview\n",
        Kind::Chart => b"a chart, for mscrun check, and for mscview\n",
        Kind::Diagram(Tool::Mscgen) => b"a diagram of mscgen: mscview import makes a chart of it\n",
        Kind::Diagram(Tool::PlantUml) =>
            b"a diagram of PlantUML: mscview import makes a chart of it\n",
        Kind::Diagram(Tool::Mermaid) =>
            b"a diagram of Mermaid: mscview import makes a chart of it\n",
        Kind::Other =>
            b"neither a schedule nor a chart, nor a diagram of mscgen, PlantUML or Mermaid\n",
    }
}

#[tactic(auto, unfolding(cmd_base::specs::Refusals::name_label))]
fn name_label(fault: NameError) -> &'static [u8]
    ensures { result.now ≡ name_label fault }
{
    match fault {
        NameError::Empty => b"F1 NameEmpty",
        NameError::TooLong => b"F2 NameTooLong",
        NameError::BadByte(_) => b"F3 NameBadByte",
        NameError::Reserved => b"F4 NameReserved",
    }
}

/// The number and name of a line's fault.
#[tactic(auto, unfolding(cmd_base::specs::Refusals::cause_label))]
fn cause_label(cause: Cause) -> &'static [u8]
    ensures { result.now ≡ cause_label cause }
{
    match cause {
        Cause::Name(fault) => name_label(fault),
        Cause::LineFull => b"F7 LineFull",
        Cause::Instances => b"F8 Instances",
        Cause::Capacity => b"F9 Capacity",
        Cause::ToItself => b"F13 ToItself",
        Cause::Syntax => b"F20 Syntax",
        Cause::Duplicate => b"F22 Duplicate",
        Cause::UnknownInstance => b"F23 UnknownInstance",
    }
}

/// The words for a line's fault.
#[tactic(auto, unfolding(crate::specs::Words::cause_words))]
fn cause_words(cause: Cause) -> &'static [u8]
    ensures { result.now ≡ cause_words cause }
{
    match cause {
        Cause::Name(NameError::Empty) => b"a name has a byte at least",
        Cause::Name(NameError::TooLong) => b"a name has 32 bytes at most",
        Cause::Name(NameError::BadByte(_)) =>
            b"this byte is no part of a name: a letter, and then letters, digits and _",
        Cause::Name(NameError::Reserved) =>
            b"this word is kept for the text of charts, and is no name",
        Cause::LineFull => b"an instance has 4096 events at most",
        Cause::Instances => b"there are 2 to 32 instances",
        Cause::Capacity => b"a lane has 1 to 64 slots",
        Cause::ToItself => b"no instance sends to itself or receives from itself",
        Cause::Syntax => b"this can't stand here",
        Cause::Duplicate => b"an instance of this name is there already",
        Cause::UnknownInstance => b"there is no instance of this name",
    }
}

/// The word of a note.
#[tactic(auto, unfolding(schedule::specs::Outcomes::OutcomeText::word_text))]
fn note_label(word: Word) -> &'static [u8]
    ensures { result.now ≡ word_text word }
{
    match word {
        Word::Full => b"full",
        Word::Nothing => b"nothing",
        Word::Ended => b"ended",
        Word::Closed => b"closed",
        Word::LineFull => b"linefull",
        Word::Open => b"open",
        Word::NotOpen => b"notopen",
        Word::InCoregion => b"incoregion",
    }
}

/// The words for a note.
#[tactic(auto, unfolding(crate::specs::Words::note_words))]
fn note_words(word: Word) -> &'static [u8]
    ensures { result.now ≡ note_words word }
{
    match word {
        Word::Full => b"the lane has no free slot, so this send did nothing",
        Word::Nothing => b"no message waited here, so this did nothing",
        Word::Ended => b"no message waited here and none can come, so this did nothing",
        Word::Closed => b"the lane was closed before, so this did nothing",
        Word::LineFull => b"the instance has 4096 events already, so this did nothing",
        Word::Open => b"a coregion is open already, so this did nothing",
        Word::NotOpen => b"no coregion is open, so this did nothing",
        Word::InCoregion => b"a coregion has receives alone, so this send did nothing",
    }
}

/// The number and name of a fault, or the word of a note.
#[tactic(auto, unfolding(crate::specs::Words::what_label))]
pub(crate) fn what_label(what: What) -> &'static [u8]
    ensures { result.now ≡ what_label what }
{
    match what {
        What::Line(cause) => cause_label(cause),
        What::Unfinished => b"F21 Unfinished",
        What::NoSend => b"F16 ReceiveWithoutSend",
        What::OtherName => b"F17 NameMismatch",
        What::Behind => b"behind a chart",
        What::Note(word) => note_label(word),
        What::NotRead => b"F35 NotRead",
        What::NotPossible => b"F37 NotPossible",
        What::NoSuchName => b"F34 NoSuchName",
        What::Usage => b"G1 Usage",
    }
}

/// The words for a fault or note.
#[tactic(auto, unfolding(crate::specs::Words::what_words))]
pub(crate) fn what_words(what: What) -> &'static [u8]
    ensures { result.now ≡ what_words what }
{
    match what {
        What::Line(cause) => cause_words(cause),
        What::Unfinished => b"the text ends too early",
        What::NoSend => b"nothing was sent for this receive",
        What::OtherName => b"the message that is received here was sent by another name",
        What::Behind => b"mscrun check refuses what stands here, and mscview leaves it alone",
        What::Note(word) => note_words(word),
        What::NotRead => b"this can't be read",
        What::NotPossible => b"with this no chart is possible",
        What::NoSuchName => b"a line that is joined isn't there",
        What::Usage => b"a line that is skipped isn't there",
    }
}

/// The start of the heading. A note, and text after a chart, are no faults.
#[tactic(auto, unfolding(crate::specs::Words::start_of))]
pub(crate) fn start_of(what: What) -> &'static [u8]
    ensures { result.now ≡ start_of what }
{
    match what {
        What::Behind | What::Note(_) => b"\nnote: ",
        _ => b"\nerror: ",
    }
}

/// What may stand at a place.
#[tactic(auto, unfolding(crate::specs::Words::want_words))]
pub(crate) fn want_words(want: Want) -> &'static [u8]
    ensures { result.now ≡ want_words want }
{
    match want {
        Want::Begin => b"`instances`, which begins a schedule, or `msc run;`, which begins a chart",
        Want::Instances => b"`instances`",
        Want::FirstName => b"the name of an instance",
        Want::OtherName => b"the name of another instance",
        Want::Capacity => b"`capacity`",
        Want::Slots => b"a number from 1 to 64",
        Want::Actor => b"the name of an instance",
        Want::Action => b"`send`, `receive`, `any`, `close`, `concurrent` or `endconcurrent`",
        Want::SendTo => b"the name of another instance",
        Want::Partner => b"the name of another instance",
        Want::Message => b"the name of a message",
        Want::LineEnd => b"nothing more",
        Want::LineFeed => b"a line feed",
        Want::Msc => b"`msc run;`",
        Want::ChartName => b"`run;`",
        Want::InstanceOrEnd => b"`instance NAME;` or `endmsc;`",
        Want::NextInstance => b"`instance NAME;`",
        Want::End => b"`endmsc;`",
        Want::InstanceName => b"the name of a new instance and a semicolon",
        Want::Event => b"`out`, `in`, `concurrent;` or `endinstance;`",
        Want::OpenedEvent => b"`in`",
        Want::HeldEvent => b"`in` or `endconcurrent;`",
        Want::Sent => b"the name of a message",
        Want::To => b"`to`",
        Want::Receiver => b"the name of another instance and a semicolon",
        Want::Received => b"the name of a message",
        Want::From => b"`from`",
        Want::Sender => b"the name of another instance and a semicolon",
        Want::ChartEnd => b"nothing more",
    }
}

/// The words for F18.
#[tactic(auto, unfolding(crate::specs::Sayings::cyclic_text))]
pub(crate) fn cyclic_words() -> &'static [u8]
    ensures { result.now ≡ cyclic_text }
{
    b"\nerror: F18 Cyclic: events come before each other, in a cycle\n"
}

/// The hint for a file that can be tidied.
#[tactic(auto, unfolding(crate::specs::Sayings::tidy_text))]
pub(crate) fn tidy_words() -> &'static [u8]
    ensures { result.now ≡ tidy_text }
{
    b"\nhelp: mscview tidy writes the exact text of this file, which has no fault\n"
}

/// The hint for a file that may be a log.
#[tactic(auto, unfolding(crate::specs::Sayings::log_text))]
pub(crate) fn log_words() -> &'static [u8]
    ensures { result.now ≡ log_text }
{
    b"\nhelp: of a log, mscview races --from log prints the races: of lines HOST send PEER NAME and HOST recv PEER NAME, or as --pattern reads its lines\n"
}
