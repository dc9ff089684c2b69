//! The spelling of a chart's content in each tool.
ghost use Rattle.std.specs.Prelude.{◌≡◌, ◌++◌, decimal};
ghost use Rattle.texts.specs.Instances.{name_at};
ghost use Rattle.texts.specs.Writing.{Adds};
ghost use Rattle.diagram_export.specs.ExportText.{counted};
ghost use Rattle.diagram_export.specs.Parts.{sign_text};
ghost use Rattle.diagram_export.specs.Spelling.{arrow, whole_arrow, late_arrow, space, note_front, between, note_place};
ghost use Rattle.diagram_export.specs.Spelling.{note_start, sending, receiving, races, saying_text};
ghost use Rattle.diagram_export.specs.Spelling.{who, label_start, label_end};
ghost use Rattle.diagram_export.specs.Words.{spelled};
ghost use Rattle.diagram_export.specs.declared.word.Word.TheVariants as words;

use crate::earlier::add_ranges;
use crate::export::Export;
use crate::part::{Part, Sign, add_one, add_parts, who_part};
use crate::saying::Saying;
use crate::word::Word;
use chart::{InstanceNo, Name, Report};
use diagram_tool::Tool;
use texts::pieces::add_amount;
use texts::{Out, TextBuffer, WriteError};

/// The text before the instance of a note.
#[tactic(auto, unfolding(crate::specs::Spelling::note_front))]
fn note_front(tool: Tool) -> &'static [u8]
    ensures { result.now ≡ note_front tool }
{
    match tool {
        Tool::Mscgen => b"",
        Tool::PlantUml => b"note over ",
        Tool::Mermaid => b"Note over ",
    }
}

/// Adds an arrow without the text after its label.
#[tactic(auto, unfolding(crate::specs::Spelling::arrow))]
fn add_arrow<W: Out>(
    text: &mut TextBuffer<'_, W>,
    export: &Export<'_>,
    sign: Sign,
    from: InstanceNo,
    to: InstanceNo,
    name: &Name,
) -> Result<(), WriteError>
    ensures { Adds W.sink text.old text.new result
        (arrow export.now (sign_text export.now.tool sign) from to name.now) }
{
    let tool = export.tool();
    add_parts(
        text,
        &[
            Part::Indent(tool),
            who_part(export, from),
            Part::Sign(tool, sign),
            who_part(export, to),
            Part::LabelStart(tool),
            Part::Name(Some(*name)),
        ],
    )
}

/// Adds a message that is level, or that nobody receives.
#[tactic(auto, using(texts::proofs::Writes::joining), unfolding(crate::specs::Spelling::whole_arrow))]
fn add_whole_arrow<W: Out>(
    text: &mut TextBuffer<'_, W>,
    export: &Export<'_>,
    sign: Sign,
    from: InstanceNo,
    to: InstanceNo,
    name: &Name,
) -> Result<(), WriteError>
    ensures { Adds W.sink text.old text.new result
        (whole_arrow export.now (sign_text export.now.tool sign) from to name.now) }
{
    add_arrow(text, export, sign, from, to, name)?;
    add_one(text, Part::LabelEnd(export.tool()))
}

/// Adds the number of rows after an arrow's label, and the end of the attributes.
fn add_skip<W: Out>(text: &mut TextBuffer<'_, W>, tool: Tool, rows: u32) -> Result<(), WriteError>
    ensures { Adds W.sink text.old text.new result (spelled words.ArcSkip ++ (decimal rows ++ label_end tool)) }
{
    let rows = Part::Number(u64::from(rows));
    add_parts(
        text,
        &[Part::Word(Word::ArcSkip), rows, Part::LabelEnd(tool)],
    )
}

/// Adds a message that ends this many rows further down, in mscgen.
#[tactic(auto, using(texts::proofs::Writes::joining), unfolding(crate::specs::Spelling::late_arrow))]
fn add_late_arrow<W: Out>(
    text: &mut TextBuffer<'_, W>,
    export: &Export<'_>,
    from: InstanceNo,
    to: InstanceNo,
    name: &Name,
    rows: u32,
) -> Result<(), WriteError>
    ensures { Adds W.sink text.old text.new result (late_arrow export.now from to name.now rows) }
{
    add_arrow(text, export, Sign::Received, from, to, name)?;
    add_skip(text, export.tool(), rows)
}

/// Adds an empty row of mscgen.
#[tactic(auto, unfolding(crate::specs::Spelling::space))]
pub(crate) fn add_space<W: Out>(text: &mut TextBuffer<'_, W>) -> Result<(), WriteError>
    ensures { Adds W.sink text.old text.new result space }
{
    text.add(b"  |||;\n")
}

#[tactic(auto, unfolding(crate::specs::Spelling::between))]
fn add_between<W: Out>(
    text: &mut TextBuffer<'_, W>,
    export: &Export<'_>,
    at: InstanceNo,
) -> Result<(), WriteError>
    ensures { Adds W.sink text.old text.new result (between export.now at) }
{
    add_parts(text, &[who_part(export, at), Part::Word(Word::Note)])
}

/// Adds the text before the instance of a note. In mscgen it names the instance too.
fn add_note_place<W: Out>(
    text: &mut TextBuffer<'_, W>,
    export: &Export<'_>,
    at: InstanceNo,
) -> Result<(), WriteError>
    ensures { Adds W.sink text.old text.new result (note_place export.now.tool export.now at) }
{
    match export.tool() {
        Tool::Mscgen => add_between(text, export, at),
        Tool::PlantUml | Tool::Mermaid => text.add(b""),
    }
}

/// Adds the instance of a note, and the text before its label.
fn add_noted<W: Out>(
    text: &mut TextBuffer<'_, W>,
    export: &Export<'_>,
    at: InstanceNo,
) -> Result<(), WriteError>
    ensures { Adds W.sink text.old text.new result (who export.now at ++ label_start export.now.tool) }
{
    add_parts(
        text,
        &[who_part(export, at), Part::LabelStart(export.tool())],
    )
}

/// Adds the beginning of a note at an instance.
#[tactic(auto, using(texts::proofs::Writes::joining), unfolding(crate::specs::Spelling::note_start))]
fn add_note_start<W: Out>(
    text: &mut TextBuffer<'_, W>,
    export: &Export<'_>,
    at: InstanceNo,
) -> Result<(), WriteError>
    ensures { Adds W.sink text.old text.new result (note_start export.now at) }
{
    let tool = export.tool();
    add_one(text, Part::Indent(tool))?;
    text.add(note_front(tool))?;
    add_note_place(text, export, at)?;
    add_noted(text, export, at)
}

/// Adds the label of a note that states one event, and its end. The label has a word, a message, another word and a
/// name.
fn add_words<W: Out>(
    text: &mut TextBuffer<'_, W>,
    export: &Export<'_>,
    front: Word,
    name: &Name,
    side: Word,
    partner: InstanceNo,
) -> Result<(), WriteError>
    ensures { Adds W.sink text.old text.new result (spelled front ++ (name.now ++ (spelled side
        ++ (name_at export.now.names partner ++ label_end export.now.tool)))) }
{
    add_parts(
        text,
        &[
            Part::Word(front),
            Part::Name(Some(*name)),
            Part::Word(side),
            Part::Name(export.names().name(partner)),
            Part::LabelEnd(export.tool()),
        ],
    )
}

/// Adds a note that states a send alone.
#[tactic(auto, using(texts::proofs::Writes::joining), unfolding(crate::specs::Spelling::sending))]
fn add_sending<W: Out>(
    text: &mut TextBuffer<'_, W>,
    export: &Export<'_>,
    at: InstanceNo,
    to: InstanceNo,
    name: &Name,
) -> Result<(), WriteError>
    ensures { Adds W.sink text.old text.new result (sending export.now at to name.now) }
{
    add_note_start(text, export, at)?;
    add_words(text, export, Word::Out, name, Word::To, to)
}

/// Adds a note that states a receive alone.
#[tactic(auto, using(texts::proofs::Writes::joining), unfolding(crate::specs::Spelling::receiving))]
fn add_receiving<W: Out>(
    text: &mut TextBuffer<'_, W>,
    export: &Export<'_>,
    at: InstanceNo,
    from: InstanceNo,
    name: &Name,
) -> Result<(), WriteError>
    ensures { Adds W.sink text.old text.new result (receiving export.now at from name.now) }
{
    add_note_start(text, export, at)?;
    add_words(text, export, Word::In, name, Word::From, from)
}

/// Adds a note of the earlier events that a receive may come before.
#[tactic(auto, using(texts::proofs::Writes::joining), unfolding(crate::specs::Spelling::races))]
pub(crate) fn add_races<W: Out>(
    text: &mut TextBuffer<'_, W>,
    export: &Export<'_>,
    report: &Report,
) -> Result<(), WriteError>
    ensures { Adds W.sink text.old text.new result (races export.now report.now (counted report.now)) }
{
    let earlier = report.earlier();
    add_note_start(text, export, report.receive().instance)?;
    add_one(text, Part::Word(Word::MayComeBefore))?;
    add_amount(text, earlier.len())?;
    add_ranges(text, export, earlier.as_slice())?;
    add_one(text, Part::LabelEnd(export.tool()))
}

/// Adds a saying in the tool's spelling.
pub(crate) fn add_saying<W: Out>(
    text: &mut TextBuffer<'_, W>,
    export: &Export<'_>,
    saying: &Saying,
) -> Result<(), WriteError>
    ensures { Adds W.sink text.old text.new result (saying_text export.now saying.now) }
{
    match saying {
        Saying::Arrow { from, to, name } => {
            add_whole_arrow(text, export, Sign::Received, *from, *to, name)
        }
        Saying::Lost { from, to, name } => {
            add_whole_arrow(text, export, Sign::Lost, *from, *to, name)
        }
        Saying::Late {
            from,
            to,
            name,
            rows,
        } => add_late_arrow(text, export, *from, *to, name, *rows),
        Saying::Sends { at, to, name } => add_sending(text, export, *at, *to, name),
        Saying::Receives { at, from, name } => add_receiving(text, export, *at, *from, name),
        Saying::Space => add_space(text),
    }
}
