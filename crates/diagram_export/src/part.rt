//! The parts of lines: one call adds all parts of a line.
ghost use Rattle.std.specs.Prelude.{◌≡◌};
ghost use Rattle.std.specs.List.{flat_map};
ghost use Rattle.texts.specs.Instances.{name_at};
ghost use Rattle.texts.specs.Writing.{Adds};
ghost use Rattle.diagram_export.specs.Parts.{bytes_of, named_text, who_text, sign_text, part_text};
ghost use Rattle.diagram_export.specs.Spelling.{who, indent, label_start, label_end};

use crate::export::Export;
use crate::word::Word;
use chart::{InstanceNo, Name, Names};
use diagram_tool::Tool;
use itoa::Buffer;
use texts::{Out, TextBuffer, WriteError};

/// The sign of an arrow.
#[derive(Clone, Copy)]
pub(crate) enum Sign {
    /// The message is received.
    Received,
    /// Nobody receives the message.
    Lost,
}

/// A part of a line. It holds no reference, so that one list can have parts of any lifetime.
#[derive(Clone, Copy)]
pub(crate) enum Part {
    Word(Word),
    /// In decimal.
    Number(u64),
    /// The name, or nothing without a name.
    Name(Option<Name>),
    /// The name between quotation marks.
    Quoted(Option<Name>),
    /// The instance as an arrow names it: by its name between quotation marks, or by its number.
    Who(Tool, Option<Name>, InstanceNo),
    /// The indent of each line of a chart.
    Indent(Tool),
    /// The sign between the ends of a message.
    Sign(Tool, Sign),
    /// The text before a label.
    LabelStart(Tool),
    /// The text after a label.
    LabelEnd(Tool),
}

/// The indent of each line of a chart.
#[tactic(auto, unfolding(crate::specs::Spelling::indent))]
fn indent(tool: Tool) -> &'static [u8]
    ensures { result.now ≡ indent tool }
{
    match tool {
        Tool::Mscgen => b"  ",
        Tool::PlantUml => b"",
        Tool::Mermaid => b"    ",
    }
}

/// The sign between the ends of a message.
#[tactic(auto, unfolding(crate::specs::Spelling::arrow_sign, crate::specs::Spelling::lost_sign))]
fn spelled_sign(tool: Tool, sign: Sign) -> &'static [u8]
    ensures { result.now ≡ sign_text tool sign }
{
    match sign {
        Sign::Received => match tool {
            Tool::Mscgen | Tool::PlantUml => b" -> ",
            Tool::Mermaid => b"->>",
        },
        Sign::Lost => match tool {
            Tool::Mscgen | Tool::Mermaid => b" -x ",
            Tool::PlantUml => b" ->x ",
        },
    }
}

/// The text before a label.
#[tactic(auto, unfolding(crate::specs::Spelling::label_start))]
fn label_start(tool: Tool) -> &'static [u8]
    ensures { result.now ≡ label_start tool }
{
    match tool {
        Tool::Mscgen => b" [label=\"",
        Tool::PlantUml => b" : ",
        Tool::Mermaid => b": ",
    }
}

/// The text after a label.
#[tactic(auto, unfolding(crate::specs::Spelling::label_end))]
fn label_end(tool: Tool) -> &'static [u8]
    ensures { result.now ≡ label_end tool }
{
    match tool {
        Tool::Mscgen => b"\"];\n",
        Tool::PlantUml | Tool::Mermaid => b"\n",
    }
}

/// The bytes of a name, or none without a name.
fn bytes_of(name: &Option<Name>) -> &[u8]
    ensures { result.now ≡ bytes_of name.now }
{
    match name {
        Some(name) => name.as_bytes(),
        None => b"",
    }
}

/// The name of an instance, if it has one.
pub(crate) fn name_of(names: &Names, instance: InstanceNo) -> Option<Name>
    ensures { bytes_of result ≡ name_at names.now instance }
{
    names.name(instance)
}

/// An instance as an arrow names it.
pub(crate) fn who_part(export: &Export<'_>, instance: InstanceNo) -> Part
    ensures { part_text result ≡ who export.now instance }
{
    Part::Who(export.tool(), export.names().name(instance), instance)
}

#[tactic(auto, unfolding(crate::specs::Spelling::quoted))]
fn add_quoted<W: Out>(text: &mut TextBuffer<'_, W>, name: &Option<Name>) -> Result<(), WriteError>
    ensures { Adds W.sink text.old text.new result (named_text name.now) }
{
    text.add_three(
        Word::Quote.as_bytes(),
        bytes_of(name),
        Word::Quote.as_bytes(),
    )
}

#[tactic(auto, unfolding(crate::specs::Spelling::numbered))]
fn add_who<W: Out>(
    text: &mut TextBuffer<'_, W>,
    tool: Tool,
    name: &Option<Name>,
    instance: InstanceNo,
) -> Result<(), WriteError>
    ensures { Adds W.sink text.old text.new result (who_text tool name.now instance) }
{
    match tool {
        Tool::Mscgen | Tool::PlantUml => add_quoted(text, name),
        Tool::Mermaid => {
            let mut buffer = Buffer::new();
            let digits = buffer.format(instance.number() as u64).as_bytes();
            text.add_all(&[Word::Number.as_bytes(), digits])
        }
    }
}

fn add_part<W: Out>(text: &mut TextBuffer<'_, W>, part: &Part) -> Result<(), WriteError>
    ensures { Adds W.sink text.old text.new result (part_text part.now) }
{
    match part {
        Part::Word(word) => text.add(word.as_bytes()),
        Part::Number(number) => text.add_number(*number),
        Part::Name(name) => text.add(bytes_of(name)),
        Part::Quoted(name) => add_quoted(text, name),
        Part::Who(tool, name, instance) => add_who(text, *tool, name, *instance),
        Part::Indent(tool) => text.add(indent(*tool)),
        Part::Sign(tool, which) => text.add(spelled_sign(*tool, *which)),
        Part::LabelStart(tool) => text.add(label_start(*tool)),
        Part::LabelEnd(tool) => text.add(label_end(*tool)),
    }
}

/// Adds the parts in their order.
pub(crate) fn add_parts<W: Out>(
    text: &mut TextBuffer<'_, W>,
    parts: &[Part],
) -> Result<(), WriteError>
    ensures { Adds W.sink text.old text.new result (flat_map part_text parts.now) }
{
    for part in parts {
        add_part(text, part)?;
    }
    Ok(())
}

/// Adds a single part.
pub(crate) fn add_one<W: Out>(text: &mut TextBuffer<'_, W>, part: Part) -> Result<(), WriteError>
    ensures { Adds W.sink text.old text.new result (part_text part) }
{
    add_part(text, &part)
}
