//! The parts of a line of the text.
ghost use Rattle.std.specs.Prelude.{◌≡◌, ◌++◌};
ghost use Rattle.std.specs.List.{flat_map};
ghost use Rattle.msc_text.specs.ChartText.{message_at};
ghost use Rattle.texts.specs.Instances.{name_at};
ghost use Rattle.texts.specs.Writing.{Adds};
ghost use Rattle.cmd_compare.specs.Words.{part_text, word_text};

use crate::word::{Word, word_of};
use chart::{Event, InstanceNo, Name, Names};
use texts::{Out, TextBuffer, WriteError};

/// A part of a line. It holds no reference, so that a list can have parts of any lifetime.
#[derive(Clone, Copy)]
pub(crate) enum Part {
    Word(Word),
    /// A number in decimal.
    Number(u64),
    /// A name, or nothing if there is none.
    Name(Option<Name>),
}

/// The name of the instance, if it has one.
pub(crate) fn name_part(names: &Names, instance: InstanceNo) -> Part
    ensures { part_text result ≡ name_at names.now instance }
{
    Part::Name(names.name(instance))
}

/// The name of the event's message, if there is an event.
pub(crate) fn message_part(event: &Option<Event>) -> Part
    ensures { part_text result ≡ message_at event.now }
{
    match event {
        Some(event) => Part::Name(Some(event.name())),
        None => Part::Name(None),
    }
}

fn add_part<W: Out>(text: &mut TextBuffer<'_, W>, part: &Part) -> Result<(), WriteError>
    ensures { Adds W.sink text.old text.new result (part_text part.now) }
{
    match part {
        Part::Word(word) => text.add(word_of(word)),
        Part::Number(number) => text.add_number(*number),
        Part::Name(Some(name)) => text.add(name.as_bytes()),
        Part::Name(None) => text.add(b""),
    }
}

/// Adds the parts, in order.
pub(crate) fn add_parts<W: Out>(
    text: &mut TextBuffer<'_, W>,
    parts: &[Part],
) -> Result<(), WriteError>
    ensures { Adds W.sink text.old text.new result (flat_map part_text parts.now) }
{
    for part in parts {
        add_part(text, part)?;
    }
    Ok(())
}

pub(crate) fn add_word<W: Out>(text: &mut TextBuffer<'_, W>, word: Word) -> Result<(), WriteError>
    ensures { Adds W.sink text.old text.new result (word_text word) }
{
    add_part(text, &Part::Word(word))
}

/// Adds the name of an instance and the word after it.
pub(crate) fn add_name_and<W: Out>(
    text: &mut TextBuffer<'_, W>,
    names: &Names,
    instance: InstanceNo,
    word: Word,
) -> Result<(), WriteError>
    ensures { Adds W.sink text.old text.new result (name_at names.now instance ++ word_text word) }
{
    add_parts(text, &[name_part(names, instance), Part::Word(word)])
}

/// Adds a word and the name of an instance.
pub(crate) fn add_word_and_name<W: Out>(
    text: &mut TextBuffer<'_, W>,
    word: Word,
    names: &Names,
    instance: InstanceNo,
) -> Result<(), WriteError>
    ensures { Adds W.sink text.old text.new result (word_text word ++ name_at names.now instance) }
{
    add_parts(text, &[Part::Word(word), name_part(names, instance)])
}

/// Adds a word and the name of the event's message.
pub(crate) fn add_word_and_message<W: Out>(
    text: &mut TextBuffer<'_, W>,
    word: Word,
    event: &Option<Event>,
) -> Result<(), WriteError>
    ensures { Adds W.sink text.old text.new result (word_text word ++ message_at event.now) }
{
    add_parts(text, &[Part::Word(word), message_part(event)])
}
