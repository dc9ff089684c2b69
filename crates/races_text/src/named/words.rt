//! The parts of the lines of races.
ghost use Rattle.std.specs.Prelude.{◌≡◌};
ghost use Rattle.msc_text.specs.ChartText.{message_at};
ghost use Rattle.texts.specs.Instances.{name_at};
ghost use Rattle.texts.specs.Writing.{Adds};
ghost use Rattle.races_text.specs.Named.Words.{word_text, half_text, event_text, text_at};

use chart::{Event, InstanceNo, Keyword, Name, Names};
use itoa::Buffer;
use texts::{Out, TextBuffer, WriteError};

/// The texts between names and numbers.
#[derive(Clone, Copy, Debug, PartialEq, Eq)]
pub enum Word {
    /// After an instance's name.
    Colon,
    /// Between a receive and the events that it may come before.
    MayCome,
    /// Between two messages.
    Comma,
    /// Between the first and the last of more than two messages.
    Dots,
    /// After the content of a bracket.
    Close,
    /// At the end of a line.
    End,
    /// Before the name of the receive's instance, in JSON.
    Instance,
    /// Before the number of the receive, in JSON.
    Receive,
    /// Before the message of the receive, in JSON.
    Message,
    /// Before the sender of the receive's message, in JSON.
    Sender,
    /// Before the ranges of the receive's races, in JSON.
    Ranges,
    /// On both sides of a text, in JSON.
    Quote,
    /// Between two elements of a list, in JSON.
    Next,
    /// After the messages of a range, in JSON.
    EndRange,
    /// After the ranges of a receive, in JSON.
    EndObject,
}

#[tactic(auto, unfolding(crate::specs::Named::Words::word_text))]
fn word_of(word: &Word) -> &[u8]
    ensures { result.now ≡ word_text word.now }
{
    match word {
        Word::Colon => b": ",
        Word::MayCome => b" may come before ",
        Word::Comma => b", ",
        Word::Dots => b", .., ",
        Word::Close => b")",
        Word::End => b"\n",
        Word::Instance => b"{\"instance\":\"",
        Word::Receive => b"\",\"receive\":",
        Word::Message => b",\"message\":\"",
        Word::Sender => b"\",\"sender\":\"",
        Word::Ranges => b"\",\"ranges\":[",
        Word::Quote => b"\"",
        Word::Next => b",",
        Word::EndRange => b"]}",
        Word::EndObject => b"]}\n",
    }
}

/// Adds the text of a word. F24: a put failed.
pub fn add_word<W: Out>(text: &mut TextBuffer<'_, W>, word: Word) -> Result<(), WriteError>
    ensures { Adds W.sink text.old text.new result (word_text word) }
{
    text.add(word_of(&word))
}

/// Adds the name of an instance, or nothing if it has none. F24: a put failed.
pub fn add_name<W: Out>(
    text: &mut TextBuffer<'_, W>,
    names: &Names,
    instance: InstanceNo,
) -> Result<(), WriteError>
    ensures { Adds W.sink text.old text.new result (name_at names.now instance) }
{
    match names.name(instance) {
        Some(name) => text.add(name.as_bytes()),
        None => text.add(b""),
    }
}

/// Adds `MESSAGE (INDEX, from ` or `MESSAGE (INDEX, to `.
#[tactic(auto, unfolding(crate::specs::Named::Words::half_text))]
fn add_half<W: Out>(
    text: &mut TextBuffer<'_, W>,
    message: Name,
    index: u32,
    side: Keyword,
) -> Result<(), WriteError>
    ensures { Adds W.sink text.old text.new result (half_text message index side) }
{
    let mut buffer = Buffer::new();
    let digits = buffer.format(index).as_bytes();
    text.add_all(&[
        message.as_bytes(),
        b" (",
        digits,
        b", ",
        side.as_bytes(),
        b" ",
    ])
}

/// Adds `MESSAGE (INDEX, from NAME)` or `MESSAGE (INDEX, to NAME)`.
#[tactic(auto, using(texts::proofs::Writes::joining), unfolding(crate::specs::Named::Words::event_text))]
fn add_event<W: Out>(
    text: &mut TextBuffer<'_, W>,
    names: &Names,
    index: u32,
    event: &Event,
) -> Result<(), WriteError>
    ensures { Adds W.sink text.old text.new result (event_text names.now index event.now) }
{
    match event {
        Event::Send { to, name } => {
            add_half(text, *name, index, Keyword::To)?;
            add_name(text, names, *to)?;
            add_word(text, Word::Close)
        }
        Event::Receive { from, name, .. } => {
            add_half(text, *name, index, Keyword::From)?;
            add_name(text, names, *from)?;
            add_word(text, Word::Close)
        }
    }
}

/// Adds `MESSAGE (INDEX, from NAME)` or `MESSAGE (INDEX, to NAME)`, or nothing without an event. F24: a put failed.
pub fn add_event_at<W: Out>(
    text: &mut TextBuffer<'_, W>,
    names: &Names,
    index: u32,
    event: &Option<Event>,
) -> Result<(), WriteError>
    ensures { Adds W.sink text.old text.new result (text_at names.now index event.now) }
{
    match event {
        Some(event) => add_event(text, names, index, event),
        None => text.add(b""),
    }
}

/// Adds the name of an event's message, or nothing without an event.
pub(crate) fn add_message_at<W: Out>(
    text: &mut TextBuffer<'_, W>,
    event: &Option<Event>,
) -> Result<(), WriteError>
    ensures { Adds W.sink text.old text.new result (message_at event.now) }
{
    match event {
        Some(event) => {
            let message = event.name();
            text.add(message.as_bytes())
        }
        None => text.add(b""),
    }
}
