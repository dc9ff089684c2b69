//! The text of the lines that explain a pair of events.
ghost use Rattle.std.specs.Prelude.{◌≡◌};
ghost use Rattle.std.specs.List.{flat_map};
ghost use Rattle.chart.specs.Events.{ith};
ghost use Rattle.cmd_base.specs.Refusals.{behind_space};
ghost use Rattle.texts.specs.Instances.{name_at};
ghost use Rattle.texts.specs.Writing.{Wrote, Adds};
ghost use Rattle.cmd_base.specs.Pairs.SayingText.{hidden_text, piece_text, place_text, place_line, message_text, half_text, half_at, row_text, step_text, saying_text};

use chart::{Event, InstanceNo, Keyword, Name, Names};
use closure::chain::{Link, rule_of};
use itoa::Buffer;
use texts::{Out, TextBuffer, WriteError};

/// The line for a pair that a coregion hides.
#[tactic(auto, unfolding(crate::specs::Pairs::SayingText::hidden_text))]
pub fn hidden_text() -> &'static [u8]
    ensures { result.now ≡ hidden_text }
{
    b"a coregion hides this pair\n"
}

/// A line that explains a pair of events.
#[derive(Clone, Copy)]
pub enum Saying {
    /// The first `count` events of the instance's line come before the receive.
    Before { instance: InstanceNo, count: usize },
    /// This event of the receive's line comes before it too.
    Also { instance: InstanceNo, index: usize },
    /// The number of an event of the receive's line, and the number of the event that may take its place.
    Row { was: usize, may: usize },
    /// A direct step of the enforced order.
    Step { link: Link },
}

/// A fixed part at the start, in the middle or at the end of a line.
#[derive(Clone, Copy)]
enum Piece {
    Before,
    And,
    Line,
    Beside,
    Earlier,
    By,
    End,
}

#[tactic(auto, unfolding(crate::specs::Pairs::SayingText::piece_text))]
fn piece_of(piece: &Piece) -> &[u8]
    ensures { result.now ≡ piece_text piece.now }
{
    match piece {
        Piece::Before => b"before ",
        Piece::And => b"and ",
        Piece::Line => b"line ",
        Piece::Beside => b" | ",
        Piece::Earlier => b" before ",
        Piece::By => b": ",
        Piece::End => b"\n",
    }
}

fn add_piece<W: Out>(text: &mut TextBuffer<'_, W>, piece: Piece) -> Result<(), WriteError>
    ensures { Adds W.sink text.old text.new result (piece_text piece) }
{
    text.add(piece_of(&piece))
}

/// Adds the name of the instance, if it has one.
fn add_name<W: Out>(
    text: &mut TextBuffer<'_, W>,
    names: &Names,
    instance: InstanceNo,
) -> Result<(), WriteError>
    ensures { Adds W.sink text.old text.new result (name_at names.now instance) }
{
    match names.name(instance) {
        Some(name) => text.add(name.as_bytes()),
        None => text.add(b""),
    }
}

#[tactic(auto, unfolding(crate::specs::Refusals::behind_space))]
fn add_number<W: Out>(text: &mut TextBuffer<'_, W>, number: usize) -> Result<(), WriteError>
    ensures { Adds W.sink text.old text.new result (behind_space number) }
{
    let mut buffer = Buffer::new();
    let digits = buffer.format(number).as_bytes();
    text.add_all(&[b" ", digits])
}

/// `NAME NUMBER`.
#[tactic(auto, using(texts::proofs::Writes::joining), unfolding(crate::specs::Pairs::SayingText::place_text))]
fn add_place<W: Out>(
    text: &mut TextBuffer<'_, W>,
    names: &Names,
    instance: InstanceNo,
    number: usize,
) -> Result<(), WriteError>
    ensures { Adds W.sink text.old text.new result (place_text names.now instance number) }
{
    add_name(text, names, instance)?;
    add_number(text, number)
}

/// `before NAME COUNT`, or `and NAME INDEX`.
#[tactic(auto, using(texts::proofs::Writes::joining), unfolding(crate::specs::Pairs::SayingText::place_line))]
fn add_place_line<W: Out>(
    text: &mut TextBuffer<'_, W>,
    names: &Names,
    start: Piece,
    instance: InstanceNo,
    number: usize,
) -> Result<(), WriteError>
    ensures { Adds W.sink text.old text.new result (place_line names.now start instance number) }
{
    add_piece(text, start)?;
    add_place(text, names, instance, number)?;
    add_piece(text, Piece::End)
}

/// `INDEX out MESSAGE to ` or `INDEX in MESSAGE from `.
#[tactic(auto, unfolding(crate::specs::Pairs::SayingText::message_text))]
fn add_message<W: Out>(
    text: &mut TextBuffer<'_, W>,
    index: usize,
    direction: Keyword,
    message: Name,
    side: Keyword,
) -> Result<(), WriteError>
    ensures { Adds W.sink text.old text.new result (message_text index direction message side) }
{
    let mut buffer = Buffer::new();
    let digits = buffer.format(index).as_bytes();
    text.add_all(&[
        digits,
        b" ",
        direction.as_bytes(),
        b" ",
        message.as_bytes(),
        b" ",
        side.as_bytes(),
        b" ",
    ])
}

/// `INDEX out MESSAGE to NAME` or `INDEX in MESSAGE from NAME`.
#[tactic(auto, using(texts::proofs::Writes::joining), unfolding(crate::specs::Pairs::SayingText::half_text))]
fn add_half<W: Out>(
    text: &mut TextBuffer<'_, W>,
    names: &Names,
    index: usize,
    event: &Event,
) -> Result<(), WriteError>
    ensures { Adds W.sink text.old text.new result (half_text names.now index event.now) }
{
    match event {
        Event::Send { to, name } => {
            add_message(text, index, Keyword::Out, *name, Keyword::To)?;
            add_name(text, names, *to)
        }
        Event::Receive { from, name, .. } => {
            add_message(text, index, Keyword::In, *name, Keyword::From)?;
            add_name(text, names, *from)
        }
    }
}

/// The same for the event with this number. It adds nothing if the line has no such event.
fn add_half_at<W: Out>(
    text: &mut TextBuffer<'_, W>,
    names: &Names,
    events: &[Event],
    index: usize,
) -> Result<(), WriteError>
    ensures { Adds W.sink text.old text.new result (half_at names.now index (ith events.now index)) }
{
    if index == 0 {
        return text.add(b"");
    }
    match events.get(index - 1) {
        Some(event) => add_half(text, names, index, event),
        None => text.add(b""),
    }
}

/// `line INDEX EVENT | INDEX EVENT`.
#[tactic(auto, using(texts::proofs::Writes::joining), unfolding(crate::specs::Pairs::SayingText::row_text))]
fn add_row<W: Out>(
    text: &mut TextBuffer<'_, W>,
    names: &Names,
    events: &[Event],
    was: usize,
    may: usize,
) -> Result<(), WriteError>
    ensures { Adds W.sink text.old text.new result (row_text names.now events.now was may) }
{
    add_piece(text, Piece::Line)?;
    add_half_at(text, names, events, was)?;
    add_piece(text, Piece::Beside)?;
    add_half_at(text, names, events, may)?;
    add_piece(text, Piece::End)
}

/// `NAME INDEX before NAME INDEX: RULE`.
#[tactic(auto, using(texts::proofs::Writes::joining), unfolding(crate::specs::Pairs::SayingText::step_text))]
fn add_step<W: Out>(
    text: &mut TextBuffer<'_, W>,
    names: &Names,
    link: &Link,
) -> Result<(), WriteError>
    ensures { Adds W.sink text.old text.new result (step_text names.now link.now) }
{
    let earlier = link.earlier.index as usize;
    let later = link.later.index as usize;
    add_place(text, names, link.earlier.instance, earlier)?;
    add_piece(text, Piece::Earlier)?;
    add_place(text, names, link.later.instance, later)?;
    add_piece(text, Piece::By)?;
    text.add(rule_of(&link.rule))?;
    add_piece(text, Piece::End)
}

/// Adds a line. `events` has the events of a row.
fn add_saying<W: Out>(
    text: &mut TextBuffer<'_, W>,
    names: &Names,
    events: &[Event],
    saying: &Saying,
) -> Result<(), WriteError>
    ensures { Adds W.sink text.old text.new result (saying_text names.now events.now saying.now) }
{
    match saying {
        Saying::Before { instance, count } => {
            add_place_line(text, names, Piece::Before, *instance, *count)
        }
        Saying::Also { instance, index } => add_place_line(
            text,
            names,
            Piece::And,
            *instance,
            *index,
        ),
        Saying::Row { was, may } => add_row(text, names, events, *was, *may),
        Saying::Step { link } => add_step(text, names, link),
    }
}

fn add_sayings<W: Out>(
    text: &mut TextBuffer<'_, W>,
    names: &Names,
    events: &[Event],
    sayings: &[Saying],
) -> Result<(), WriteError>
    ensures { Adds W.sink text.old text.new result
        (flat_map (saying_text names.now events.now) sayings.now) }
{
    for saying in sayings {
        add_saying(text, names, events, saying)?;
    }
    Ok(())
}

/// Writes the lines. `events` has the events of the rows. It takes no memory. If a put fails (F24), a beginning of the
/// text was written, and no other put is tried.
#[tactic(auto, using(texts::proofs::Writes::joining))]
pub fn write_sayings<W: Out>(
    names: &Names,
    events: &[Event],
    sayings: &[Saying],
    out: &mut W,
) -> Result<(), WriteError>
    ensures { Wrote W.sink out.old out.new result
        (flat_map (saying_text names.now events.now) sayings.now) }
{
    let mut text = TextBuffer::new(out);
    add_sayings(&mut text, names, events, sayings)?;
    text.finish()
}

fn add_steps<W: Out>(
    text: &mut TextBuffer<'_, W>,
    names: &Names,
    links: &[Link],
) -> Result<(), WriteError>
    ensures { Adds W.sink text.old text.new result (flat_map (step_text names.now) links.now) }
{
    for link in links {
        add_step(text, names, link)?;
    }
    Ok(())
}

/// Writes a chain of direct steps, one line for each step. It takes no memory. If a put fails (F24), a beginning of the
/// text was written, and no other put is tried.
#[tactic(auto, using(texts::proofs::Writes::joining))]
pub fn write_chain<W: Out>(names: &Names, links: &[Link], out: &mut W) -> Result<(), WriteError>
    ensures { Wrote W.sink out.old out.new result (flat_map (step_text names.now) links.now) }
{
    let mut text = TextBuffer::new(out);
    add_steps(&mut text, names, links)?;
    text.finish()
}
