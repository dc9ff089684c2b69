//! The text of the differences of two recordings.
ghost use Rattle.std.specs.Prelude.{◌≡◌};
ghost use Rattle.std.specs.List.{flat_map};
ghost use Rattle.chart.specs.Charts.{chart_lines};
ghost use Rattle.texts.specs.Writing.{Wrote, Adds};
ghost use Rattle.cmd_compare.specs.Comparisons.{difference_text, only_text, plain_owner, json_owner, line_text};

use crate::comparison::LineComparison;
use crate::json::{add_json_difference, add_json_only};
use crate::pairs::Difference;
use crate::plain::{add_plain_difference, add_plain_only};
use crate::word::Word;
use chart::line_events::events_of;
use chart::{Event, InstanceNo, Line, Names};
use texts::{Out, TextBuffer, WriteError};

/// The form of the text.
#[derive(Clone, Copy, Debug, PartialEq, Eq)]
pub enum Form {
    /// Words.
    Plain,
    /// JSON, one object on each line.
    Json,
}

/// The only recording that has an event.
#[derive(Clone, Copy)]
pub(crate) enum Owner {
    First,
    Second,
}

/// The names and the lines of a recording.
#[derive(Clone, Copy)]
pub(crate) struct Recording<'a> {
    pub names: &'a Names,
    pub lines: &'a [Line],
}

/// An instance's line in a recording.
#[derive(Clone, Copy)]
struct OneLine<'a> {
    names: &'a Names,
    events: &'a [Event],
    instance: InstanceNo,
}

impl<'a> Recording<'a> {
    /// The line of an instance.
    fn line(&self, instance: InstanceNo) -> OneLine<'a>
        ensures names { result.names.now ≡ self.now.names.now }
        ensures events { result.events.now ≡ chart_lines self.now.lines.now instance }
        ensures instance { result.instance ≡ instance }
    {
        OneLine {
            names: self.names,
            events: events_of(self.lines, instance),
            instance,
        }
    }
}

fn add_difference<W: Out>(
    text: &mut TextBuffer<'_, W>,
    form: Form,
    line: &OneLine<'_>,
    difference: &Difference,
) -> Result<(), WriteError>
    ensures { Adds W.sink text.old text.new result
        (difference_text form line.now.names.now line.now.events.now difference.now) }
{
    match form {
        Form::Plain => add_plain_difference(text, line.names, line.events, difference),
        Form::Json => add_json_difference(text, line.names, line.events, difference),
    }
}

fn add_differences<W: Out>(
    text: &mut TextBuffer<'_, W>,
    form: Form,
    line: &OneLine<'_>,
    differences: &[Difference],
) -> Result<(), WriteError>
    ensures { Adds W.sink text.old text.new result
        (flat_map (difference_text form line.now.names.now line.now.events.now) differences.now) }
{
    for difference in differences {
        add_difference(text, form, line, difference)?;
    }
    Ok(())
}

fn plain_owner(owner: Owner) -> Word
    ensures { result ≡ plain_owner owner }
{
    match owner {
        Owner::First => Word::OnlyFirst,
        Owner::Second => Word::OnlySecond,
    }
}

fn json_owner(owner: Owner) -> Word
    ensures { result ≡ json_owner owner }
{
    match owner {
        Owner::First => Word::FirstAlone,
        Owner::Second => Word::SecondAlone,
    }
}

fn add_only<W: Out>(
    text: &mut TextBuffer<'_, W>,
    form: Form,
    owner: Owner,
    line: &OneLine<'_>,
    index: usize,
) -> Result<(), WriteError>
    ensures { Adds W.sink text.old text.new result
        (only_text form owner line.now.names.now line.now.events.now line.now.instance index) }
{
    match form {
        Form::Plain => {
            let word = plain_owner(owner);
            add_plain_only(text, word, line.names, line.events, line.instance, index)
        }
        Form::Json => {
            let word = json_owner(owner);
            add_json_only(text, word, line.names, line.events, line.instance, index)
        }
    }
}

fn add_onlys<W: Out>(
    text: &mut TextBuffer<'_, W>,
    form: Form,
    owner: Owner,
    line: &OneLine<'_>,
    numbers: &[usize],
) -> Result<(), WriteError>
    ensures { Adds W.sink text.old text.new result
        (flat_map (only_text form owner line.now.names.now line.now.events.now line.now.instance) numbers.now) }
{
    for number in numbers {
        add_only(text, form, owner, line, *number)?;
    }
    Ok(())
}

/// Adds the differences on an instance's line.
#[tactic(auto, using(texts::proofs::Writes::joining), unfolding(crate::specs::Comparisons::line_text))]
fn add_line<W: Out>(
    text: &mut TextBuffer<'_, W>,
    form: Form,
    first: &Recording<'_>,
    second: &Recording<'_>,
    compared: &LineComparison,
) -> Result<(), WriteError>
    ensures { Adds W.sink text.old text.new result (line_text form (first.now.names.now, first.now.lines.now)
        (second.now.names.now, second.now.lines.now) compared.now) }
{
    let here = first.line(compared.instance);
    let there = second.line(compared.other);
    add_differences(text, form, &here, compared.differences.as_slice())?;
    add_onlys(
        text,
        form,
        Owner::First,
        &here,
        compared.only_here.as_slice(),
    )?;
    add_onlys(
        text,
        form,
        Owner::Second,
        &there,
        compared.only_there.as_slice(),
    )
}

fn add_lines<W: Out>(
    text: &mut TextBuffer<'_, W>,
    form: Form,
    first: &Recording<'_>,
    second: &Recording<'_>,
    lines: &[LineComparison],
) -> Result<(), WriteError>
    ensures { Adds W.sink text.old text.new result
        (flat_map (line_text form (first.now.names.now, first.now.lines.now)
        (second.now.names.now, second.now.lines.now)) lines.now) }
{
    for line in lines {
        add_line(text, form, first, second, line)?;
    }
    Ok(())
}

/// Writes the differences. It takes no memory. If a put fails (F24), a beginning of the text was written, and no other
/// put is tried.
#[tactic(auto, using(texts::proofs::Writes::joining))]
pub(crate) fn write_lines<W: Out>(
    form: Form,
    first: &Recording<'_>,
    second: &Recording<'_>,
    lines: &[LineComparison],
    out: &mut W,
) -> Result<(), WriteError>
    ensures { Wrote W.sink out.old out.new result
        (flat_map (line_text form (first.now.names.now, first.now.lines.now)
        (second.now.names.now, second.now.lines.now)) lines.now) }
{
    let mut text = TextBuffer::new(out);
    add_lines(&mut text, form, first, second, lines)?;
    text.finish()
}
