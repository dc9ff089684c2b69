//! Charts as text.
ghost use Rattle.std.specs.Prelude.{◌≡◌, ◌≤◌, length, All};
ghost use Rattle.chart.specs.Charts.{HasPartners};
ghost use Rattle.chart.specs.Events.{partner_of};
ghost use Rattle.std.specs.List.{flat_map};
ghost use Rattle.msc_text.specs.ChartText.{event_line, lone_line, event_text, ending, beginning};
ghost use Rattle.texts.specs.Instances.{name_at};
ghost use Rattle.msc_text.specs.ChartText.{event_lines_text, events_text, head_text, foot_text, line_text, chart_name};
ghost use Rattle.msc_text.specs.ChartText.{begin_text, end_text, chart_text};
ghost use Rattle.texts.specs.Writing.{Wrote, Adds};

use chart::{Chart, Event, InstanceNo, Keyword, Line, Name, Names};
use texts::{Out, TextBuffer, WriteError, named};

/// Adds a line of one word.
#[tactic(auto, unfolding(crate::specs::ChartText::lone_line))]
fn add_lone<W: Out>(text: &mut TextBuffer<'_, W>, word: Keyword) -> Result<(), WriteError>
    ensures { Adds W.sink text.old text.new result (lone_line word) }
{
    text.add_all(&[word.as_bytes(), b";\n"])
}

/// Adds the line that ends the coregion `before`, if there is one and the next event isn't in it.
#[tactic(auto, unfolding(crate::specs::ChartText::ending))]
fn add_ending<W: Out>(
    text: &mut TextBuffer<'_, W>,
    before: u32,
    region: u32,
) -> Result<(), WriteError>
    ensures { Adds W.sink text.old text.new result (ending before region) }
{
    if before == region || before == 0 {
        return text.add(&[]);
    }
    add_lone(text, Keyword::EndConcurrent)
}

/// Adds the line that begins the coregion `region`, if there is one and the event before isn't in it.
#[tactic(auto, unfolding(crate::specs::ChartText::beginning))]
fn add_beginning<W: Out>(
    text: &mut TextBuffer<'_, W>,
    before: u32,
    region: u32,
) -> Result<(), WriteError>
    ensures { Adds W.sink text.old text.new result (beginning before region) }
{
    if before == region || region == 0 {
        return text.add(&[]);
    }
    add_lone(text, Keyword::Concurrent)
}

/// Adds the line of a send. Each keyword is one literal with its spaces, so the line has few pieces.
#[tactic(auto, unfolding(crate::specs::ChartText::event_line, chart::specs::Keywords::spelled))]
fn add_send_line<W: Out>(
    text: &mut TextBuffer<'_, W>,
    message: Name,
    partner: Name,
) -> Result<(), WriteError>
    ensures { Adds W.sink text.old text.new result (event_line Keyword.Out message Keyword.To partner) }
{
    let (name, to) = (message.as_bytes(), partner.as_bytes());
    text.add_five(b"out ", name, b" to ", to, b";\n")
}

/// Adds the line of a receive.
#[tactic(auto, unfolding(crate::specs::ChartText::event_line, chart::specs::Keywords::spelled))]
fn add_receive_line<W: Out>(
    text: &mut TextBuffer<'_, W>,
    message: Name,
    partner: Name,
) -> Result<(), WriteError>
    ensures { Adds W.sink text.old text.new result (event_line Keyword.In message Keyword.From partner) }
{
    let (name, from) = (message.as_bytes(), partner.as_bytes());
    text.add_five(b"in ", name, b" from ", from, b";\n")
}

/// Adds the line of an event.
#[tactic(auto, unfolding(crate::specs::ChartText::event_text))]
fn add_event<W: Out>(
    text: &mut TextBuffer<'_, W>,
    names: &Names,
    event: &Event,
) -> Result<(), WriteError>
    requires { partner_of event.now ≤ length names.now }
    ensures { Adds W.sink text.old text.new result (event_text names.now event.now) }
{
    match event {
        Event::Send { to, name } => { add_send_line(text, *name, named(names, *to)) }
        Event::Receive { from, name, .. } => { add_receive_line(text, *name, named(names, *from)) }
    }
}

/// Adds an event after one in the coregion `before`. The lines that end that coregion or begin the event's own come
/// first.
#[tactic(auto, using(texts::proofs::Writes::joining), unfolding(crate::specs::ChartText::event_lines_text))]
fn add_event_lines<W: Out>(
    text: &mut TextBuffer<'_, W>,
    names: &Names,
    before: u32,
    event: &Event,
) -> Result<(), WriteError>
    requires { partner_of event.now ≤ length names.now }
    ensures { Adds W.sink text.old text.new result (event_lines_text names.now before event.now) }
{
    let region = event.region();
    add_ending(text, before, region)?;
    add_beginning(text, before, region)?;
    add_event(text, names, event)
}

/// Adds the events of a line, with the lines that begin and end its coregions.
fn add_events<W: Out>(
    text: &mut TextBuffer<'_, W>,
    names: &Names,
    events: &[Event],
) -> Result<(), WriteError>
    requires { All (λ m. partner_of m ≤ length names.now) events.now }
    ensures { Adds W.sink text.old text.new result (events_text names.now 0 events.now) }
{
    let mut before = 0;
    for event in events {
        add_event_lines(text, names, before, event)?;
        before = event.region();
    }
    add_ending(text, before, 0)
}

#[tactic(auto, unfolding(crate::specs::ChartText::head_text))]
fn add_head<W: Out>(
    text: &mut TextBuffer<'_, W>,
    names: &Names,
    instance: InstanceNo,
) -> Result<(), WriteError>
    requires { instance ≤ length names.now }
    ensures { Adds W.sink text.old text.new result (head_text names.now instance) }
{
    let name = named(names, instance);
    text.add_all(&[Keyword::Instance.as_bytes(), b" ", name.as_bytes(), b";\n"])
}

#[tactic(auto, unfolding(crate::specs::ChartText::foot_text))]
fn add_foot<W: Out>(text: &mut TextBuffer<'_, W>) -> Result<(), WriteError>
    ensures { Adds W.sink text.old text.new result foot_text }
{
    add_lone(text, Keyword::EndInstance)
}

/// Adds an instance: its first line, its events and its last line.
#[tactic(auto, using(texts::proofs::Writes::joining), unfolding(crate::specs::ChartText::line_text))]
fn add_line<W: Out>(
    text: &mut TextBuffer<'_, W>,
    names: &Names,
    line: &Line,
) -> Result<(), WriteError>
    requires instance { line.now.instance ≤ length names.now }
    requires partners { All (λ m. partner_of m ≤ length names.now) line.now.events }
    ensures { Adds W.sink text.old text.new result (line_text names.now line.now) }
{
    add_head(text, names, line.instance())?;
    add_events(text, names, line.events())?;
    add_foot(text)
}

fn add_lines<W: Out>(
    text: &mut TextBuffer<'_, W>,
    names: &Names,
    lines: &[Line],
) -> Result<(), WriteError>
    requires instances { All (λ l. l.instance ≤ length names.now) lines.now }
    requires partners { HasPartners (length names.now) lines.now }
    ensures { Adds W.sink text.old text.new result (flat_map (line_text names.now) lines.now) }
{
    for line in lines {
        add_line(text, names, line)?;
    }
    Ok(())
}

/// The name that each chart has in its text.
#[tactic(auto, unfolding(crate::specs::ChartText::chart_name))]
pub fn chart_name() -> &'static [u8]
    ensures { result.now ≡ chart_name }
{
    b"run"
}

#[tactic(auto, unfolding(crate::specs::ChartText::begin_text))]
fn add_begin<W: Out>(text: &mut TextBuffer<'_, W>) -> Result<(), WriteError>
    ensures { Adds W.sink text.old text.new result begin_text }
{
    text.add_all(&[Keyword::Msc.as_bytes(), b" ", chart_name(), b";\n"])
}

#[tactic(auto, unfolding(crate::specs::ChartText::end_text))]
fn add_end<W: Out>(text: &mut TextBuffer<'_, W>) -> Result<(), WriteError>
    ensures { Adds W.sink text.old text.new result end_text }
{
    add_lone(text, Keyword::EndMsc)
}

/// Adds the chart's text to a text that is being written. It takes no memory.
///
/// The chart has as many instances as there are names.
#[tactic(auto, using(texts::proofs::Writes::joining), unfolding(crate::specs::ChartText::chart_text))]
pub fn add_chart<W: Out>(
    text: &mut TextBuffer<'_, W>,
    names: &Names,
    chart: &Chart,
) -> Result<(), WriteError>
    requires { length names.now ≡ length chart.now }
    ensures { Adds W.sink text.old text.new result (chart_text names.now chart.now) }
{
    add_begin(text)?;
    add_lines(text, names, chart.lines())?;
    add_end(text)
}

/// Writes the chart's text and nothing else. It takes no memory. If a put fails (F24), a beginning of the text was
/// written, and no further put is tried.
///
/// The chart has as many instances as there are names.
#[tactic(auto, using(texts::proofs::Writes::joining))]
pub fn write<W: Out>(names: &Names, chart: &Chart, out: &mut W) -> Result<(), WriteError>
    requires { length names.now ≡ length chart.now }
    ensures { Wrote W.sink out.old out.new result (chart_text names.now chart.now) }
{
    let mut text = TextBuffer::new(out);
    add_chart(&mut text, names, chart)?;
    text.finish()
}
