//! The races of a recording, receive by receive.
ghost use Rattle.std.specs.Prelude.{◌≡◌, List, [], length, All, IfOk, IfSome};
ghost use Rattle.chart.specs.Charts.{chart_lines, IsPossible};
ghost use Rattle.chart.specs.Ranges.{IsRange, events_in};
ghost use Rattle.chart.specs.Reports.{ReportView, IsReportIn};
ghost use Rattle.chart.specs.declared.instance.EventNo.{EventNo};
ghost use Rattle.closure.specs.Reported.{HaveReported};
ghost use Rattle.texts.specs.Writing.{Adds};
ghost use Rattle.shown_races.specs.Kept.{later_than};
ghost use Rattle.races_text.specs.Named.Listing.{manner_of};
ghost use Rattle.shown_races.specs.Selected.{IsSelectedOf};
ghost use Rattle.races_text.specs.Judged.Parts.{Judges, is_shown, shown_parts};
ghost use Rattle.races_text.specs.Judged.Summaries.{summary_of_parts, summary_with};
ghost use Rattle.races_text.specs.Judged.Listing.{PartedReport, first_text, later_text, ended_text, begun_text, parts_text, added_text};
ghost use Rattle.races_text.specs.declared.judged.part.Part.{Part};
ghost use Rattle.races_text.specs.Judged.Listing.{IsRaceIn, HasParted, luck_manner, selected_events, report_text, HasAdded, HasWritten};

use crate::judged::part::Part;
use crate::judged::parts::{next_part, parts_of};
use crate::judged::summary::RaceSummary;
use crate::judged::verdicts::{Verdicts, may_be_luck};
use crate::judged::{json, plain};
use crate::named::{Form, KeptEvents, RaceQuery, Word, add_word, is_among, passed_by};
use chart::line_events::events_of;
use chart::{Event, EventNo, EventRange};
use closure::Reporter;
use texts::{Out, TextBuffer, WriteError};

/// A query for races with their words: all of them, or only those that were luck or may have been.
pub struct VerdictQuery<'a, V> {
    pub query: RaceQuery<'a>,
    pub verdicts: &'a V,
    /// Whether only races are shown that were luck or may have been.
    pub luck: bool,
}

impl<V> Drop for VerdictQuery<'_, V> {
    fn drop(self) {
        let VerdictQuery {
            query: _,
            verdicts: _,
            luck: _,
        } = self;
    }
}

/// Adds the first shown range of a receive.
fn add_first<W: Out>(
    text: &mut TextBuffer<'_, W>,
    query: &RaceQuery<'_>,
    receive: &EventNo,
    events: &[Event],
    part: &Part,
) -> Result<(), WriteError>
    requires { IsRange part.now.range }
    ensures { Adds W.sink text.old text.new result
        (first_text query.now.form query.now.names.now events.now receive.now part.now) }
{
    match query.form {
        Form::Plain => plain::add_line(text, query.names, events, receive, part),
        Form::Json => json::add_front(text, query.names, events, receive, part),
    }
}

/// Adds a later range of the same receive.
fn add_later<W: Out>(
    text: &mut TextBuffer<'_, W>,
    query: &RaceQuery<'_>,
    receive: &EventNo,
    events: &[Event],
    part: &Part,
) -> Result<(), WriteError>
    requires { IsRange part.now.range }
    ensures { Adds W.sink text.old text.new result
        (later_text query.now.form query.now.names.now events.now receive.now part.now) }
{
    match query.form {
        Form::Plain => plain::add_line(text, query.names, events, receive, part),
        Form::Json => json::add_next(text, events, part),
    }
}

/// Adds the end after the last range, if there are ranges.
fn add_end<W: Out>(text: &mut TextBuffer<'_, W>, form: Form, has: bool) -> Result<(), WriteError>
    ensures { Adds W.sink text.old text.new result (ended_text form has) }
{
    if !has {
        return text.add(b"");
    }
    match form {
        Form::Plain => text.add(b""),
        Form::Json => add_word(text, Word::EndObject),
    }
}

/// Whether a part is shown: any part, or with `luck` only a part that was luck or may have been.
fn is_shown(luck: bool, part: &Part) -> bool
    ensures { result ≡ is_shown luck part.now }
{
    if luck {
        may_be_luck(part.verdict)
    } else {
        true
    }
}

/// Adds a range, if it is shown, after the ranges so far with this summary. It returns the summary of all.
fn add_shown<W: Out>(
    text: &mut TextBuffer<'_, W>,
    query: &RaceQuery<'_>,
    luck: bool,
    receive: &EventNo,
    events: &[Event],
    part: &Part,
    summary: &RaceSummary,
) -> Result<RaceSummary, WriteError>
    requires { IsRange part.now.range }
    ensures added { Adds W.sink text.old text.new result
        (added_text query.now.form query.now.names.now events.now receive.now luck summary.now.shown part.now) }
    ensures summary { IfOk result (λ more. more ≡ summary_with summary.now (is_shown luck part.now) part.now.verdict) }
{
    if !is_shown(luck, part) {
        return Ok(summary.more(false, part.verdict));
    }
    if summary.shown {
        add_later(text, query, receive, events, part)?;
    } else {
        add_first(text, query, receive, events, part)?;
    }
    Ok(summary.more(true, part.verdict))
}

/// Adds the shown ranges of these events, without the end. It returns the summary of all ranges.
fn add_begun<W: Out, V: Verdicts>(
    text: &mut TextBuffer<'_, W>,
    query: &VerdictQuery<'_, V>,
    receive: &EventNo,
    events: &[Event],
    kept: KeptEvents<'_>,
) -> Result<RaceSummary, WriteError>
    requires { All (V.is_race query.now.verdicts.now receive.now) kept }
    ensures { (parts : List Part) × Judges (V.is_verdict query.now.verdicts.now receive.now) kept.entry result parts
        × Adds W.sink text.old text.new result (begun_text query.now.query.form query.now.query.names.now
        events.now receive.now (shown_parts query.now.luck parts))
        × IfOk result (λ summary. summary ≡ summary_of_parts query.now.luck parts) }
{
    let mut left = parts_of(query.verdicts, receive, kept);
    let mut summary = RaceSummary::none();
    while let Some(part) = next_part(query.verdicts, receive, &mut left) {
        summary = add_shown(
            text,
            &query.query,
            query.luck,
            receive,
            events,
            &part,
            &summary,
        )?;
    }
    Ok(summary)
}

/// Adds the shown ranges of these events. It returns the summary of all ranges.
fn add_parts<W: Out, V: Verdicts>(
    text: &mut TextBuffer<'_, W>,
    query: &VerdictQuery<'_, V>,
    receive: &EventNo,
    events: &[Event],
    kept: KeptEvents<'_>,
) -> Result<RaceSummary, WriteError>
    requires { All (V.is_race query.now.verdicts.now receive.now) kept }
    ensures { (parts : List Part) × Judges (V.is_verdict query.now.verdicts.now receive.now) kept.entry result parts
        × Adds W.sink text.old text.new result (parts_text query.now.query.form query.now.query.names.now
        events.now receive.now (shown_parts query.now.luck parts))
        × IfOk result (λ summary. summary ≡ summary_of_parts query.now.luck parts) }
{
    let summary = add_begun(text, query, receive, events, kept)?;
    add_end(text, query.query.form, summary.shown)?;
    Ok(summary)
}

/// The earlier events of a receive that are listed. They are in these ranges, and their numbers are above `passed`.
fn selected_events<'a>(
    query: &RaceQuery<'a>,
    receive: &EventNo,
    passed: u32,
    earlier: &'a [EventRange],
) -> KeptEvents<'a>
    requires { All IsRange earlier.now }
    ensures { result ≡ selected_events (manner_of query.now) query.now.lines.now
        (record { receive = receive.now; earlier = later_than passed (events_in earlier.now) }) }
{
    let events = events_of(query.lines, receive.instance);
    if is_among(receive.instance, query.only) {
        KeptEvents::of(events, query.receives, passed, earlier)
    } else {
        KeptEvents::of(events, query.receives, passed, &[])
    }
}

/// Adds the ranges of a receive's races with the events of these ranges whose numbers are above `passed`. It returns
/// their summary.
fn add_selected<W: Out, V: Verdicts>(
    text: &mut TextBuffer<'_, W>,
    query: &VerdictQuery<'_, V>,
    receive: &EventNo,
    passed: u32,
    earlier: &[EventRange],
) -> Result<RaceSummary, WriteError>
    requires ranges { All IsRange earlier.now }
    requires races { All (V.is_race query.now.verdicts.now receive.now) (events_in earlier.now) }
    ensures { (parted : PartedReport) × HasParted (V.is_verdict query.now.verdicts.now) (manner_of query.now.query)
        query.now.query.lines.now (record { receive = receive.now; earlier = later_than passed (events_in earlier.now) }) result parted
        × Adds W.sink text.old text.new result
        (report_text (luck_manner query.now) query.now.query.names.now query.now.query.lines.now parted)
        × IfOk result (λ summary. summary ≡ summary_of_parts query.now.luck parted.parts) }
{
    let kept = selected_events(&query.query, receive, passed, earlier);
    let events = events_of(query.query.lines, receive.instance);
    add_parts(text, query, receive, events, kept)
}

/// Adds the text of a receive's report, as far as the query selects it. It returns the summary of its races.
fn add_report<W: Out, V: Verdicts>(
    text: &mut TextBuffer<'_, W>,
    query: &VerdictQuery<'_, V>,
    receive: EventNo,
    earlier: &[EventRange],
) -> Result<RaceSummary, WriteError>
    requires report { IsReportIn (chart_lines query.now.query.lines.now)
        (record { receive = receive; earlier = events_in earlier.now }) }
    requires ranges { All IsRange earlier.now }
    requires races { All (V.is_race query.now.verdicts.now receive) (events_in earlier.now) }
    requires completion { IfSome query.now.query.completion (λ completion. completion.now ≡ query.now.query.lines.now) }
    ensures { (shown : ReportView) × IsSelectedOf (manner_of query.now.query).completed (chart_lines query.now.query.lines.now)
        (record { receive = receive; earlier = events_in earlier.now }) shown
        × (parted : PartedReport) × HasParted (V.is_verdict query.now.verdicts.now) (manner_of query.now.query)
        query.now.query.lines.now shown result parted
        × Adds W.sink text.old text.new result
        (report_text (luck_manner query.now) query.now.query.names.now query.now.query.lines.now parted)
        × IfOk result (λ summary. summary ≡ summary_of_parts query.now.luck parted.parts) }
{
    let passed = passed_by(&query.query, &receive, earlier);
    add_selected(text, query, &receive, passed, earlier)
}

/// Adds the text of each receive's races as they are found. It returns the summary of all.
fn add_found<W: Out, V: Verdicts>(
    text: &mut TextBuffer<'_, W>,
    query: &VerdictQuery<'_, V>,
    reporter: Reporter<'_>,
) -> Result<RaceSummary, WriteError>
    requires reporter { HaveReported reporter.lines reporter.line reporter.place [] }
    requires lines { query.now.query.lines.now ≡ reporter.lines }
    requires possible { IsPossible (length query.now.query.lines.now) (chart_lines query.now.query.lines.now) }
    requires completion { IfSome query.now.query.completion (λ completion. completion.now ≡ query.now.query.lines.now) }
    requires races { (r e : EventNo) → IsRaceIn query.now.query.lines.now r e
        → V.is_race query.now.verdicts.now r e }
    ensures { HasAdded W.sink text.old text.new (V.is_verdict query.now.verdicts.now) (luck_manner query.now)
        query.now.query.names.now query.now.query.lines.now result }
{
    let mut reporter = reporter;
    let mut summary = RaceSummary::none();
    while let Some(receive) = reporter.next() {
        let more = add_report(text, query, receive, reporter.earlier())?;
        summary = summary.either(&more);
    }
    Ok(summary)
}

/// Writes the races that a reporter finds in the chart with these lines, each range with its word, or only those
/// that were luck or may have been. It returns their summary: whether one is shown, whether there is one, and whether
/// one isn't begun in the middle. It takes no memory. F24: a put failed.
#[tactic(auto, using(texts::proofs::Writes::joining, crate::proofs::NamedLemmas::FoundRaces::wrote_less, crate::proofs::NamedLemmas::FoundRaces::vacuous))]
pub fn write_luck<W: Out, V: Verdicts>(
    query: &VerdictQuery<'_, V>,
    reporter: Reporter<'_>,
    out: &mut W,
) -> Result<RaceSummary, WriteError>
    requires reporter { HaveReported reporter.lines reporter.line reporter.place [] }
    requires lines { query.now.query.lines.now ≡ reporter.lines }
    requires possible { IsPossible (length query.now.query.lines.now) (chart_lines query.now.query.lines.now) }
    requires completion { IfSome query.now.query.completion (λ completion. completion.now ≡ query.now.query.lines.now) }
    requires races { (r e : EventNo) → IsRaceIn query.now.query.lines.now r e
        → V.is_race query.now.verdicts.now r e }
    ensures { HasWritten W.sink out.old out.new (V.is_verdict query.now.verdicts.now) (luck_manner query.now)
        query.now.query.names.now query.now.query.lines.now result }
{
    let mut text = TextBuffer::new(out);
    let summary = add_found(&mut text, query, reporter)?;
    text.finish()?;
    Ok(summary)
}
