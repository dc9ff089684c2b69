//! The races of a chart, receive by receive.
ghost use Rattle.std.specs.Prelude.{◌≡◌, ◌≤◌, ◌||◌, [], length, nat_eq, All, IfOk, IfSome};
ghost use Rattle.std.specs.List.{list_any};
ghost use Rattle.chart.specs.Charts.{at, chart_lines, IsPossible};
ghost use Rattle.chart.specs.Ranges.{IsRange, events_in};
ghost use Rattle.chart.specs.Reports.{ReportView, IsReportIn};
ghost use Rattle.closure.specs.Reported.{HaveReported};
ghost use Rattle.texts.specs.Writing.{Adds};
ghost use Rattle.races_text.specs.Named.Kept.{kept_ranges};
ghost use Rattle.shown_races.specs.Kept.{later_than};
ghost use Rattle.races_text.specs.Named.Listing.{ranges_text, has_ranges, manner_of, shown_of, report_text, HasAdded};
ghost use Rattle.races_text.specs.Named.Listing.{HasWritten};
ghost use Rattle.shown_races.specs.Selected.{IsPassed, IsSelectedOf};

use crate::named::kept::KeptRanges;
use crate::named::{json, plain};
use chart::line_events::events_of;
use chart::{Event, EventNo, EventRange, InstanceNo, Line, Names};
use closure::Reporter;
use reordering::completion::Completion;
use texts::{Out, TextBuffer, WriteError};

/// The form in which races are written.
#[derive(Clone, Copy, Debug, PartialEq, Eq)]
pub enum Form {
    /// A line for each range.
    Plain,
    /// A line with a JSON object for each receive.
    Json,
}

/// A query for races: which of them are written, and in which form.
#[derive(Clone, Copy)]
pub struct RaceQuery<'a> {
    pub names: &'a Names,
    pub lines: &'a [Line],
    /// The instances whose races are written.
    pub only: &'a [InstanceNo],
    /// Whether only receives are shown as earlier events.
    pub receives: bool,
    /// The completion of the chart, if its instances are assumed to run to completion. Then only the races that remain
    /// are written.
    pub completion: Option<&'a Completion<'a>>,
    pub form: Form,
}

/// Whether the instance is one of these.
pub fn is_among(instance: InstanceNo, only: &[InstanceNo]) -> bool
    ensures { result ≡ list_any (nat_eq instance) only.now }
{
    only.iter().any(|asked| instance == *asked)
}

/// Whether one of the two holds.
pub fn either(first: bool, second: bool) -> bool
    ensures { result ≡ (first || second) }
{
    first || second
}

/// Adds the ranges of a receive's races. It returns whether there are any.
fn add_ranges<W: Out>(
    text: &mut TextBuffer<'_, W>,
    selected: &RaceQuery<'_>,
    events: &[Event],
    receive: EventNo,
    ranges: KeptRanges<'_>,
) -> Result<bool, WriteError>
    ensures added { Adds W.sink text.old text.new result
        (ranges_text selected.now.form selected.now.names.now events.now receive ranges.entry) }
    ensures has { IfOk result (λ has. has ≡ has_ranges ranges.entry) }
{
    match selected.form {
        Form::Plain => plain::add_lines(text, selected.names, events, &receive, ranges),
        Form::Json => json::add_ranges(text, selected.names, events, &receive, ranges),
    }
}

/// The number of the last send of a receive's line that run to completion puts before the receive, or 0 if there is
/// none. Events up to this number aren't shown as races of the receive. Without `completion` it is 0.
pub fn passed_by(selected: &RaceQuery<'_>, receive: &EventNo, earlier: &[EventRange]) -> u32
    requires report { IsReportIn (chart_lines selected.now.lines.now)
        (record { receive = receive.now; earlier = events_in earlier.now }) }
    requires ranges { All IsRange earlier.now }
    requires completion { IfSome selected.now.completion (λ completion. completion.now ≡ selected.now.lines.now) }
    ensures { IsPassed (manner_of selected.now).completed (chart_lines selected.now.lines.now)
        (at receive.now.instance receive.now.index) result }
{
    match selected.completion {
        Some(completion) => completion.finished_before(receive, earlier),
        None => 0,
    }
}

/// Adds the text of a receive's races with the events of these ranges whose numbers are above `passed`. It returns
/// whether one is shown.
fn add_later<W: Out>(
    text: &mut TextBuffer<'_, W>,
    selected: &RaceQuery<'_>,
    receive: EventNo,
    passed: u32,
    earlier: &[EventRange],
) -> Result<bool, WriteError>
    requires { All IsRange earlier.now }
    ensures added { Adds W.sink text.old text.new result (report_text (manner_of selected.now) selected.now.names.now
        selected.now.lines.now (record { receive = receive; earlier = later_than passed (events_in earlier.now) })) }
    ensures has { IfOk result (λ has. has ≡ has_ranges (shown_of (manner_of selected.now) selected.now.lines.now
        (record { receive = receive; earlier = later_than passed (events_in earlier.now) }))) }
{
    let events = events_of(selected.lines, receive.instance);
    if is_among(receive.instance, selected.only) {
        let ranges = KeptRanges::of(events, selected.receives, passed, earlier);
        add_ranges(text, selected, events, receive, ranges)
    } else {
        let ranges = KeptRanges::of(events, selected.receives, passed, &[]);
        add_ranges(text, selected, events, receive, ranges)
    }
}

/// Adds the text of a receive's report, as far as the query selects it. It returns whether a race is shown.
fn add_report<W: Out>(
    text: &mut TextBuffer<'_, W>,
    selected: &RaceQuery<'_>,
    receive: EventNo,
    earlier: &[EventRange],
) -> Result<bool, WriteError>
    requires report { IsReportIn (chart_lines selected.now.lines.now)
        (record { receive = receive; earlier = events_in earlier.now }) }
    requires ranges { All IsRange earlier.now }
    requires completion { IfSome selected.now.completion (λ completion. completion.now ≡ selected.now.lines.now) }
    ensures { (shown : ReportView) × IsSelectedOf (manner_of selected.now).completed (chart_lines selected.now.lines.now)
        (record { receive = receive; earlier = events_in earlier.now }) shown
        × Adds W.sink text.old text.new result
        (report_text (manner_of selected.now) selected.now.names.now selected.now.lines.now shown)
        × IfOk result (λ has. has ≡ has_ranges (shown_of (manner_of selected.now) selected.now.lines.now shown)) }
{
    let passed = passed_by(selected, &receive, earlier);
    add_later(text, selected, receive, passed, earlier)
}

/// Adds the text of each receive's races as they are found. It returns whether one is shown.
fn add_found<W: Out>(
    text: &mut TextBuffer<'_, W>,
    selected: &RaceQuery<'_>,
    reporter: Reporter<'_>,
) -> Result<bool, WriteError>
    requires reporter { HaveReported reporter.lines reporter.line reporter.place [] }
    requires lines { selected.now.lines.now ≡ reporter.lines }
    requires possible { IsPossible (length selected.now.lines.now) (chart_lines selected.now.lines.now) }
    requires completion { IfSome selected.now.completion (λ completion. completion.now ≡ selected.now.lines.now) }
    ensures { HasAdded W.sink text.old text.new (manner_of selected.now) selected.now.names.now selected.now.lines.now result }
{
    let mut reporter = reporter;
    let mut has_races = false;
    while let Some(receive) = reporter.next() {
        let has = add_report(text, selected, receive, reporter.earlier())?;
        has_races = either(has_races, has);
    }
    Ok(has_races)
}

/// Writes the races that a reporter finds in the chart with these lines. It returns whether one is shown. It takes no
/// memory. F24: a put failed.
#[tactic(auto, using(texts::proofs::Writes::joining, crate::proofs::NamedLemmas::FoundRaces::wrote_less, crate::proofs::NamedLemmas::FoundRaces::vacuous))]
pub fn write_races<W: Out>(
    selected: &RaceQuery<'_>,
    reporter: Reporter<'_>,
    out: &mut W,
) -> Result<bool, WriteError>
    requires reporter { HaveReported reporter.lines reporter.line reporter.place [] }
    requires lines { selected.now.lines.now ≡ reporter.lines }
    requires possible { IsPossible (length selected.now.lines.now) (chart_lines selected.now.lines.now) }
    requires completion { IfSome selected.now.completion (λ completion. completion.now ≡ selected.now.lines.now) }
    ensures { HasWritten W.sink out.old out.new (manner_of selected.now) selected.now.names.now selected.now.lines.now result }
{
    let mut text = TextBuffer::new(out);
    let has_races = add_found(&mut text, selected, reporter)?;
    text.finish()?;
    Ok(has_races)
}
