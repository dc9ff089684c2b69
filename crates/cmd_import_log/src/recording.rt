//! The recording of a log: its chart, and what the log declares about choices and arrivals.
ghost use Rattle.std.specs.Prelude.{◌≡◌, ◌≤◌, length, map, All, IfOk};
ghost use Rattle.chart.specs.Charts.{chart_lines, IsNumbered, IsPossible};
ghost use Rattle.log_lines.specs.Events.{logged_event_view};
ghost use Rattle.log_lines.specs.Names.Naming.{named_view};
ghost use Rattle.log_lines.specs.Takes.Observations.{observations_view};
ghost use Rattle.log_chart.specs.Entries.{HaveStreams};
ghost use Rattle.race_verdicts.specs.Luck.Recorded.{IsRecording};
ghost use Rattle.race_verdicts.specs.Recordings.{recording_view};
ghost use Rattle.cmd_import_log.specs.Options.{Pattern, form_view, options_view};
ghost use Rattle.cmd_import_log.specs.Reading.{IsKept};
ghost use Rattle.cmd_import_log.specs.Recording.{lent_of, is_known, Observes, arrivals_of, IsRecorded, RecordsNamed, Records};

use crate::error::LogImportError;
use crate::imported::{Beside, ImportedLog, Settled, settled_of};
use crate::messages::messages_in;
use crate::options::{Form, Options};
use crate::reading::ReadLog;
use log_chart::{Entry, HostLine, HostLines, LogLine, host_lines};
use log_formats::patterns::{Expression, observed_by};
use log_lines::LoggedEvent;
use log_lines::names::{NamedLog, named};
use log_lines::takes::{Arrived, Observations, arrivals_in, keys_in, read_observed, words_in};
use race_verdicts::{Arrival, LineWords, Recording, Taken};
use std::alloc::{AllocError, Global};

/// The chart of a log with its warnings, and what the log declares about choices and arrivals.
#[derive(Drop)]
pub struct LogRecording<'a> {
    pub imported: ImportedLog,
    /// The log's lines. Each receive has the send that it takes.
    pub lines: Vec<LogLine>,
    /// The events of each host, as the chart has them.
    pub hosts: Vec<HostLine>,
    /// The words of each line.
    pub words: Vec<LineWords<'a>>,
    /// What receives would have taken, in the order of their lines.
    pub taken: Vec<Taken<'a>>,
    /// The arrivals, in the order of the log.
    pub arrivals: Vec<Arrival>,
    /// Whether its lines are in the order in which their hosts had the events. Then luck is known.
    pub is_known: bool,
}

impl<'a> LogRecording<'a> {
    /// The recording.
    pub fn recording(&self) -> Recording<'_>
        ensures { recording_view result ≡ lent_of self.now }
    {
        Recording {
            lines: &self.lines,
            hosts: &self.hosts,
            words: &self.words,
            taken: &self.taken,
            arrivals: &self.arrivals,
        }
    }
}

/// What the texts declare beside messages, if an expression reads them.
fn observed_by_pattern<'a>(
    alloc: Global,
    options: &Options<'a>,
    expression: &Option<Expression>,
    pattern: &str,
    texts: &[&'a [u8]],
) -> Result<Observations<'a>, AllocError>
    requires { IsKept (Pattern pattern.now) expression.now }
    ensures { IfOk result (λ observed. Observes (Pattern pattern.now) (options_view options.now) (map (λ text. text.now) texts.now) (observations_view observed)) }
{
    match expression {
        Some(expression) => { observed_by(alloc, expression, options.peers, options.range, texts) }
        None => Ok(Observations::new(alloc)),
    }
}

/// What the texts declare beside messages, in plain words or by an expression.
fn observed_of<'a>(
    alloc: Global,
    options: &Options<'a>,
    expression: &Option<Expression>,
    texts: &[&'a [u8]],
) -> Result<Observations<'a>, AllocError>
    requires { IsKept (options_view options.now).form expression.now }
    ensures { IfOk result (λ observed. Observes (options_view options.now).form (options_view options.now) (map (λ text. text.now) texts.now) (observations_view observed)) }
{
    match options.form {
        Form::Plain => read_observed(alloc, options.peers, options.range, texts),
        Form::Pattern(pattern) => observed_by_pattern(alloc, options, expression, pattern, texts),
        Form::ShiViz => Ok(Observations::new(alloc)),
    }
}

/// Whether luck is known for a log of this form, with these other contents.
fn is_known(form: Form<'_>, beside: Beside) -> bool
    ensures { result ≡ is_known (form_view form.entry) beside }
{
    match form {
        Form::Plain | Form::Pattern(_) => !beside.is_captured && !beside.is_timed,
        Form::ShiViz => false,
    }
}

/// The arrivals of a log with these events and entries.
fn arrivals_of<'a>(
    alloc: Global,
    options: &Options<'a>,
    logged: &[LoggedEvent<'a>],
    entries: &[Entry],
    observed: &Observations<'a>,
) -> Result<Vec<Arrival>, AllocError>
    ensures { IfOk result (λ arrivals. arrivals.items
        ≡ arrivals_of (options_view options.now) (map logged_event_view logged.now) entries.now (observations_view observed.now)) }
{
    let keys = keys_in(alloc, options.peers, logged)?;
    arrivals_in(alloc, &keys, entries, &observed.arrived)
}

/// The recording of a log with these events, whose entries are settled.
fn recorded<'a>(
    alloc: Global,
    options: &Options<'a>,
    logged: &[LoggedEvent<'a>],
    settled: Settled,
    observed: Observations<'a>,
    is_known: bool,
) -> Result<LogRecording<'a>, AllocError>
    requires streams { HaveStreams settled.entries.items }
    ensures imported { IfOk result (λ r. r.imported ≡ settled.imported) }
    ensures recorded { IfOk result (IsRecorded (options_view options.now) (map logged_event_view logged.now) settled.entries.items (observations_view observed.entry)) }
    ensures known { IfOk result (λ r. r.is_known ≡ is_known) }
{
    let Settled { imported, entries } = settled;
    let arrivals = arrivals_of(alloc, options, logged, &entries, &observed)?;
    let words = words_in(alloc, options.peers, logged)?;
    let HostLines {
        matched,
        fates,
        given,
        lines,
    } = host_lines(alloc, imported.diagnostics.names.len(), &entries)?;
    Ok(LogRecording {
        imported,
        lines: matched,
        hosts: lines,
        words,
        taken: observed.taken,
        arrivals,
        is_known,
    })
}

/// The recording of these lines and events, with these declarations.
fn recording_of<'a>(
    alloc: Global,
    options: &Options<'a>,
    beside: Beside,
    logged: &[LoggedEvent<'a>],
    named: &NamedLog,
    observed: Observations<'a>,
) -> Result<LogRecording<'a>, LogImportError>
    ensures records { RecordsNamed result beside (named_view named.now) (options_view options.now) (map logged_event_view logged.now) (observations_view observed.entry) }
    ensures named { IfOk result (λ r. length r.imported.diagnostics.names ≡ length r.imported.chart) }
    ensures invented { IfOk result (λ r. All (λ e. e.instance ≤ length r.imported.diagnostics.names) r.imported.diagnostics.invented.items) }
{
    let settled = settled_of(alloc, beside, named)?;
    let is_known = is_known(options.form, beside);
    Ok(recorded(alloc, options, logged, settled, observed, is_known)?)
}

/// The recording of a log's texts. Its chart is that of [`imported_log`](crate::imported_log). There is no recording
/// exactly if there is no chart.
///
/// F39 refuses an invalid expression, F38 texts without a message, and F51 texts without a receive. F8, F13 and F7
/// then refuse a log without a chart. F6 is possible at any point.
pub fn recording_in<'a>(
    alloc: Global,
    options: Options<'a>,
    texts: &[&'a [u8]],
) -> Result<LogRecording<'a>, LogImportError>
    ensures records { Records result (options_view options.entry) (map (λ text. text.now) texts.now) }
    ensures named { IfOk result (λ r. length r.imported.diagnostics.names ≡ length r.imported.chart) }
    ensures invented { IfOk result (λ r. All (λ e. e.instance ≤ length r.imported.diagnostics.names) r.imported.diagnostics.invented.items) }
    ensures possible { IfOk result (λ r. IsPossible (length r.imported.chart) (chart_lines r.imported.chart)) }
    ensures keeps { IfOk result (λ r. IsRecording r.imported.chart (lent_of r)) }
    ensures numbered { IfOk result (λ r. IsNumbered r.imported.chart) }
{
    let ReadLog {
        read,
        lines,
        is_captured,
        is_timed,
        expression,
    } = messages_in(alloc, &options, texts)?;
    let named = named(alloc, options.hosts, options.peers, &read.logged)?;
    let observed = observed_of(alloc, &options, &expression, texts)?;
    let beside = Beside {
        lines,
        others: read.others,
        is_captured,
        is_timed,
        misspelled: observed.misspelled,
    };
    recording_of(alloc, &options, beside, &read.logged, &named, observed)
}
