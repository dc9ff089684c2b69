//! The chart of a log, and its warnings.
ghost use Rattle.std.specs.Prelude.{◌≡◌, ◌≤◌, length, map, All, IfOk, IfErr};
ghost use Rattle.chart.specs.Charts.{chart_lines, IsPossible};
ghost use Rattle.log_chart.specs.Charts.Building.{IsLogChart, IsRefusalOf};
ghost use Rattle.log_chart.specs.Cycles.Freeing.{Settles};
ghost use Rattle.log_lines.specs.Names.Naming.{named_view};
ghost use Rattle.log_chart.specs.Entries.{HaveStreams};
ghost use Rattle.log_chart.specs.declared.entry.Entry.{Entry};
ghost use Rattle.cmd_import_log.specs.Imported.{refusal_of, IsOfAmong, AreDiagnosticsOf, IsSettled, IsRefused, ReadsNamed, ReadsLog};
ghost use Rattle.cmd_import_log.specs.Entries.{entries_in, names_in};
ghost use Rattle.cmd_import_log.specs.Options.{options_view};

use crate::alike::alike_hosts;
use crate::answers::Diagnostics;
use crate::diagnostics::{lined_hosts, lineless_hosts, overtakings_of, places_of, renamed_in};
use crate::entries::entries_in;
use crate::error::LogImportError;
use crate::messages::messages_in;
use crate::options::Options;
use crate::reading::ReadLog;
use chart::{Chart, Names};
use log_chart::Entry;
use log_chart::charts::{BuildError, LogChart, build};
use log_chart::named::Log;
use log_lines::Others;
use log_lines::names::{NamedLog, named};
use std::alloc::{AllocError, Global};
use texts::named as name_of;

/// The chart of a log, and its warnings. There is a name for each line of the chart.
#[derive(Debug, Drop)]
pub struct ImportedLog {
    pub chart: Chart,
    pub diagnostics: Diagnostics,
}

/// The refusal of a log with hosts of these names.
fn refusal(names: &Names, error: BuildError) -> LogImportError
    requires { IsOfAmong (length names.now) error }
    ensures { result ≡ refusal_of names.now error }
{
    match error {
        BuildError::Memory => LogImportError::Memory,
        BuildError::Instances => LogImportError::Instances,
        BuildError::LineFull(host) => LogImportError::LineFull(name_of(names, host)),
    }
}

/// What was read from a log, apart from its events.
#[derive(Clone, Copy, Debug)]
pub(crate) struct Beside {
    /// The number of lines that were read.
    pub lines: u64,
    pub others: Option<Others>,
    pub is_captured: bool,
    pub is_timed: bool,
    /// Receives with words that begin with `takes=` and are misspelled, if such words matter.
    pub misspelled: Option<Others>,
}

/// The chart and its warnings.
fn with_diagnostics(
    alloc: Global,
    beside: Beside,
    named: &NamedLog,
    names: Names,
    built: LogChart,
) -> Result<ImportedLog, AllocError>
    ensures diagnostics { IfOk result (λ d. AreDiagnosticsOf beside (named_view named.now) names built d.diagnostics) }
    ensures chart { IfOk result (λ d. d.chart ≡ built.chart) }
{
    let LogChart {
        chart,
        lost,
        overtaking,
        invented,
        freed,
        is_one_ended,
    } = built;
    let lineless = lineless_hosts(alloc, &named.lines, named.hosts.names())?;
    let lined = lined_hosts(alloc, &named.lines, named.hosts.names())?;
    let alike = alike_hosts(alloc, &named.lines, named.hosts.names(), &lineless)?;
    Ok(ImportedLog {
        chart,
        diagnostics: Diagnostics {
            lines: beside.lines,
            events: named.lines.len() as u64,
            lineless,
            lined,
            alike,
            others: beside.others,
            own: named.own,
            misspelled: beside.misspelled,
            is_captured: beside.is_captured,
            is_timed: beside.is_timed,
            is_one_ended,
            lost: places_of(alloc, &lost)?,
            overtaking: overtakings_of(alloc, &overtaking)?,
            freed: places_of(alloc, &freed)?,
            names,
            invented,
            hosts: renamed_in(alloc, &named.hosts)?,
            messages: renamed_in(alloc, &named.messages)?,
        },
    })
}

/// The chart of a log, its warnings, and the log's entries, with some receives freed.
#[derive(Drop)]
pub(crate) struct Settled {
    pub imported: ImportedLog,
    pub entries: Vec<Entry>,
}

/// The chart of these lines, whose hosts and messages have names, and the entries of the lines.
pub(crate) fn settled_of(
    alloc: Global,
    beside: Beside,
    named: &NamedLog,
) -> Result<Settled, LogImportError>
    ensures settled { IfOk result (IsSettled beside (named_view named.now)) }
    ensures refused { IfErr result (IsRefused (named_view named.now)) }
    ensures streams { IfOk result (λ s. HaveStreams s.entries.items) }
    ensures named { IfOk result (λ s. length s.imported.diagnostics.names ≡ length s.imported.chart) }
    ensures invented { IfOk result (λ s. All (λ e. e.instance ≤ length s.imported.diagnostics.names) s.imported.diagnostics.invented.items) }
{
    let Log { names, mut entries } = entries_in(alloc, named)?;
    let built = match build(alloc, names.len(), &mut entries) {
        Ok(built) => built,
        Err(error) => return Err(refusal(&names, error)),
    };
    let imported = with_diagnostics(alloc, beside, named, names, built)?;
    Ok(Settled { imported, entries })
}

/// The chart of these lines.
fn imported_of(
    alloc: Global,
    beside: Beside,
    named: &NamedLog,
) -> Result<ImportedLog, LogImportError>
    ensures reads { ReadsNamed result beside (named_view named.now) }
    ensures named { IfOk result (λ d. length d.diagnostics.names ≡ length d.chart) }
    ensures invented { IfOk result (λ d. All (λ e. e.instance ≤ length d.diagnostics.names) d.diagnostics.invented.items) }
{
    match settled_of(alloc, beside, named) {
        Ok(settled) => Ok(settled.imported),
        Err(error) => Err(error),
    }
}

/// The chart of the texts of a log. Some run has it.
///
/// F39 refuses an invalid expression, F38 texts without a message, and F51 texts without a receive. F8, F13 and F7
/// then refuse a log without a chart. F6 is possible at any point.
pub fn imported_log(
    alloc: Global,
    options: Options<'_>,
    texts: &[&[u8]],
) -> Result<ImportedLog, LogImportError>
    ensures reads { ReadsLog result (options_view options.entry) (map (λ text. text.now) texts.now) }
    ensures named { IfOk result (λ d. length d.diagnostics.names ≡ length d.chart) }
    ensures invented { IfOk result (λ d. All (λ e. e.instance ≤ length d.diagnostics.names) d.diagnostics.invented.items) }
{
    let ReadLog {
        read,
        lines,
        is_captured,
        is_timed,
        expression,
    } = messages_in(alloc, &options, texts)?;
    let named = named(alloc, options.hosts, options.peers, &read.logged)?;
    let beside = Beside {
        lines,
        others: read.others,
        is_captured,
        is_timed,
        misspelled: None,
    };
    imported_of(alloc, beside, &named)
}
