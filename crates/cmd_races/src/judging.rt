//! The races of a chart with the words of their verdicts, and those of a chart for which luck isn't known.
ghost use Rattle.std.specs.Prelude.{◌≡◌, length, IfSome};
ghost use Rattle.chart.specs.declared.instance.EventNo.{EventNo};
ghost use Rattle.chart.specs.Charts.{chart_lines, IsPossible};
ghost use Rattle.cmd_base.specs.Columns.Columns.{AreColumns, only_of};
ghost use Rattle.races_text.specs.Judged.Listing.{IsRaceIn};
ghost use Rattle.shown_races.specs.Selected.{is_there};
ghost use Rattle.cmd_races.specs.Judging.{ShowsJudged, IsLuckRefused, ShowsUnknown};

use crate::showing::{Wanted, show_chart};
use chart::{Chart, InstanceNo, Names};
use closure::Closure;
use cmd_base::columns::{ColumnError, columns_in};
use cmd_base::{ProgramError, Status};
use races_text::judged::{RaceSummary, VerdictQuery, Verdicts, write_luck};
use races_text::named::RaceQuery;
use reordering::completion::Completion;
use std::alloc::{AllocError, Global};
use texts::Out;

/// The selection of a recording's races, and their form.
#[derive(Clone, Copy, Debug)]
pub struct LuckWanted<'a> {
    pub races: Wanted<'a>,
    /// Whether only races are shown that were luck or may have been.
    pub luck: bool,
}

/// Writes the races of these instances of a possible chart with the words of their verdicts. With a completion it
/// writes those that are left when instances finish. It allocates all memory before it writes the first byte.
fn show_selected<W: Out, V: Verdicts>(
    names: &Names,
    closure: &Closure<'_>,
    instances: &[InstanceNo],
    wanted: &LuckWanted<'_>,
    completion: Option<&Completion<'_>>,
    verdicts: &V,
    out: &mut W,
) -> Result<RaceSummary, ColumnError>
    requires instances { AreColumns names.now (only_of wanted.now.races.only) instances.now }
    requires possible { IsPossible (length closure.now) (chart_lines closure.now) }
    requires lines { IfSome completion (λ completion. completion.now ≡ closure.now) }
    requires asked { is_there completion ≡ wanted.now.races.run_to_completion }
    requires races { (r e : EventNo) → IsRaceIn closure.now r e → V.is_race verdicts.now r e }
    ensures { ShowsJudged W.sink (V.is_verdict verdicts.now) out.old out.new result wanted.now (names.now, closure.now) }
{
    let reporter = match closure.reporter() {
        Ok(reporter) => reporter,
        Err(AllocError) => return Err(ColumnError::Program(ProgramError::Memory)),
    };
    let query = VerdictQuery {
        query: RaceQuery {
            names,
            lines: closure.lines(),
            only: instances,
            receives: wanted.races.receives,
            completion,
            form: wanted.races.form,
        },
        verdicts,
        luck: wanted.luck,
    };
    match write_luck(&query, reporter, out) {
        Ok(summary) => Ok(summary),
        Err(_) => Err(ColumnError::Program(ProgramError::Write)),
    }
}

/// Writes the wanted races of these instances of a possible chart, with the words of their verdicts. Returns their
/// summary.
pub fn show_judged<W: Out, V: Verdicts>(
    alloc: Global,
    names: &Names,
    closure: &Closure<'_>,
    instances: &[InstanceNo],
    wanted: &LuckWanted<'_>,
    verdicts: &V,
    out: &mut W,
) -> Result<RaceSummary, ColumnError>
    requires instances { AreColumns names.now (only_of wanted.now.races.only) instances.now }
    requires possible { IsPossible (length closure.now) (chart_lines closure.now) }
    requires races { (r e : EventNo) → IsRaceIn closure.now r e → V.is_race verdicts.now r e }
    ensures { ShowsJudged W.sink (V.is_verdict verdicts.now) out.old out.new result wanted.now (names.now, closure.now) }
{
    if !wanted.races.run_to_completion {
        return show_selected(names, closure, instances, wanted, None, verdicts, out);
    }
    let completion = match Completion::of(alloc, closure) {
        Ok(completion) => completion,
        Err(AllocError) => return Err(ColumnError::Program(ProgramError::Memory)),
    };
    show_selected(
        names,
        closure,
        instances,
        wanted,
        Some(&completion),
        verdicts,
        out,
    )
}

/// Refuses luck if it isn't known. F34: a name in `only` isn't one of the chart's, or is there twice. Otherwise G1.
/// F6 is possible before.
fn refuse_luck(alloc: Global, names: &Names, wanted: &Wanted<'_>) -> Result<Status, ColumnError>
    ensures { IsLuckRefused names.now (only_of wanted.now.only) result }
{
    let _columns = columns_in(alloc, names, wanted.only)?;
    Err(ColumnError::Program(ProgramError::Usage))
}

/// Writes the wanted races of a chart for which luck isn't known. It refuses the option `--luck`.
pub fn show_unknown<W: Out>(
    alloc: Global,
    names: &Names,
    chart: &Chart,
    wanted: &LuckWanted<'_>,
    out: &mut W,
) -> Result<Status, ColumnError>
    requires { length names.now ≡ length chart.now }
    ensures { ShowsUnknown W.sink wanted.now.luck out.old out.new result wanted.now (names.now, chart.now) }
{
    if wanted.luck {
        refuse_luck(alloc, names, &wanted.races)
    } else {
        show_chart(alloc, names, chart, &wanted.races, out)
    }
}
