//! Why a pair of events is a race, or why it is enforced.
ghost use Rattle.std.specs.Prelude.{◌≡◌, ◌≤◌, length, IfOk};
ghost use Rattle.chart.specs.declared.instance.TheConstants.{MAX_INSTANCES};
ghost use Rattle.chart.specs.Charts.{chart_lines};
ghost use Rattle.cmd_explain_race.specs.Explaining.{AreInOneRegion, AreRaceSayings, OneExplanationLaw};
ghost use Rattle.cmd_base.specs.Pairs.Pairs.{IsPair};
ghost use Rattle.cmd_explain_race.specs.Explaining.{IsExplained, Explains};

use crate::explaining::{OwnLine, chain_sayings, race_sayings};
use crate::verdict::Verdict;
use chart::line_events::events_of;
use chart::{Chart, Line, Names};
use closure::Closure;
use closure::chain::{past, shortest_chain};
use cmd_base::pairs::{Asked, Pair, PairError, Saying, pair_in, write_sayings};
use cmd_base::{ProgramError, closure_of};
use std::alloc::{AllocError, Global};
use texts::Out;

/// Whether the two events of a pair are in one coregion.
pub(crate) fn are_in_one_region(lines: &[Line], pair: &Pair) -> bool
    requires { IsPair (chart_lines lines.now) pair.now }
    ensures { AreInOneRegion (chart_lines lines.now) pair.now result }
{
    let events = events_of(lines, pair.receive.instance);
    let region = events[pair.receive.index as usize - 1].region();
    events[pair.earlier.index as usize - 1].is_in(region)
}

/// The lines that explain the race of a pair that isn't enforced.
fn explain_race(
    alloc: Global,
    closure: &Closure<'_>,
    pair: &Pair,
) -> Result<Vec<Saying>, AllocError>
    requires limit { length closure.now ≤ MAX_INSTANCES }
    requires pair { IsPair (chart_lines closure.now) pair.now }
    ensures { IfOk result (λ sayings. AreRaceSayings (length closure.now) (chart_lines closure.now) pair.now
        sayings.items) }
{
    let counts = past(closure, &pair.receive)?;
    let events = events_of(closure.lines(), pair.receive.instance);
    let receive = pair.receive.index as usize;
    let own = OwnLine {
        events,
        instance: pair.receive.instance,
        receive,
        sender: events[receive - 1].partner(),
        count: counts.at(pair.receive.instance.place()),
    };
    race_sayings(alloc, &own, &counts)
}

/// The verdict on a pair, and the lines that explain it.
fn explain(
    alloc: Global,
    closure: &Closure<'_>,
    pair: &Pair,
) -> Result<(Verdict, Vec<Saying>), AllocError>
    requires limit { length closure.now ≤ MAX_INSTANCES }
    requires pair { IsPair (chart_lines closure.now) pair.now }
    ensures { IfOk result (λ diagnostics. IsExplained (length closure.now) (chart_lines closure.now) pair.now diagnostics.0
        diagnostics.1.items) }
{
    match shortest_chain(alloc, closure, &pair.earlier, &pair.receive)? {
        Some(links) => {
            let sayings = chain_sayings(alloc, links.as_slice())?;
            Ok((Verdict::Enforced, sayings))
        }
        None => {
            let sayings = explain_race(alloc, closure, pair)?;
            let verdict = Verdict::of(are_in_one_region(closure.lines(), pair));
            Ok((verdict, sayings))
        }
    }
}

/// Explains the two events of the chart that the words name. Writes why the first has to come before the second, or
/// that it needn't. Returns the verdict. All memory is taken before the first line is written.
pub(crate) fn why_in<W: Out>(
    alloc: Global,
    names: &Names,
    chart: &Chart,
    asked: &Asked<'_>,
    out: &mut W,
) -> Result<Verdict, PairError>
    requires { length names.now ≡ length chart.now }
    ensures { Explains W.sink out.old out.new result (names.now, chart.now) asked.now }
{
    let lines = chart.lines();
    let closure = closure_of(alloc, names, chart)?;
    let pair = pair_in(names, lines, asked)?;
    let (verdict, sayings) = match explain(alloc, &closure, &pair) {
        Ok((verdict, sayings)) => (verdict, sayings),
        Err(AllocError) => return Err(PairError::Program(ProgramError::Memory)),
    };
    let events = events_of(lines, pair.receive.instance);
    match write_sayings(names, events, sayings.as_slice(), out) {
        Ok(()) => Ok(verdict),
        Err(_) => Err(PairError::Program(ProgramError::Write)),
    }
}

/// The lines that explain a race are unique: no other counts satisfy the definition.
pub fn one_explanation_law()
    ensures { OneExplanationLaw }
{}
