//! A chart and its witness, side by side.
ghost use Rattle.std.specs.Prelude.{◌≡◌, length, IfOk, IfErr};
ghost use Rattle.chart.specs.Charts.{chart_lines, IsPossible};
ghost use Rattle.cmd_base.specs.Answers.{Answers};
ghost use Rattle.cmd_base.specs.Texts.{named_of, ComesFrom};
ghost use Rattle.schedule_replay.specs.declared.reordered_runs.showing.Shown.TheVariants.{Replay};
ghost use Rattle.cmd_explain_race.specs.Finding.{HasShown, origin_of};
ghost use Rattle.cmd_explain_race.specs.Reordering.{IsWitness};
ghost use Rattle.cmd_draw.specs.Witness.Answers.{picture_exit};
ghost use Rattle.cmd_draw.specs.Witness.Drawing.{other_title, IsSubject, AreStaged, ArePictured, WritesOne, DrawsSo};
ghost use Rattle.cmd_draw.specs.Witness.Drawing.{DrawsWitness, DrawsWitnessText};

use crate::witness::beside::{Marked, write_beside};
use crate::witness::counterparts::counterpart;
use crate::witness::error::PictureError;
use crate::witness::stage::{Stage, picture_of, stage_of, whole};
use chart::{Chart, InstanceNo};
use closure::Closure;
use cmd_base::columns::columns_in;
use cmd_base::pairs::{Asked, Pair};
use cmd_base::{ProgramError, Source, Text, answered};
use cmd_explain_race::{Witnessed, found_in, judged};
use schedule::Schedule;
use schedule::outcomes::ReplayError;
use schedule_replay::reordered_runs::Shown;
use schedule_replay::replay;
use std::alloc::{AllocError, Global};
use texts::Out;

/// The options for both pictures.
#[derive(Clone, Copy, Debug)]
pub struct Wanted<'a> {
    /// The title above the picture of the chart: any bytes.
    pub title: &'a [u8],
    /// The names of the instances that have a column, joined by commas. Without it each instance has one.
    pub only: Option<&'a [u8]>,
    /// Whether each event has its number beside it.
    pub numbers: bool,
}

/// A chart, two of its events, and the options for both pictures.
#[derive(Clone, Copy)]
struct Subject<'a> {
    source: &'a Source<'a>,
    columns: &'a [InstanceNo],
    asked: &'a Asked<'a>,
    wanted: &'a Wanted<'a>,
    pair: Pair,
}

/// The title above the picture of the witness. Its lifetime is that of the chart's own title, since both pictures exist
/// at once.
#[tactic(auto, unfolding(crate::specs::Witness::Drawing::other_title))]
fn other_title<'a>(_wanted: &'a Wanted<'a>) -> &'a [u8]
    ensures { result.now ≡ other_title }
{
    b"another run, with the two events the other way round"
}

/// Draws two charts beside each other. It takes all memory before it writes the first byte.
fn draw_stages<'a, W: Out>(
    alloc: Global,
    subject: &'a Subject<'a>,
    here: &'a Stage<'a>,
    there: &'a Stage<'a>,
    out: &mut W,
) -> Result<(), ProgramError>
    ensures { WritesOne W.sink (AreStaged subject.now here.now there.now) out.old out.new result }
{
    let (wanted, pair) = (subject.wanted, subject.pair);
    let chart = whole(wanted.title, wanted.only, wanted.numbers);
    let title = other_title(wanted);
    let witness = whole(title, wanted.only, wanted.numbers);
    let left = match picture_of(alloc, here, subject.columns, &chart) {
        Ok(left) => left,
        Err(AllocError) => return Err(ProgramError::Memory),
    };
    let right = match picture_of(alloc, there, subject.columns, &witness) {
        Ok(right) => right,
        Err(AllocError) => return Err(ProgramError::Memory),
    };
    let marked = Marked {
        earlier: counterpart(here.lines(), there.lines(), &pair.earlier),
        receive: counterpart(here.lines(), there.lines(), &pair.receive),
    };
    let name = subject.asked.instance;
    match write_beside(wanted.title, name, &pair, &left, &right, &marked, out) {
        Ok(()) => Ok(()),
        Err(_) => Err(ProgramError::Write),
    }
}

/// The closure of a chart that is known to be possible. F6: it fails only if there is no memory.
fn closure_in<'a>(alloc: Global, chart: &'a Chart) -> Result<Closure<'a>, ProgramError>
    requires { IsPossible (length chart.now) (chart_lines chart.now) }
    ensures closure { IfOk result (λ closure. closure ≡ chart.now) }
    ensures memory { IfErr result (λ error. error ≡ ProgramError.Memory) }
{
    match Closure::of_possible(alloc, chart) {
        Ok(closure) => Ok(closure),
        Err(AllocError) => Err(ProgramError::Memory),
    }
}

/// Draws the subject's chart beside another chart of the same instances.
fn draw_sources<W: Out>(
    alloc: Global,
    subject: &Subject<'_>,
    other: &Source<'_>,
    out: &mut W,
) -> Result<(), ProgramError>
    requires subject { IsSubject subject.now }
    requires comes { ComesFrom other.now }
    requires names { (named_of other.now).0 ≡ (named_of subject.now.source.now).0 }
    requires possible { IsPossible (length (named_of other.now).1) (chart_lines (named_of other.now).1) }
    ensures { WritesOne W.sink (ArePictured subject.now.asked.now subject.now.wanted.now subject.now.source.now
        subject.now.pair other.now) out.old out.new result }
{
    let closure = closure_in(alloc, subject.source.chart())?;
    let others = closure_in(alloc, other.chart())?;
    let here = match stage_of(alloc, subject.source, &closure) {
        Ok(here) => here,
        Err(AllocError) => return Err(ProgramError::Memory),
    };
    let there = match stage_of(alloc, other, &others) {
        Ok(there) => there,
        Err(AllocError) => return Err(ProgramError::Memory),
    };
    draw_stages(alloc, subject, &here, &there, out)
}

/// Draws the subject's chart beside the outcome of a witness's schedule.
fn draw_replay<W: Out>(
    alloc: Global,
    subject: &Subject<'_>,
    schedule: &Schedule,
    out: &mut W,
) -> Result<(), ProgramError>
    requires subject { IsSubject subject.now }
    requires witness { IsWitness (named_of subject.now.source.now) (origin_of subject.now.source.now) subject.now.pair
        schedule.now }
    ensures { DrawsSo W.sink out.old out.new subject.now.asked.now subject.now.wanted.now subject.now.source.now
        subject.now.pair (Replay schedule.now) result }
{
    let outcome = match replay(alloc, schedule) {
        Ok(outcome) => outcome,
        Err(ReplayError::Memory) => return Err(ProgramError::Memory),
    };
    let other = Source::Run(schedule, outcome);
    draw_sources(alloc, subject, &other, out)
}

/// Draws the subject's chart beside the witness that was found, if there is one.
fn draw_shown<W: Out>(
    alloc: Global,
    subject: &Subject<'_>,
    shown: &Shown,
    out: &mut W,
) -> Result<(), ProgramError>
    requires subject { IsSubject subject.now }
    requires shown { HasShown (named_of subject.now.source.now) (origin_of subject.now.source.now) subject.now.pair
        shown.now }
    ensures { DrawsSo W.sink out.old out.new subject.now.asked.now subject.now.wanted.now subject.now.source.now
        subject.now.pair shown.now result }
{
    match shown {
        Shown::Replay(schedule) => draw_replay(alloc, subject, schedule, out),
        Shown::Enforced | Shown::TooManySlots(_) => Ok(()),
    }
}

/// Draws the source's chart beside its witness. F34 refuses a name of `--only` that the chart doesn't have, or that is
/// given twice. Then come the refusals of a witness.
fn draw_source<'a, W: Out>(
    alloc: Global,
    source: &'a Source<'a>,
    asked: &'a Asked<'a>,
    wanted: &'a Wanted<'a>,
    out: &mut W,
) -> Result<Witnessed, PictureError>
    requires { ComesFrom source.now }
    ensures { DrawsWitness W.sink out.old out.new asked.now wanted.now source.now result }
{
    let columns = match columns_in(alloc, source.names(), wanted.only) {
        Ok(columns) => columns,
        Err(error) => return Err(PictureError::Columns(error)),
    };
    let found = found_in(alloc, source, asked)?;
    let witnessed = judged(source, &found)?;
    let subject = Subject {
        source,
        columns: columns.as_slice(),
        asked,
        wanted,
        pair: found.pair,
    };
    draw_shown(alloc, &subject, &found.shown, out)?;
    Ok(witnessed)
}

/// Draws the chart in a file beside its witness.
fn draw_text<W: Out>(
    alloc: Global,
    bytes: &[u8],
    asked: &Asked<'_>,
    wanted: &Wanted<'_>,
    out: &mut W,
) -> Result<Witnessed, PictureError>
    ensures { DrawsWitnessText W.sink out.old out.new asked.now wanted.now bytes.now result }
{
    let text = Text::read(alloc, bytes)?;
    let source = Source::of(alloc, &text)?;
    draw_source(alloc, &source, asked, wanted, out)
}

/// Writes a picture, as SVG text, of the chart in a file, or of the outcome of the schedule in it. Beside it the
/// picture has a run with two events in the opposite order. It writes to `err` what [`cmd_explain_race::witness`]
/// writes there about the pair, or the line of a refusal. It returns the exit status of that function: 0 if the pair is
/// enforced, 1 if both charts were drawn, 2 after a refusal. The faults of the text are refused first, then F34, and
/// then come the refusals of a witness. It writes nothing to `out` before a refusal, unless a write to it failed (F24).
/// A failed write to `err` changes nothing.
pub fn draw_witness<W: Out, V: Out>(
    alloc: Global,
    bytes: &[u8],
    asked: &Asked<'_>,
    wanted: &Wanted<'_>,
    out: &mut W,
    err: &mut V,
) -> u8
    ensures { Answers (DrawsWitnessText W.sink out.old out.new asked.now wanted.now bytes.now) picture_exit
        V.sink err.old err.new result }
{
    answered(&draw_text(alloc, bytes, asked, wanted, out), err)
}
