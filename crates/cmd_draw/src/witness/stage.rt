//! What the picture of a whole chart is made from.
ghost use Rattle.std.specs.Prelude.{◌≡◌, IfOk, option_map};
ghost use Rattle.cmd_base.specs.Texts.{named_of, ComesFrom};
ghost use Rattle.pictures.specs.Preparing.{IsPictureOf};
ghost use Rattle.cmd_draw.specs.Witness.Stages.{IsStageOf, IsWhole, pictured_source, part_of};

use crate::{Events, Prepared, Reports, Rows, Wanted, prepare_by, turns_in};
use chart::{InstanceNo, Line, Names};
use closure::Closure;
use cmd_base::Source;
use pictures::{Part, Picture};
use std::alloc::{AllocError, Global};

/// A chart, with what its picture is made from.
#[derive(Drop)]
pub(crate) struct Stage<'a> {
    names: &'a Names,
    closure: &'a Closure<'a>,
    prepared: Prepared,
    reports: Reports<'a>,
}

impl<'a> Stage<'a> {
    /// The chart's lines.
    pub(crate) fn lines(&self) -> &[Line]
        ensures { result.now ≡ self.now.closure.now }
    {
        self.closure.lines()
    }
}

/// What to draw of a whole chart: all events, in all rows.
pub(crate) fn whole<'a>(title: &'a [u8], only: Option<&'a [u8]>, numbers: bool) -> Wanted<'a>
    ensures { IsWhole title.now (option_map (λ bytes. bytes.now) only.entry) numbers result }
{
    Wanted {
        title,
        only,
        events: Events::ALL,
        rows: Rows::Between(Events::ALL),
        numbers,
    }
}

/// What the picture of the source's chart is made from. F6: it fails only if there is no memory.
pub(crate) fn stage_of<'a>(
    alloc: Global,
    source: &'a Source<'_>,
    closure: &'a Closure<'_>,
) -> Result<Stage<'a>, AllocError>
    requires comes { ComesFrom source.now }
    requires of { closure.now ≡ (named_of source.now).1 }
    ensures { IfOk result (IsStageOf source.now) }
{
    let reports = Reports::of(source, closure)?;
    let turns = turns_in(alloc, source)?;
    let prepared = prepare_by(alloc, closure, turns.as_slice())?;
    Ok(Stage {
        names: source.names(),
        closure,
        prepared,
        reports,
    })
}

/// The picture of the whole chart, with these columns. F6: it fails only if there is no memory.
pub(crate) fn picture_of<'a>(
    alloc: Global,
    stage: &'a Stage<'_>,
    columns: &'a [InstanceNo],
    wanted: &Wanted<'a>,
) -> Result<Picture<'a>, AllocError>
    ensures { IfOk result (IsPictureOf (pictured_source wanted.now.title.now stage.now)
        (part_of columns.now wanted.now.numbers)) }
{
    let picture_source = pictures::Source {
        title: wanted.title,
        names: stage.names,
        closure: stage.closure,
        layout: &stage.prepared.layout,
        ends: &stage.prepared.ends,
        reports: stage.reports.as_slice(),
    };
    let part = Part {
        instances: columns,
        first: Events::ALL.first,
        last: Events::ALL.last,
        top: 0,
        bottom: Events::ALL.last as usize - 1,
        numbers: wanted.numbers,
        notes: &[],
    };
    Picture::of(alloc, picture_source, part)
}
