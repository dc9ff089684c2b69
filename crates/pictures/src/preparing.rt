//! Prepares a picture.
ghost use Rattle.std.specs.Prelude.{◌≡◌, IfOk};
ghost use Rattle.pictures.specs.Preparing.{plan_of, IsPictureOf};

use crate::margin::{sends_in, with_margin};
use crate::part::{Part, Source};
use crate::picture::Picture;
use picture_parts::columns::{Choice, Column, Plan, columns_of, places_of, width_of};
use std::alloc::{AllocError, Global};

/// The values by which the columns of a part are placed.
fn plan_of<'a>(source: &Source<'a>, part: &Part<'a>) -> Plan<'a>
    ensures { result ≡ plan_of source.now.names.now source.now.closure.now source.now.reports.now part.now.instances.now part.now.numbers }
{
    Plan {
        names: source.names,
        lines: source.closure.lines(),
        reports: source.reports,
        instances: part.instances,
        numbers: part.numbers,
    }
}

/// The events of a part that are drawn in these columns.
fn choice_of<'a>(source: &Source<'a>, part: &Part<'a>, columns: Vec<Column>) -> Choice<'a>
    ensures { result ≡ record {
      rows = source.now.layout.now;
      ends = source.now.ends.now;
      columns = columns.items;
      first = part.now.first;
      last = part.now.last;
      top = part.now.top;
      bottom = part.now.bottom;
    } }
{
    Choice {
        layout: source.layout,
        ends: source.ends,
        columns,
        first: part.first,
        last: part.last,
        top: part.top,
        bottom: part.bottom,
    }
}

impl<'a> Picture<'a> {
    /// The picture of a part of a chart.
    ///
    /// F6: it fails only if there is no memory.
    pub fn of(alloc: Global, source: Source<'a>, part: Part<'a>) -> Result<Picture<'a>, AllocError>
        ensures { IfOk result (IsPictureOf (record {
          title = source.entry.title.now;
          names = source.entry.names.now;
          lines = source.entry.closure.now;
          rows = source.entry.layout.now;
          reports = source.entry.reports.now;
          ends = source.entry.ends.now;
        }) (record {
          instances = part.entry.instances.now;
          first = part.entry.first;
          last = part.entry.last;
          top = part.entry.top;
          bottom = part.entry.bottom;
          numbers = part.entry.numbers;
          notes = part.entry.notes.now;
        })) }
    {
        let rows = source.layout.rows();
        let plan = plan_of(&source, &part);
        let columns = columns_of(alloc, &plan)?;
        let instances = width_of(&plan, columns.as_slice(), source.title.len());
        let width = with_margin(instances, part.notes);
        let sends = sends_in(alloc, plan.lines, rows)?;
        let choice = choice_of(&source, &part, columns);
        let (places, count) = places_of(alloc, &choice, rows)?;
        Ok(Picture {
            title: source.title,
            names: source.names,
            lines: plan.lines,
            reports: source.reports,
            choice,
            numbers: part.numbers,
            width,
            count,
            places,
            sends,
            notes: part.notes,
        })
    }
}
