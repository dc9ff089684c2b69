//! The brief report of a change: its first ranges of races, and how many race pairs go, stay and come.
ghost use Rattle.std.specs.Prelude.{◌≡◌, ◌++◌, ◌∷◌, [], map, All, IfOk, OnOk};
ghost use Rattle.chart.specs.Ranges.{IsRange};
ghost use Rattle.repair.specs.Growing.{message_of};
ghost use Rattle.repair.specs.Repairs.{AreFew};
ghost use Rattle.cmd_mend.specs.Brief.{shown_as, shown_of, all_shown, Shows, HasFirst, IsBrief};
ghost use Rattle.cmd_mend.specs.Changes.{changed_by};

use crate::change::{all_gone, all_kept};
use chart::{EventNo, EventRange, Report};
use repair::{Message, count_pairs};
use std::alloc::{AllocError, Global};

/// The most ranges of races that go or come which are listed one by one.
pub const SHOWN_LINES: usize = 10;

/// What becomes of races by a message.
#[derive(Clone, Copy, Debug, PartialEq, Eq)]
pub(crate) enum Fate {
    /// The new chart lacks them.
    Goes,
    /// The old chart lacks them.
    Comes,
}

/// A range of a receive's races that goes or comes.
#[derive(Clone, Copy, Debug, PartialEq, Eq)]
pub(crate) struct Shown {
    pub fate: Fate,
    pub receive: EventNo,
    pub range: EventRange,
}

/// How many race pairs go, stay and come.
#[derive(Clone, Copy, Debug, PartialEq, Eq)]
pub(crate) struct Counts {
    pub going: usize,
    pub staying: usize,
    pub coming: usize,
}

/// The brief report of a change.
#[derive(Drop)]
pub(crate) struct Brief {
    pub shown: Vec<Shown>,
    pub counts: Counts,
}

fn shown_as(fate: Fate, receive: &EventNo, range: &EventRange) -> Shown
    ensures { result ≡ shown_as fate receive.now range.now }
{
    Shown {
        fate,
        receive: *receive,
        range: *range,
    }
}

/// Adds a range, where fewer are shown than may be.
fn add_one(shown: &mut Vec<Shown>, one: Shown) -> Result<(), AllocError>
    requires { IsRange one.range }
    ensures { OnOk result (Shows shown.old.items shown.new.items (one ∷ [])) }
{
    if shown.len() < SHOWN_LINES {
        shown.push(one)?;
    }
    Ok(())
}

fn add_ranges(
    shown: &mut Vec<Shown>,
    fate: Fate,
    receive: &EventNo,
    ranges: &[EventRange],
) -> Result<(), AllocError>
    requires { All IsRange ranges.now }
    ensures { OnOk result (Shows shown.old.items shown.new.items (map (shown_as fate receive.now) ranges.now)) }
{
    for range in ranges {
        add_one(shown, shown_as(fate, receive, range))?;
    }
    Ok(())
}

fn add_report(shown: &mut Vec<Shown>, fate: Fate, report: &Report) -> Result<(), AllocError>
    ensures { OnOk result (Shows shown.old.items shown.new.items (shown_of fate report.now)) }
{
    let earlier = report.earlier();
    add_ranges(shown, fate, &report.receive(), earlier.as_slice())
}

fn add_reports(shown: &mut Vec<Shown>, fate: Fate, reports: &[Report]) -> Result<(), AllocError>
    ensures { OnOk result (Shows shown.old.items shown.new.items (all_shown fate reports.now)) }
{
    for report in reports {
        add_report(shown, fate, report)?;
    }
    Ok(())
}

/// The first ranges of the races that go, and then of those that come.
fn first_shown(alloc: Global, gone: &[Report], coming: &[Report]) -> Result<Vec<Shown>, AllocError>
    ensures { IfOk result (λ shown. HasFirst (all_shown Fate.Goes gone.now ++ all_shown Fate.Comes coming.now) shown.items) }
{
    let mut shown = Vec::new(alloc);
    add_reports(&mut shown, Fate::Goes, gone)?;
    add_reports(&mut shown, Fate::Comes, coming)?;
    Ok(shown)
}

/// The brief report if a chart with these reports gets the message, by which it has those.
pub(crate) fn brief_of(
    alloc: Global,
    message: &Message,
    olds: &[Report],
    news: &[Report],
) -> Result<Brief, AllocError>
    requires olds { AreFew olds.now }
    requires news { AreFew news.now }
    ensures { IfOk result (IsBrief (changed_by (message_of message.now) olds.now news.now)) }
{
    let gone = all_gone(alloc, message, olds, news)?;
    let coming = all_kept(alloc, true, message, news)?;
    let shown = first_shown(alloc, gone.as_slice(), coming.as_slice())?;
    let come = count_pairs(coming.as_slice());
    Ok(Brief {
        shown,
        counts: Counts {
            going: count_pairs(gone.as_slice()),
            staying: count_pairs(news).saturating_sub(come),
            coming: come,
        },
    })
}
