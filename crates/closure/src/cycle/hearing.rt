//! For each event of a chart and each line: the last send of the line whose message is received above the event.
ghost use Rattle.std.specs.Prelude.{◌≡◌, ◌<◌, ◌≤◌, ◌++◌, ◌∷◌, [], suc, length, slice_get, Some, IfOk, OnOk};
ghost use Rattle.chart.specs.declared.line.TheConstants.{MAX_EVENTS};
ghost use Rattle.chart.specs.Charts.{Place, at, chart_lines, IsChart, HasNoSend};
ghost use Rattle.closure.specs.Rows.{value_at, IsRow};
ghost use Rattle.closure.specs.Cycle.Fronts.{IsHeard};

use crate::Numbers;
use crate::cycle::numbers::copied;
use crate::cycle::passing::pass_event;
use chart::Line;
use chart::line_events::len_of;
use std::alloc::{AllocError, Global};
use std::marker::Model;

/// A front for each event of a line. A contract sees the list.
#[derive(Drop)]
struct LineFronts {
    fronts: Vec<Numbers>,
}

impl Model for LineFronts {
    ghost use Rattle.std.specs.Prelude.{ℕ, List};

    ghost Value = { List (List ℕ) };

    ghost view = { λ l. l.fronts.items };
}

impl LineFronts {
    fn new(alloc: Global) -> LineFronts
        ensures { result ≡ [] }
    {
        LineFronts {
            fronts: Vec::new(alloc),
        }
    }

    fn push(&mut self, front: Numbers) -> Result<(), AllocError>
        ensures { OnOk result (self.new ≡ self.old ++ front ∷ []) }
    {
        self.fronts.push(front)?;
        Ok(())
    }

    /// The front at a place.
    fn at(&self, place: usize) -> &Numbers
        requires { place < length self.now }
        ensures { slice_get self.now place ≡ Some result.now }
    {
        &self.fronts[place]
    }
}

/// The front of each event of a line.
fn heard_on(alloc: Global, lines: &[Line], line: usize) -> Result<LineFronts, AllocError>
    requires chart { IsChart lines.now }
    requires sends { (r : Place) → HasNoSend (chart_lines lines.now) r → ⊥ }
    requires line { line < length lines.now }
    ensures { IfOk result (IsRow (IsHeard lines.now) (suc line) (length (chart_lines lines.now (suc line)))) }
{
    let mut passed = Numbers::zeros(alloc, lines.len())?;
    let mut fronts = LineFronts::new(alloc);
    for place in 0..len_of(lines, line) {
        fronts.push(copied(alloc, &passed)?)?;
        pass_event(lines, &mut passed, line, place);
    }
    Ok(fronts)
}

/// The lines of a chart, with a front for each event: the last send of each line whose message is received above the
/// event. A contract sees the lines.
#[derive(Drop)]
pub(crate) struct Hearing<'a> {
    lines: &'a [Line],
    fronts: Vec<LineFronts>,
}

impl<'a> Model for Hearing<'a> {
    ghost use Rattle.std.specs.Prelude.{List};
    ghost use Rattle.chart.specs.Charts.{LineView};
    ghost use Rattle.closure.specs.Cycle.Fronts.{AreHeard};

    ghost Value = { List LineView };

    ghost view = { λ h. h.lines.now };

    ghost invariant = { λ h. AreHeard h.lines.now h.fronts.items };
}

impl<'a> Hearing<'a> {
    /// The fronts of a chart whose receives all have their sends.
    pub fn of(alloc: Global, lines: &'a [Line]) -> Result<Hearing<'a>, AllocError>
        requires chart { IsChart lines.now }
        requires sends { (r : Place) → HasNoSend (chart_lines lines.now) r → ⊥ }
        ensures { IfOk result (λ hearing. hearing ≡ lines.now) }
    {
        let mut fronts = Vec::new(alloc);
        for line in 0..lines.len() {
            fronts.push(heard_on(alloc, lines, line)?)?;
        }
        Ok(Hearing { lines, fronts })
    }

    /// The chart's lines.
    pub fn lines(&self) -> &'a [Line]
        ensures lines { result.now ≡ self.now }
        ensures chart { IsChart self.now }
    {
        self.lines
    }

    /// The number of lines.
    pub fn len(&self) -> usize
        ensures value { result ≡ length self.now }
        ensures chart { IsChart self.now }
    {
        self.lines.len()
    }

    /// The number of events of a line.
    pub fn len_of(&self, line: usize) -> usize
        requires { line < length self.now }
        ensures value { result ≡ length (chart_lines self.now (suc line)) }
        ensures limit { result ≤ MAX_EVENTS }
        ensures chart { IsChart self.now }
    {
        len_of(self.lines, line)
    }

    /// The front of the event at a place of a line.
    pub fn at(&self, line: usize, place: usize) -> &Numbers
        requires line { line < length self.now }
        requires place { place < length (chart_lines self.now (suc line)) }
        ensures { IsHeard self.now (at (suc line) (suc place)) result.now }
    {
        self.fronts[line].at(place)
    }
}
