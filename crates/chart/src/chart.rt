//! Charts: one line for each instance.
ghost use Rattle.std.specs.Prelude.{◌≡◌, ◌≤◌, ◌<◌, ◌↔◌, ◌⊎◌, length, IsTrue, IsOk, IfOk, IfErr, All};
ghost use Rattle.chart.specs.Events.{partner_of};
ghost use Rattle.chart.specs.Charts.{IsNumbered, HasPartners, IsChart, IsLine};
ghost use Rattle.chart.specs.declared.instance.TheConstants.{MAX_INSTANCES};

use crate::instance::MAX_INSTANCES;
use crate::line::Line;
use std::marker::Model;
use thiserror::Error;

/// Why lines are no chart: the first of these that applies.
#[derive(Clone, Copy, Debug, PartialEq, Eq, Error)]
pub enum LinesError {
    /// F8: there are fewer than 2 lines, or more than [`MAX_INSTANCES`].
    #[error("a chart has 2 to 32 instances")]
    Instances,
    /// F14: the partner of an event is above the number of lines.
    #[error("an event names an instance that the chart doesn't have")]
    NoSuchInstance,
}

/// A chart: the line of instance 1, of instance 2, and so on. A contract sees the list of lines.
///
/// It has 2 to [`MAX_INSTANCES`] lines, and each event's partner is one of its instances.
#[derive(Debug)]
pub struct Chart {
    lines: Vec<Line>,
}

// Written by hand: code that drops a chart calls this function, and has no code and no proof of its own for the chart's
// parts.
impl Drop for Chart {
    #[inline(never)]
    fn drop(self) {
        let Chart { lines: _ } = self;
    }
}

impl Model for Chart {
    ghost use Rattle.std.specs.Prelude.{List};
    ghost use Rattle.chart.specs.Charts.{LineView, IsChart};

    ghost Value = { List LineView };

    ghost view = { λ c. c.lines.items };

    ghost invariant = { λ c. IsChart c.lines.items };
}

/// Whether the partner of each event is one of n instances.
fn has_partners(line: &Line, instances: usize) -> bool
    ensures partners { IsTrue result ↔ All (λ m. partner_of m ≤ instances) line.now.events }
    ensures line { IsLine line.now }
{
    line.events()
        .iter()
        .all(|event| event.partner().number() <= instances)
}

fn all_have_partners(lines: &[Line]) -> bool
    ensures partners { IsTrue result ↔ HasPartners (length lines.now) lines.now }
    ensures lines { IsTrue result → All IsLine lines.now }
{
    let instances = lines.len();
    lines.iter().all(|line| has_partners(line, instances))
}

impl Chart {
    /// The chart of these lines: the first is instance 1's, the second instance 2's, and so on. If F8 or F14 refuses
    /// them, they come back.
    pub fn new(lines: Vec<Line>) -> Result<Chart, (Vec<Line>, LinesError)>
        requires { IsNumbered lines.items }
        ensures ok { IfOk result (λ c. c ≡ lines.items) }
        ensures succeeds { IsOk result
            ↔ ((2 ≤ length lines.items) × (length lines.items ≤ MAX_INSTANCES)
            × HasPartners (length lines.items) lines.items) }
        ensures instances { IfErr result (λ e. (e.1 ≡ LinesError.Instances)
            ↔ ((length lines.items < 2) ⊎ (MAX_INSTANCES < length lines.items))) }
        ensures returned { IfErr result (λ e. e.0 ≡ lines) }
    {
        if lines.len() < 2 || lines.len() > MAX_INSTANCES {
            return Err((lines, LinesError::Instances));
        }
        if !all_have_partners(lines.as_slice()) {
            return Err((lines, LinesError::NoSuchInstance));
        }
        Ok(Chart { lines })
    }

    /// The lines, instance 1's first.
    pub fn lines(&self) -> &[Line]
        ensures value { result.now ≡ self.now }
        ensures chart { IsChart self.now }
    {
        self.lines.as_slice()
    }
}
