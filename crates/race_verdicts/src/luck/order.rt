//! The order of the whole log.
ghost use Rattle.std.specs.Prelude.{ℕ, suc, ◌≡◌, ◌<◌, ◌≤◌, ◌↔◌, [], length, All, slice_index_or, IfOk, IsTrue};
ghost use Rattle.chart.specs.declared.instance.TheConstants.{MAX_INSTANCES};
ghost use Rattle.log_chart.specs.Cycles.Sources.{AreSources};
ghost use Rattle.race_verdicts.specs.Luck.Marking.{AreFirsts};
ghost use Rattle.race_verdicts.specs.Luck.Recorded.{IsLog, IsSendLine};
ghost use Rattle.race_verdicts.specs.Luck.WholeOrder.{IsAhead};

use crate::luck::marks::firsts_of;
use crate::luck::tables::Table;
use chart::InstanceNo;
use log_chart::LogLine;
use log_chart::cycles::{Sources, sources_of};
use std::alloc::{AllocError, Global};
use std::marker::Model;

/// For each of the first `hosts` hosts and each line, the first send of the host that the line comes before.
fn firsts_of_all(
    alloc: Global,
    hosts: usize,
    sources: &Sources,
    lines: &[LogLine],
) -> Result<Vec<Table>, AllocError>
    requires hosts { hosts ≤ MAX_INSTANCES }
    requires log { IsLog lines.now }
    requires sources { AreSources lines.now (length lines.now) sources.now.above.items sources.now.sends.items }
    ensures whole { IfOk result (λ tables. length tables.items ≡ hosts) }
    ensures each { IfOk result (λ tables. (p : ℕ) → p < hosts → AreFirsts lines.now (suc p) (slice_index_or tables.items p [])) }
{
    let mut tables = Vec::new(alloc);
    for place in 0..hosts {
        let host = InstanceNo::at_place(place);
        tables.push(firsts_of(alloc, sources, lines, host)?)?;
    }
    Ok(tables)
}

/// The order of the whole log. Contracts see its lines.
#[derive(Drop)]
pub(crate) struct Order<'a> {
    lines: &'a [LogLine],
    /// For each host and line, the first send of the host that the line comes before.
    firsts: Vec<Table>,
}

impl<'a> Model for Order<'a> {
    ghost use Rattle.std.specs.Prelude.{List};
    ghost use Rattle.log_chart.specs.declared.matching.LogLine.{LogLine};
    ghost use Rattle.race_verdicts.specs.Luck.Marking.{AreOrdered};

    ghost Value = { List LogLine };

    ghost view = { λ o. o.lines.now };

    ghost invariant = { λ o. AreOrdered o.lines.now o.firsts.items };
}

impl<'a> Order<'a> {
    /// The order of a log with this number of hosts.
    pub(crate) fn of(
        alloc: Global,
        hosts: usize,
        lines: &'a [LogLine],
    ) -> Result<Order<'a>, AllocError>
        requires hosts { hosts ≤ MAX_INSTANCES }
        requires log { IsLog lines.now }
        requires among { All (λ x. x.entry.host ≤ hosts) lines.now }
        ensures { IfOk result (λ order. order ≡ lines.now) }
    {
        let sources = sources_of(alloc, lines.len(), lines)?;
        let firsts = firsts_of_all(alloc, hosts, &sources, lines)?;
        Ok(Order { lines, firsts })
    }

    /// Whether a line is before a send.
    pub(crate) fn is_ahead(&self, line: usize, send: usize) -> bool
        requires { IsSendLine self.now send }
        ensures { IsTrue result ↔ IsAhead self.now line send }
    {
        let lines = self.lines;
        let host = lines[send].entry.host;
        match self.firsts[host.place()].at(line) {
            Some(first) => first <= send,
            None => false,
        }
    }
}
