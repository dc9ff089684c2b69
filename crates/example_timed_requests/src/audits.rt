//! Audits the result of the three.
ghost use Rattle.std.specs.Prelude.{IfOk};
ghost use Rattle.instances.specs.Laws.{IsAccepted};

use anyhow::bail;
use board::Gathered;
use closure::audit;
use std::alloc::Global;

/// The result of the three, if an audit accepts its chart and its reports. The audit is the offline checker, which
/// reads no clock. It finds the same races.
pub fn audited(alloc: Global, gathered: Gathered) -> anyhow::Result<Gathered>
    ensures { IfOk result IsAccepted }
{
    match audit(alloc, &gathered.chart, gathered.reports.as_slice()) {
        Ok(()) => Ok(gathered),
        Err(error) => bail!("not accepted: {error}"),
    }
}
