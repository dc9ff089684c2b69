//! Which lines of a host come before the sends to it, over the lines of other hosts.
ghost use Rattle.std.specs.Prelude.{ℕ, ◌≡◌, ◌<◌, [], suc, length, map, replicate, false, true, All, IfOk, None, Some, slice_index_or};
ghost use Rattle.chart.specs.declared.instance.TheConstants.{MAX_INSTANCES};
ghost use Rattle.log_chart.specs.Entries.{takes};
ghost use Rattle.log_chart.specs.Cycles.Turns.{apart, IsReady, HasSearched, HasAsked};
ghost use Rattle.log_chart.specs.declared.cycles.past.Past.{Past as PastView};

use crate::chains::Chains;
use crate::cycles::past::Past;
use crate::cycles::sources::Sources;
use crate::matching::takes;
use crate::{Entry, LogLine};
use chart::{InstanceNo, MAX_INSTANCES};
use std::alloc::{AllocError, Global};

/// The line, without the send that it takes if it is the host's.
fn apart(line: &LogLine, host: InstanceNo) -> LogLine
    ensures { result ≡ apart host line.now }
{
    if line.entry.host == host {
        LogLine {
            send: None,
            ..*line
        }
    } else {
        *line
    }
}

/// The lines, of which those of the host take no send. It fails only if there is no memory.
pub(crate) fn all_apart(
    alloc: Global,
    lines: &[LogLine],
    host: InstanceNo,
) -> Result<Vec<LogLine>, AllocError>
    ensures { IfOk result (λ others. others.items ≡ map (apart host) lines.now) }
{
    lines.iter().map(|line| apart(line, host)).collect(alloc)
}

/// For each instance, nothing was found before its sends. The log has `count` lines. It fails only if there is no
/// memory.
pub(crate) fn no_pasts(alloc: Global, count: usize) -> Result<Vec<Past>, AllocError>
    ensures whole { IfOk result (λ pasts. length pasts.items ≡ MAX_INSTANCES) }
    ensures none { IfOk result (λ pasts. All (λ x. (x.seen.items ≡ replicate count false) × (x.stack.items ≡ []))
        pasts.items) }
{
    let mut pasts = Vec::new(alloc);
    for _ in 0..MAX_INSTANCES {
        pasts.push(Past::nothing(alloc, count)?)?;
    }
    Ok(pasts)
}

/// Whether a line of the host comes before the send that it takes, the first that is left of its stream.
pub(crate) fn is_on_cycle(
    sources: &Sources,
    pasts: &mut [Past],
    left: &Chains,
    host: InstanceNo,
    entry: &Entry,
    number: usize,
) -> Result<bool, AllocError>
    requires pasts { length pasts.old ≡ MAX_INSTANCES }
    requires ready { (i s : ℕ) (x : PastView) → i < length pasts.old → entry.now.host ≡ host
        → takes entry.now.kind ≡ true → entry.now.peer ≡ suc i
        → slice_index_or left.now.first.items entry.now.stream None ≡ Some s → x ≡ slice_index_or pasts.old i x
        → IsReady sources.now.above.items sources.now.sends.items s x }
    ensures { IfOk result (HasAsked sources.now.above.items sources.now.sends.items left.now.first.items host
        entry.now number pasts.old pasts.new) }
{
    if entry.host != host || !takes(entry.kind) {
        return Ok(false);
    }
    let Some(send) = left.first_of(entry.stream) else {
        return Ok(false);
    };
    let past = &mut pasts[entry.peer.place()];
    past.pass(sources, send)?;
    Ok(past.has(number))
}
