//! Frees receives until no line comes before itself.
ghost use Rattle.std.specs.Prelude.{◌≡◌, ◌<◌, ◌≤◌, length, slice_index_or, IfOk, OnOk, MatchOption};
ghost use Rattle.chart.specs.declared.instance.TheConstants.{MAX_INSTANCES};
ghost use Rattle.log_chart.specs.Entries.{HaveStreams};
ghost use Rattle.log_chart.specs.HostLines.{kept};
ghost use Rattle.log_chart.specs.Cycles.Freeing.{IsFirst, HasNone, Settles, AreAmong};

use crate::cycles::first::first_on_cycle;
use crate::cycles::plain::is_plain;
use crate::cycles::turns::{free, free_along};
use crate::{Entry, kept_lines};
use std::alloc::{AllocError, Global};

/// The receive that is freed next, if there is one. It fails only if there is no memory.
fn next_freed(alloc: Global, hosts: usize, log: &[Entry]) -> Result<Option<usize>, AllocError>
    requires hosts { hosts ≤ MAX_INSTANCES }
    requires streams { HaveStreams log.now }
    requires among { AreAmong hosts log.now }
    ensures { IfOk result (λ found. MatchOption found (HasNone (kept log.now)) (IsFirst (kept log.now))) }
{
    let lines = kept_lines(alloc, log)?;
    first_on_cycle(alloc, log.len(), hosts, &lines)
}

/// The line with a number.
fn line_at(log: &[Entry], number: usize) -> Entry
    requires { number < length log.now }
    ensures { result ≡ slice_index_or log.now number result }
{
    log[number]
}

/// Frees receives of a log of `hosts` hosts until no line comes before itself.
///
/// Each turn frees one receive of those that take a send of the log and come before themselves. It is one of the host
/// with the least name, byte by byte, and of this host the first. It takes no logged send, now or later. Then pairing
/// begins anew.
///
/// F6: it fails only if there is no memory. Some of the receives may be freed then.
pub fn settle(alloc: Global, hosts: usize, log: &mut [Entry]) -> Result<(), AllocError>
    requires hosts { hosts ≤ MAX_INSTANCES }
    requires streams { HaveStreams log.old }
    requires among { AreAmong hosts log.old }
    ensures { OnOk result (Settles log.old log.new) }
{
    'turns: while let Some(number) = next_freed(alloc, hosts, log)? {
        let first = line_at(log, number);
        if is_plain(alloc, log, &first)? {
            free_along(alloc, log, &first, number)?;
        } else {
            free(log, number);
        }
    }
    Ok(())
}
