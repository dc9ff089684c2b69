//! The hosts of a log in the order of their names, byte by byte.
ghost use Rattle.std.specs.Prelude.{◌≡◌, ◌≤◌, length, insert, IfOk};
ghost use Rattle.chart.specs.declared.instance.TheConstants.{MAX_INSTANCES};
ghost use Rattle.log_chart.specs.NameOrder.{name_of, bytes_of, is_before, put_by_name, by_name};

use crate::entry::Entry;
use chart::{InstanceNo, Name};
use std::alloc::{AllocError, Global};

/// A host, and its name if it has lines.
#[derive(Clone, Copy, Debug)]
pub(crate) struct HostName {
    pub host: InstanceNo,
    pub name: Option<Name>,
}

/// The name of a host, from the first of its lines.
fn name_of(log: &[Entry], host: InstanceNo) -> Option<Name>
    ensures { result ≡ name_of log.now host }
{
    for entry in log {
        if entry.host == host {
            return Some(entry.host_name);
        }
    }
    None
}

/// The bytes of a name, or no bytes if there is no name.
fn bytes_of(name: &Option<Name>) -> &[u8]
    ensures { result.now ≡ bytes_of name.now }
{
    match name {
        Some(name) => name.as_bytes(),
        None => b"",
    }
}

/// Whether the name of `host` is less than that of `other`.
fn is_before(host: &HostName, other: &HostName) -> bool
    ensures { result ≡ is_before host.now other.now }
{
    bytes_of(&host.name).cmp(bytes_of(&other.name)).is_lt()
}

/// The place of a host in this order, from 0: after all hosts whose names aren't greater.
fn place_for(hosts: &[HostName], host: &HostName) -> usize
    ensures within { result ≤ length hosts.now }
    ensures put { insert hosts.now result host.now ≡ put_by_name hosts.now host.now }
{
    for (place, other) in hosts.iter().enumerate() {
        if is_before(host, other) {
            return place;
        }
    }
    hosts.len()
}

/// The `count` hosts of a log in the order of their names, byte by byte. It fails only if there is no memory.
pub(crate) fn hosts_by_name(
    alloc: Global,
    count: usize,
    log: &[Entry],
) -> Result<Vec<HostName>, AllocError>
    requires { count ≤ MAX_INSTANCES }
    ensures { IfOk result (λ hosts. hosts.items ≡ by_name count log.now) }
{
    let mut hosts = Vec::new(alloc);
    for place in 0..count {
        let host = InstanceNo::at_place(place);
        let named = HostName {
            host,
            name: name_of(log, host),
        };
        let place = place_for(&hosts, &named);
        hosts.insert(place, named)?;
    }
    Ok(hosts)
}
