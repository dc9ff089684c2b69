//! Hosts that a log may name by two words.
ghost use Rattle.std.specs.Prelude.{◌≡◌, [], IfOk};
ghost use Rattle.cmd_import_log.specs.Alike.{comes_in, is_short_for, are_alike, is_peer, may_be, first_alike, with_alike};

use crate::answers::Alike;
use crate::diagnostics::has_line;
use chart::Name;
use log_lines::names::NamedLine;
use std::alloc::{AllocError, Global};

/// Whether the bytes of one name occur in the other, in the same order.
fn comes_in(short: &[u8], word: &[u8]) -> bool
    ensures { result ≡ comes_in short.now word.now }
{
    let mut left = short;
    for byte in word {
        match left {
            [] => return true,
            [first, rest @ ..] => {
                if *first == *byte {
                    left = rest;
                }
            }
        }
    }
    match left {
        [] => true,
        [_, ..] => false,
    }
}

/// Whether one name may be short for the other.
fn is_short_for(short: &[u8], word: &[u8]) -> bool
    ensures { result ≡ is_short_for short.now word.now }
{
    match short {
        [] => false,
        [first, others @ ..] => match word {
            [] => false,
            [letter, rest @ ..] => *first == *letter && comes_in(others, rest),
        },
    }
}

/// Whether one of the names may be short for the other.
fn are_alike(a: &[u8], b: &[u8]) -> bool
    ensures { result ≡ are_alike a.now b.now }
{
    is_short_for(a, b) || is_short_for(b, a)
}

/// Whether a line names the host as a peer.
fn is_peer(lines: &[NamedLine], name: &Name) -> bool
    ensures { result ≡ is_peer lines.now name.now }
{
    lines.iter().any(|line| line.peer == *name)
}

/// Whether a host has lines of its own, no line names it as a peer, and its name is like this one.
fn may_be(lines: &[NamedLine], peer: &Name, host: &Name) -> bool
    ensures { result ≡ may_be lines.now peer.now host.now }
{
    if is_peer(lines, host) {
        return false;
    }
    has_line(lines, host) && are_alike(peer.as_bytes(), host.as_bytes())
}

/// The first such host.
fn first_alike(lines: &[NamedLine], peer: &Name, hosts: &[Name]) -> Option<Name>
    ensures { result ≡ first_alike lines.now peer.now hosts.now }
{
    for host in hosts {
        if may_be(lines, peer, host) {
            return Some(*host);
        }
    }
    None
}

/// From these hosts without a line of their own, takes those that lines name as peers. Each has the first host that
/// it may be.
pub(crate) fn alike_hosts(
    alloc: Global,
    lines: &[NamedLine],
    hosts: &[Name],
    lineless: &[Name],
) -> Result<Vec<Alike>, AllocError>
    ensures { IfOk result (λ alike. alike.items ≡ with_alike lines.now hosts.now [] lineless.now) }
{
    let mut alike = Vec::new(alloc);
    for peer in lineless {
        if is_peer(lines, peer) {
            if let Some(host) = first_alike(lines, peer, hosts) {
                alike.push(Alike { host, peer: *peer })?;
            }
        }
    }
    Ok(alike)
}
