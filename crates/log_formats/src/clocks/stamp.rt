//! Vector time, as a log for ShiViz writes it: `{"HOST":COUNT, ..}`.
ghost use Rattle.std.specs.Prelude.{◌≡◌, map, option_map, IfOk, OnOk};
ghost use Rattle.texts.specs.Words.{is_comma};
ghost use Rattle.log_formats.specs.Clocks.Stamps.{stamp_view, behind_mark, stamp_in, inside, with_stamp, listed, stamps_in, count_of};

use std::alloc::{AllocError, Global};
use texts::digits::number_in;
use texts::{behind_blanks, first_place, is_comma, stripped};

/// An entry of a clock: a host, and the number of its events that are known.
#[derive(Clone, Copy, Debug, PartialEq, Eq, Hash)]
pub(crate) struct Stamp<'a> {
    pub host: &'a [u8],
    pub count: u32,
}

/// The bytes after the byte `mark`, if the bytes begin with it.
fn behind_mark(mark: u8, bytes: &[u8]) -> Option<&[u8]>
    ensures { option_map (λ b. b.now) result ≡ behind_mark mark bytes.now }
{
    match bytes {
        [first, rest @ ..] => { if *first == mark { Some(rest) } else { None } }
        _ => None,
    }
}

/// The entry that `"HOST":COUNT` gives.
#[tactic(auto, unfolding(crate::specs::Clocks::Stamps::stamp_in))]
fn stamp_in(part: &[u8]) -> Option<Stamp<'_>>
    ensures { option_map stamp_view result ≡ stamp_in part.now }
{
    let quoted = behind_mark(b'"', stripped(part))?;
    let end = first_place(b'"', quoted)?;
    let digits = behind_mark(b':', behind_blanks(&quoted[end + 1..]))?;
    Some(Stamp {
        host: &quoted[..end],
        count: number_in(behind_blanks(digits))?,
    })
}

/// The part between the braces of a clock, if there is one.
#[tactic(auto, unfolding(crate::specs::Clocks::Stamps::inside))]
fn inside(clock: &[u8]) -> Option<&[u8]>
    ensures { option_map (λ b. b.now) result ≡ inside clock.now }
{
    let behind = behind_mark(b'{', clock)?;
    let end = first_place(b'}', behind)?;
    Some(&behind[..end])
}

/// Adds an entry, if this part is an entry.
fn add_part<'a>(stamps: &mut Vec<Stamp<'a>>, part: &'a [u8]) -> Result<(), AllocError>
    ensures { OnOk result (map stamp_view stamps.new.items ≡ with_stamp (map stamp_view stamps.old.items) (stamp_in part.now)) }
{
    if let Some(stamp) = stamp_in(part) {
        stamps.push(stamp)?;
    }
    Ok(())
}

/// The entries of a list, without parts that can't be read. It fails only if there is no memory.
#[tactic(auto, unfolding(crate::specs::Clocks::Stamps::listed))]
fn listed(alloc: Global, list: &[u8]) -> Result<Vec<Stamp<'_>>, AllocError>
    ensures { IfOk result (λ stamps. map stamp_view stamps.items ≡ listed list.now) }
{
    let mut stamps = Vec::new(alloc);
    for part in list.split(|byte| is_comma(*byte)) {
        add_part(&mut stamps, part)?;
    }
    Ok(stamps)
}

/// The entries of a clock, without parts that can't be read. It fails only if there is no memory.
pub(crate) fn stamps_in(alloc: Global, clock: &[u8]) -> Result<Vec<Stamp<'_>>, AllocError>
    ensures { IfOk result (λ stamps. map stamp_view stamps.items ≡ stamps_in clock.now) }
{
    match inside(clock) {
        None => Ok(Vec::new(alloc)),
        Some(list) => listed(alloc, list),
    }
}

/// The count of the first entry of this host, or 0 if there is none.
pub(crate) fn count_of(stamps: &[Stamp<'_>], host: &[u8]) -> u32
    ensures { result ≡ count_of (map stamp_view stamps.now) host.now }
{
    for stamp in stamps {
        if stamp.host == host {
            return stamp.count;
        }
    }
    0
}
