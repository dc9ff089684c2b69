//! The order of the skipped constructs in the warnings.
ghost use Rattle.std.specs.Prelude.{◌≡◌, IfOk};
ghost use Rattle.cmd_import_diagram.specs.Order.{put_in, in_order};

use diagrams::LeftOut;
use std::alloc::{AllocError, Global};

/// Inserts a kind before those of later places.
fn put_in(alloc: Global, kind: &LeftOut, ordered: &[LeftOut]) -> Result<Vec<LeftOut>, AllocError>
    ensures { IfOk result (λ more. more.items ≡ put_in kind.now ordered.now) }
{
    let mut more = Vec::new(alloc);
    let mut rest = ordered;
    'kinds: while let [other, others @ ..] = rest {
        if kind.first.is_before(&other.first) {
            more.push(*kind)?;
            more.extend_from_slice(rest)?;
            return Ok(more);
        }
        more.push(*other)?;
        rest = others;
    }
    more.push(*kind)?;
    Ok(more)
}

/// All kinds, sorted by their first places. F6: a growth was refused.
#[tactic(auto, unfolding(crate::specs::Order::in_order))]
pub fn in_order(alloc: Global, left_out: &[LeftOut]) -> Result<Vec<LeftOut>, AllocError>
    ensures { IfOk result (λ ordered. ordered.items ≡ in_order left_out.now) }
{
    let mut ordered = Vec::new(alloc);
    for kind in left_out {
        ordered = put_in(alloc, kind, &ordered)?;
    }
    Ok(ordered)
}
