//! All parts of ranges, in memory.
ghost use Rattle.std.specs.Prelude.{◌<◌, All, IfOk};
ghost use Rattle.chart.specs.Ranges.{IsRange, events_in};
ghost use Rattle.races_text.specs.Judged.Parts.{AreParts};

use crate::judged::part::Part;
use crate::judged::parts::{next_part, parts_of};
use crate::judged::verdicts::Verdicts;
use crate::named::KeptEvents;
use chart::{EventNo, EventRange};
use std::alloc::{AllocError, Global};

/// The parts of the events of these ranges that a receive may come before, as long as they can be. F6: it fails only if
/// there is no memory.
pub fn all_parts<V: Verdicts>(
    alloc: Global,
    verdicts: &V,
    receive: &EventNo,
    earlier: &[EventRange],
) -> Result<Vec<Part>, AllocError>
    requires ranges { All IsRange earlier.now }
    requires begun { All (λ e. 0 < e.index) (events_in earlier.now) }
    requires races { All (V.is_race verdicts.now receive.now) (events_in earlier.now) }
    ensures { IfOk result (λ parts. AreParts (V.is_verdict verdicts.now receive.now) (events_in earlier.now)
        parts.items) }
{
    let kept = KeptEvents::of(&[], false, 0, earlier);
    let mut left = parts_of(verdicts, receive, kept);
    let mut parts = Vec::new(alloc);
    while let Some(part) = next_part(verdicts, receive, &mut left) {
        parts.push(part)?;
    }
    Ok(parts)
}
