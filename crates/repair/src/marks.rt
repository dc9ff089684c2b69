//! Which numbers some events of an instance have, marked so that each is looked up at once.
ghost use Rattle.std.specs.Prelude.{◌≡◌, ◌+◌, false, length, replicate, IfOk};
ghost use Rattle.chart.specs.declared.line.TheConstants.{MAX_EVENTS};
ghost use Rattle.repair.specs.Marks.{with_mark, AreMarks};

use chart::{EventNo, InstanceNo, MAX_EVENTS};
use std::alloc::{AllocError, Global};

/// So many numbers, none of which is marked.
fn unmarked(alloc: Global, count: usize) -> Result<Vec<bool>, AllocError>
    ensures { IfOk result (λ marks. marks.items ≡ replicate count false) }
{
    let marks = vec![in alloc; false; count]?;
    Ok(marks)
}

/// Marks the event's number, if it is one of the instance and has a place.
fn mark(marks: &mut Vec<bool>, instance: InstanceNo, event: &EventNo)
    ensures { marks.new.items ≡ with_mark marks.old.items instance event.now }
{
    let number = event.index as usize;
    if event.instance == instance && number < marks.len() {
        marks[number] = true;
    }
}

/// The numbers of the instance's events in the list. There are places for those of any line, with one event more.
pub fn marked(
    alloc: Global,
    instance: InstanceNo,
    events: &[EventNo],
) -> Result<Vec<bool>, AllocError>
    ensures marks { IfOk result (λ marks. AreMarks instance events.now marks.items) }
    ensures places { IfOk result (λ marks. length marks.items ≡ MAX_EVENTS + 2) }
{
    let mut marks = unmarked(alloc, MAX_EVENTS + 2)?;
    for event in events {
        mark(&mut marks, instance, event);
    }
    Ok(marks)
}
