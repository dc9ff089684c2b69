//! What a new message is called.
ghost use Rattle.std.specs.Prelude.{◌≡◌, List, ℕ, codes, bytes_eq, IfOk, OnOk};
ghost use Rattle.std.specs.List.{list_any};
ghost use Rattle.chart.specs.Events.{name_of};
ghost use Rattle.diagram_labels.specs.Giving.{is_given};
ghost use Rattle.repair.specs.Naming.{message_names, have_more, HaveNames, IsNewName};

use chart::{Event, Line, Name};
use diagram_labels::GivenNames;
use std::alloc::{AllocError, Global};

/// Adds the names of these events' messages, each once.
fn add_names(alloc: Global, names: &mut GivenNames, events: &[Event]) -> Result<(), AllocError>
    ensures { OnOk result ((all : List (List ℕ)) → HaveNames names.old all
        → HaveNames names.new (have_more all events.now)) }
{
    for event in events {
        let name = event.name();
        if !names.is_given(&name) {
            names.give(alloc, name)?;
        }
    }
    Ok(())
}

/// The names of the messages on these lines.
fn names_of(alloc: Global, lines: &[Line]) -> Result<GivenNames, AllocError>
    ensures { IfOk result (λ names. HaveNames names (message_names lines.now)) }
{
    let mut names = GivenNames::new(alloc);
    for line in lines {
        add_names(alloc, &mut names, line.events())?;
    }
    Ok(names)
}

/// The name that a new message gets, where no message has it.
fn ack() -> Name
    ensures { result ≡ codes "ack" }
{
    Name::new(b"ack").unwrap()
}

/// The first of `ack`, `ack_2`, .. that no message of these lines has.
///
/// F6: it fails only where there is no memory.
pub fn free_name(alloc: Global, lines: &[Line]) -> Result<Name, AllocError>
    ensures { IfOk result (IsNewName lines.now) }
{
    let mut names = names_of(alloc, lines)?;
    names.give(alloc, ack())
}

fn is_among(events: &[Event], name: &Name) -> bool
    ensures { result ≡ list_any (λ m. bytes_eq name.now (name_of m)) events.now }
{
    events.iter().any(|event| *name == event.name())
}

fn has_name(lines: &[Line], name: &Name) -> bool
    ensures { result ≡ list_any (λ l. list_any (λ m. bytes_eq name.now (name_of m)) l.events) lines.now }
{
    lines.iter().any(|line| is_among(line.events(), name))
}

/// Whether a message of these lines has the name.
pub fn is_taken(lines: &[Line], name: &Name) -> bool
    ensures { result ≡ is_given (message_names lines.now) name.now }
{
    has_name(lines, name)
}
