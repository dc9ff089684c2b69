//! An event that was asked for, but doesn't exist.
ghost use Rattle.std.specs.Prelude.{◌≡◌, ◌≤◌, length};
ghost use Rattle.chart.specs.declared.line.TheConstants.{MAX_EVENTS};
ghost use Rattle.cmd_base.specs.Refusals.{Tried};
ghost use Rattle.cmd_base.specs.Named.NamedRefusals.{missing_on, missing_label, missing_text};

use crate::named::line::refused_at;
use crate::refused_by;
use chart::{Event, InstanceNo, Name, Names};
use texts::{Out, named};

/// What the chart lacks of an event that was asked for by an instance's name and a number.
#[derive(Clone, Copy, Debug, PartialEq, Eq)]
pub enum Missing {
    /// It has no instance of this name.
    Instance,
    /// The line of the instance has no event of this number. `events` is how many events it has.
    Event { instance: Name, events: u32 },
}

/// The missing event of the instance's line: the instance's name, and how many events the line has. It takes no memory.
pub fn missing_on(names: &Names, instance: InstanceNo, events: &[Event]) -> Missing
    requires instance { instance ≤ length names.now }
    requires short { length events.now ≤ MAX_EVENTS }
    ensures { result ≡ missing_on names.now instance events.now }
{
    Missing::Event {
        instance: named(names, instance),
        events: events.len() as u32,
    }
}

#[tactic(auto, unfolding(crate::specs::Named::NamedRefusals::missing_label))]
fn missing_label() -> &'static [u8]
    ensures { result.now ≡ missing_label }
{
    b"F31 NoSuchEvent"
}

/// Prints the line of F31. Returns the exit status, which is 2 even if the line could not be written.
pub fn refused_missing<V: Out>(missing: &Missing, err: &mut V) -> u8
    ensures status { result ≡ 2 }
    ensures line { Tried V.sink err.old err.new (missing_text missing.now) }
{
    match missing {
        Missing::Instance => refused_by(missing_label(), None, err),
        Missing::Event { instance, events } => {
            refused_at(missing_label(), instance, Some(u64::from(*events)), err)
        }
    }
}
