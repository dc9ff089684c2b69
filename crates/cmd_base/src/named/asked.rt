//! Looks up an instance by its name, and an event by its number.
ghost use Rattle.std.specs.Prelude.{◌≡◌};
ghost use Rattle.cmd_base.specs.Named.Asked.{instance_named, has_event};

use chart::{Event, InstanceNo, Names};
use texts::name_in;

/// The instance that has these bytes as its name.
pub fn instance_named(names: &Names, name: &[u8]) -> Option<InstanceNo>
    ensures { result ≡ instance_named names.now name.now }
{
    match name_in(name) {
        Ok(name) => names.instance(name),
        Err(_) => None,
    }
}

/// Whether the line has an event of this number, from 1.
pub fn has_event(events: &[Event], number: u64) -> bool
    ensures { result ≡ has_event events.now number }
{
    1 <= number && number <= events.len() as u64
}
