//! The instances of a text by their names, and a line's fault with its number, for readers of texts.
ghost use Rattle.std.specs.Prelude.{◌≡◌, ◌≤◌, length};
ghost use Rattle.texts.specs.Faults.{Gives, in_line};
ghost use Rattle.texts.specs.Instances.{with_name, known_of, name_at};

use crate::fault::{Cause, Fault, TextError};
use chart::{InstanceNo, Name, Names, NamesError};

/// A fault of the line.
pub fn fault_at(number: u64, cause: Cause) -> TextError
    ensures { result ≡ TextError.Fault (Fault.Line number cause) }
{
    TextError::Fault(Fault::Line(number, cause))
}

/// The result of reading a line, with the line's number added to a fault.
pub fn at_line<T>(number: u64, read: Result<T, Cause>) -> Result<T, TextError>
    ensures { Gives (λ x. x) result (in_line number read) }
{
    match read {
        Ok(value) => Ok(value),
        Err(cause) => Err(fault_at(number, cause)),
    }
}

/// Adds the name as the next instance's. On this line, F22 refuses a name that was given before, and then F8 one too
/// many.
pub fn add_name(number: u64, names: &mut Names, name: Name) -> Result<(), TextError>
    ensures { Gives (λ _. names.new) result (in_line number (with_name names.old name)) }
{
    match names.add(name) {
        Ok(_) => Ok(()),
        Err(NamesError::Duplicate) => Err(fault_at(number, Cause::Duplicate)),
        Err(NamesError::Instances) => Err(fault_at(number, Cause::Instances)),
        Err(NamesError::Memory) => Err(TextError::Memory),
    }
}

/// The instance of the name, or F23. It takes no memory.
#[tactic(auto, unfolding(crate::specs::Instances::known_of))]
pub fn known_in(names: &Names, name: Name) -> Result<InstanceNo, Cause>
    ensures { result ≡ known_of names.now name }
{
    match names.instance(name) {
        None => Err(Cause::UnknownInstance),
        Some(instance) => Ok(instance),
    }
}

/// The name of the instance, which has one. It takes no memory.
pub fn named(names: &Names, instance: InstanceNo) -> Name
    requires { instance ≤ length names.now }
    ensures { result ≡ name_at names.now instance }
{
    let place = instance.place();
    prove!(place < names.len());
    match names.name(instance) {
        Some(name) => name,
        None => unreachable!(),
    }
}
