//! The names of a board's instances, as another language gives them.
ghost use Rattle.std.specs.Prelude.{◌<◌, ◌≤◌, length};
ghost use Rattle.chart.specs.declared.instance.TheConstants.{MAX_INSTANCES};
ghost use Rattle.c_board.specs.Boards.Naming.{words_in, AddsName, ReadsNames, of_names};

use crate::misuse::Numbering;
use crate::numbered::Numbered;
use crate::word_at;
use chart::{MAX_INSTANCES, Name, NameError, Names, NamesError};
use std::alloc::Global;

/// Why the names of a board's instances are refused: the first of these that applies to the first refused name.
#[derive(Clone, Copy)]
pub enum NamesRefusal {
    /// F1 to F4: the bytes are no name.
    Naming(NameError),
    /// F22: an instance before has the same name.
    Twice,
    /// F6: a growth was refused.
    Memory,
}

impl Numbered for NamesRefusal {
    ghost number = { λ _ refusal. of_names refusal };

    fn number(self, misuses: Numbering) -> u32 {
        match self {
            NamesRefusal::Naming(error) => error.number(misuses),
            NamesRefusal::Twice => 22,
            NamesRefusal::Memory => 6,
        }
    }
}

/// Gives the next instance the name with these bytes. The first of F1 to F4, F22 and F6 that applies refuses it.
fn add_name(names: &mut Names, word: &[u8]) -> Result<(), NamesRefusal>
    requires { length names.old < MAX_INSTANCES }
    ensures { AddsName names.old word.now result names.new }
{
    let name = match Name::new(word) {
        Ok(name) => name,
        Err(error) => return Err(NamesRefusal::Naming(error)),
    };
    prove!(names.len() < MAX_INSTANCES);
    match names.add(name) {
        Ok(_) => Ok(()),
        Err(NamesError::Duplicate) => Err(NamesRefusal::Twice),
        Err(NamesError::Instances) => unreachable!(),
        Err(NamesError::Memory) => Err(NamesRefusal::Memory),
    }
}

/// The names that are one after another in these bytes, with these lengths. The first of F1 to F4, F22 and F6 that
/// applies to a name refuses them.
pub(crate) fn names_in(
    alloc: Global,
    bytes: &[u8],
    lengths: &[usize],
) -> Result<Names, NamesRefusal>
    requires { length lengths.now ≤ MAX_INSTANCES }
    ensures { ReadsNames (words_in bytes.now lengths.now) result }
{
    let mut names = Names::new(alloc);
    let mut start = 0;
    for many in lengths {
        let word = word_at(bytes, start, *many);
        add_name(&mut names, word)?;
        start += word.len();
    }
    Ok(names)
}
