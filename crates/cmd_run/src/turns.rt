//! Numbers of turns in words of a command line.
ghost use Rattle.std.specs.Option.{SomeIff};
ghost use Rattle.cmd_base.specs.Numbers.{number_of};
ghost use Rattle.cmd_run.specs.Turns.{AreTurns};

use cmd_base::number_in;
use instances::MAX_TURNS;

/// The number of turns of the word, from 1 to [`MAX_TURNS`]. The word has only decimal digits. It may begin with zeros,
/// and has no sign.
pub fn turns_in(word: &str) -> Option<u32>
    ensures { SomeIff result (AreTurns word.now) (number_of word.now) }
{
    match number_in(word) {
        Some(turns) if 1 <= turns && turns <= u64::from(MAX_TURNS) => Some(turns as u32),
        _ => None,
    }
}
