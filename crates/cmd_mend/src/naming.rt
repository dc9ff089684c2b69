//! What the new message is called.
ghost use Rattle.std.specs.Prelude.{◌≡◌, ◌⊎◌, ℕ, List, IfOk, IfErr, option_map};
ghost use Rattle.cmd_base.specs.declared.error.ProgramError.TheVariants.{Usage, Memory};
ghost use Rattle.cmd_mend.specs.Naming.{IsMessageName};

use chart::{Line, Name};
use cmd_base::ProgramError;
use repair::{free_name, is_taken};
use std::alloc::{AllocError, Global};
use texts::name_in;

/// What the new message is called: as it is asked for, or by the first of `ack`, `ack_2`, .. that no message has. G1:
/// what is asked for is no name, or a message has it.
pub(crate) fn message_name(
    alloc: Global,
    lines: &[Line],
    asked: Option<&[u8]>,
) -> Result<Name, ProgramError>
    ensures ok { IfOk result (IsMessageName lines.now (option_map (λ bytes. bytes.now) asked.entry)) }
    ensures err { IfErr result (λ e. (e ≡ Memory) ⊎ ((e ≡ Usage)
        × ((name : List ℕ) → IsMessageName lines.now (option_map (λ bytes. bytes.now) asked.entry) name → ⊥))) }
{
    match asked {
        None => match free_name(alloc, lines) {
            Ok(name) => Ok(name),
            Err(AllocError) => Err(ProgramError::Memory),
        },
        Some(bytes) => match name_in(bytes) {
            Ok(name) => {
                if is_taken(lines, &name) {
                    return Err(ProgramError::Usage);
                }
                Ok(name)
            }
            Err(_) => Err(ProgramError::Usage),
        },
    }
}
