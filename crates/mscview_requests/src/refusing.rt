//! The refusals of a command line.
ghost use Rattle.std.specs.Prelude.{◌≡◌};
ghost use Rattle.mscview_requests.specs.Lines.{refusal_of, RefusesWords};

use cli::CommandLineError;
use cmd_base::ProgramError;

/// Converts the refusal of a command line to one of the program.
pub fn refusal(error: CommandLineError) -> ProgramError
    ensures value { result ≡ refusal_of error }
    ensures words { RefusesWords result }
{
    match error {
        CommandLineError::Usage => ProgramError::Usage,
        CommandLineError::Memory => ProgramError::Memory,
    }
}
