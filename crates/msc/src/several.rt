//! The answers of a receive of several messages, as numbers.
ghost use Rattle.std.specs.Prelude.{◌≡◌};
ghost use Rattle.msc.specs.Several.{stop_code, many_code, many_of};

use crate::codes::code_of;
use board::Stop;
use c_board::{FoundMany, TakeRefusal};

/// The number of the reason why no more messages were received.
fn stop_code(stop: Stop) -> i32
    ensures { result ≡ stop_code stop }
{
    match stop {
        Stop::Asked => 0,
        Stop::NoMore => 1,
        Stop::Refused(error) => code_of(error),
    }
}

/// The number of the reason why no more messages were received, or none, and how many were received.
pub(crate) fn many_code(answer: Result<FoundMany, TakeRefusal>, many: &mut usize) -> i32
    ensures code { result ≡ many_code answer }
    ensures many { many.new ≡ many_of answer }
{
    *many = 0;
    match answer {
        Ok(FoundMany::Messages { count, stop }) => {
            *many = count;
            stop_code(stop)
        }
        Ok(FoundMany::Nothing) => 1,
        Ok(FoundMany::Ended) => 2,
        Err(refusal) => code_of(refusal),
    }
}
