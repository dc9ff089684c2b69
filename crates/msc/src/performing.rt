//! The export that does what `mscrun` does with the bytes of a file.
ghost use Rattle.std.specs.Prelude.{◌≡◌};
ghost use Rattle.msc.specs.Performing.{PerformsTask, performed_code, lengths_after};

use crate::codes::code_of;
use c_board::Misuse;
use c_commands::{Performed, perform_into};
use std::alloc::Global;

/// The lengths of the texts that a task wrote, in bytes.
#[repr(C)]
#[derive(Clone, Copy)]
pub struct MscLengths {
    pub out: usize,
    pub err: usize,
}

/// The exit status of a task, or the number of a misuse, and the lengths of the task's texts.
pub(crate) fn performed_code(answer: Result<Performed, Misuse>, lengths: &mut MscLengths) -> i32
    ensures code { result ≡ performed_code answer }
    ensures lengths { lengths.new ≡ lengths_after lengths.old answer }
{
    match answer {
        Ok(performed) => {
            *lengths = MscLengths {
                out: performed.out,
                err: performed.err,
            };
            performed.status as i32
        }
        Err(misuse) => code_of(misuse),
    }
}

#[unsafe(no_mangle)]
pub extern "C" fn msc_perform_(
    alloc: Global,
    task: u32,
    seed: u64,
    text: &[u8],
    out: &mut [u8],
    err: &mut [u8],
    lengths: &mut MscLengths,
) -> i32
    ensures { PerformsTask task seed text.now (record { out = out.old; err = err.old })
        (record { code = result; before = lengths.old; output = lengths.new }) (record { out = out.new; err = err.new }) }
{
    performed_code(perform_into(alloc, task, seed, text, out, err), lengths)
}
