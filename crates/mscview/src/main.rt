//! mscview: reads the command line, and hands it with the files of the system to the library.
#![tactic(auto)]

mod system;

use crate::system::{System, words_of};
use cmd_base::{ProgramError, refused};
use mscview_requests::view;
use std::io;
use std::process::ExitCode;
use std::rt::{Env, Files};
use texts::{Out, StreamOut};

/// Does what the words of the command line ask for, and returns the exit status.
fn view_words<R: Env + Files + Input + AllocGlobal, W: Out, V: Out>(
    rt: &R,
    out: &mut W,
    err: &mut V,
) -> Result<u8, ProgramError> {
    let words = words_of(rt)?;
    let system = System { rt };
    Ok(view(rt.alloc(), words.as_slice(), &system, out, err))
}

fn main(rt: HostRuntime) -> ExitCode {
    let mut out = StreamOut::new(io::writer(&rt));
    let stderr = rt.stderr();
    let mut err = StreamOut::new(io::writer(&stderr));
    let status = match view_words(&rt, &mut out, &mut err) {
        Ok(status) => status,
        Err(error) => refused(&error, &mut err),
    };
    ExitCode::from(status)
}
