//! mscrun: reads the command line and one file, and hands the file's bytes to the library. Runs on threads begin
//! here.
//!
//! What is promised of [`run`]: it does what the words of the command line ask for with the bytes of the file that they
//! name, and refuses the words by G1 if and only if they ask for nothing.
#![tactic(auto)]

mod asking;
mod running;
mod system;

use crate::running::run;
use crate::system::{System, words_of};
use cmd_base::refused;
use std::io;
use std::process::ExitCode;
use texts::StreamOut;

fn main(rt: HostRuntime) -> ExitCode {
    let mut out = StreamOut::new(io::writer(&rt));
    let stderr = rt.stderr();
    let mut err = StreamOut::new(io::writer(&stderr));
    let system = System { rt: &rt };
    let status = match words_of(&rt) {
        Ok(words) => run(
            &rt,
            rt.alloc(),
            words.as_slice(),
            &system,
            &mut out,
            &mut err,
        ),
        Err(error) => refused(&error, &mut err),
    };
    ExitCode::from(status)
}
