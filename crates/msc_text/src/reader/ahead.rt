//! The names of a text's instances, collected before its other lines are read. So the number of a partner is known when
//! its event is read.
ghost use Rattle.std.specs.Prelude.{◌≡◌, IfOk};
ghost use Rattle.texts.specs.Instances.{with_name};
ghost use Rattle.msc_text.specs.Reader.Ahead.{begins, given_or, with_begun, with_step, names_ahead};
ghost use Rattle.msc_text.specs.Reader.Steps.{step_of};
ghost use Rattle.msc_text.specs.declared.reader.state.State.TheVariants.{Outside};

use crate::reader::state::{Saying, State};
use crate::reader::step::step_in;
use chart::{Name, Names, NamesError};
use std::alloc::{AllocError, Global};
use texts::reading::next_line;

/// Whether the line begins like the line that begins an instance. Most lines don't.
fn begins(line: &[u8]) -> bool
    ensures { result ≡ begins line.now }
{
    match line {
        [first, second, third, ..] => *first == b'i' && *second == b'n' && *third == b's',
        _ => false,
    }
}

/// Gives the name to the next instance, if it may have it. It fails only if there is no memory.
fn give(names: &mut Names, name: Name) -> Result<(), AllocError>
    ensures { IfOk result (λ _. names.new ≡ given_or names.old (with_name names.old name)) }
{
    match names.add(name) {
        Ok(_) => Ok(()),
        Err(NamesError::Duplicate) => Ok(()),
        Err(NamesError::Instances) => Ok(()),
        Err(NamesError::Memory) => Err(AllocError),
    }
}

/// Adds the name of the instance that begins, if one does. It fails only if there is no memory.
fn add_begun(names: &mut Names, saying: Saying) -> Result<(), AllocError>
    ensures { IfOk result (λ _. names.new ≡ with_begun names.old saying) }
{
    match saying {
        Saying::Head(own) => give(names, own),
        _ => Ok(()),
    }
}

/// Adds the name of the instance that the line begins, if it begins one. It fails only if there is no memory.
fn add_head(names: &mut Names, line: &[u8]) -> Result<(), AllocError>
    ensures { IfOk result (λ _. names.new ≡ with_step names.old (step_of Outside line.now)) }
{
    if !begins(line) {
        return Ok(());
    }
    match step_in(State::Outside, line) {
        Ok((saying, _)) => add_begun(names, saying),
        Err(_) => Ok(()),
    }
}

/// The names of the instances that begin in the text, whatever else is wrong with it. It fails only if there is no
/// memory.
pub(crate) fn names_ahead(alloc: Global, bytes: &[u8]) -> Result<Names, AllocError>
    ensures { IfOk result (λ names. names ≡ names_ahead bytes.now) }
{
    let mut names = Names::new(alloc);
    let mut rest = bytes;
    'lines: loop {
        match next_line(rest) {
            None => return Ok(names),
            Some((line, after)) => {
                add_head(&mut names, line)?;
                rest = after;
            }
        }
    }
}
