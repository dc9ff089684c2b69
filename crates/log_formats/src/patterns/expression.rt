//! Expressions by which the lines of a log are read.
ghost use Rattle.std.specs.Prelude.{IfOk, IfErr};
ghost use Rattle.log_formats.specs.Patterns.Expressions.{IsCompiled, IsExpression, IsBad};

use crate::patterns::feeds::feeds_in;
use crate::patterns::groups::{Groups, groups_in};
use crate::patterns::missing::{Group, lacks, lacks_besides};
use regex::Error;
use regex::bytes::Regex;
use regex_syntax::ErrorKind;
use std::alloc::Global;

/// An expression by which the lines of a log are read.
#[derive(Drop)]
pub struct Expression {
    pub(crate) regex: Regex,
    pub(crate) groups: Groups,
    /// The number of further lines in which it is searched, after a line.
    pub(crate) more: usize,
}

/// Why a text is no such expression.
#[derive(Clone, Copy, Debug, PartialEq, Eq)]
pub enum Fault {
    /// The grammar refuses the text for this.
    Unreadable(ErrorKind),
    /// The compiled expression would be too large.
    TooLarge,
    /// It has none of the sets of groups. The first group is the one that it lacks of the set that is meant. If another
    /// set may be meant too, the second group is the one that it lacks of that set.
    Lacks(Group, Option<Group>),
}

/// Why there is no such expression.
#[derive(Clone, Copy, Debug, PartialEq, Eq)]
pub enum BadExpression {
    /// F6: a growth was refused.
    Memory,
    /// F39: the text has a fault that begins at this place, counted in bytes from 1. The place may be the one after its
    /// end.
    At(usize, Fault),
}

/// Compiles the text with the own options of the crate `regex`.
fn compiled(alloc: Global, text: &str) -> Result<Regex, BadExpression>
    ensures ok { IfOk result (IsCompiled text.now) }
    ensures err { IfErr result (IsBad text.now) }
{
    match Regex::new(alloc, text) {
        Ok(regex) => Ok(regex),
        Err(Error::OutOfMemory) => Err(BadExpression::Memory),
        Err(Error::Syntax(error)) => Err(BadExpression::At(
            error.span.start + 1,
            Fault::Unreadable(error.kind),
        )),
        Err(Error::CompiledTooBig | Error::Internal) => {
            Err(BadExpression::At(text.len() + 1, Fault::TooLarge))
        }
    }
}

impl Expression {
    /// Reads an expression, in the syntax of Rust's regex crate and with its own options. The expression has one of
    /// these sets of groups, and of several the first:
    ///
    /// - `host`, `dir`, `peer`, `name`, and optionally `id`, `takes` and `arrive`
    /// - `src`, `dst`, `name`, and optionally `id`
    /// - `host`, `clock` and `event`
    pub fn new(alloc: Global, text: &str) -> Result<Expression, BadExpression>
        ensures ok { IfOk result (IsExpression text.now) }
        ensures err { IfErr result (IsBad text.now) }
    {
        let regex = compiled(alloc, text)?;
        match groups_in(&regex) {
            Some(groups) => Ok(Expression {
                regex,
                groups,
                more: feeds_in(text.as_bytes()),
            }),
            None => Err(BadExpression::At(
                text.len() + 1,
                Fault::Lacks(lacks(&regex), lacks_besides(&regex)),
            )),
        }
    }
}
