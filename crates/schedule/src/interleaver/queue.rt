//! The remaining commands of an instance.
ghost use Rattle.std.specs.Prelude.{◌≡◌, ◌++◌, ◌∷◌, [], not, take, drop, OnOk};
ghost use Rattle.std.specs.Option.{option_to_list};
ghost use Rattle.schedule.specs.Interleaver.Interleavings.{are_some};

use crate::Command;
use crate::interleaver::error::Memory;
use std::alloc::Global;
use std::collections::VecDeque;
use std::marker::Model;

/// The remaining commands of one instance, in order. A contract sees the list.
#[derive(Debug, Drop)]
pub struct Queue {
    commands: VecDeque<Command>,
}

impl Model for Queue {
    ghost use Rattle.std.specs.Prelude.{List};
    ghost use Rattle.schedule.specs.declared.command.Command.{Command};

    ghost Value = { List Command };

    ghost view = { λ q. q.commands.items };
}

impl Queue {
    /// No commands. It takes no memory.
    pub fn new(alloc: Global) -> Queue
        ensures { result ≡ [] }
    {
        Queue {
            commands: VecDeque::new(alloc),
        }
    }

    pub fn is_empty(&self) -> bool
        ensures { result ≡ not (are_some self.now) }
    {
        self.commands.is_empty()
    }

    /// Adds a command at the end.
    pub fn push(&mut self, command: Command) -> Result<(), Memory>
        ensures { OnOk result (self.new ≡ self.old ++ command ∷ []) }
    {
        // Field by field: the borrow checker has to see the types of which a type of another crate consists.
        let Command {
            line,
            actor,
            action,
        } = command;
        self.commands.push_back(Command {
            line,
            actor,
            action,
        })?;
        Ok(())
    }

    /// Takes the next command.
    pub fn pop(&mut self) -> Option<Command>
        ensures next { option_to_list result ≡ take 1 self.old }
        ensures rest { self.new ≡ drop 1 self.old }
    {
        self.commands.pop_front()
    }
}
