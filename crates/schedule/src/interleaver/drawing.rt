//! Draws the instance whose turn it is.
ghost use Rattle.std.specs.Prelude.{ℕ, ◌≡◌, ◌∷◌, [], List, length, map, All, IfOk};
ghost use Rattle.std.specs.List.{range_with_len};
ghost use Rattle.rand_core.specs.Steps.{first_words};
ghost use Rattle.rand_pcg.specs.Pcg.{pcg32};
ghost use Rattle.schedule.specs.Plans.{IsAmong};
ghost use Rattle.schedule.specs.declared.command.Command.{Command};
ghost use Rattle.schedule.specs.Interleaver.Interleavings.{own, interleaved, generator, drawn_of};
ghost use Rattle.schedule.specs.Interleaver.Draws.{AreOf, queues_of, Draws};

use crate::interleaver::error::Memory;
use crate::interleaver::queue::Queue;
use crate::{Command, Schedule};
use rand_core::SeedableRng;
use rand_core::utils::NextWord;
use rand_pcg::Lcg64Xsh32;
use std::alloc::Global;

/// An empty queue for each instance.
fn empty_queues(alloc: Global, instances: usize) -> Result<Vec<Queue>, Memory>
    ensures { IfOk result (λ queues. queues.items ≡ map (own []) (range_with_len 1 instances)) }
{
    let mut queues = Vec::with_capacity(alloc, instances)?;
    for _ in 0..instances {
        queues.push(Queue::new(alloc))?;
    }
    Ok(queues)
}

/// The queues of the instances that have commands, in rising order of the instances' numbers.
fn queues_of(alloc: Global, instances: usize, commands: &[Command]) -> Result<Vec<Queue>, Memory>
    requires { All (IsAmong instances) commands.now }
    ensures queues { IfOk result (λ queues. queues.items ≡ queues_of instances commands.now) }
    ensures numbers { IfOk result (λ _. AreOf instances commands.now) }
{
    let mut queues = empty_queues(alloc, instances)?;
    for command in commands {
        queues[command.actor.place()].push(*command)?;
    }
    queues.retain(|queue| !queue.is_empty());
    Ok(queues)
}

/// The next command of the instance whose turn the generator's next word draws, or nothing if no commands are left. A
/// queue that becomes empty is removed.
fn next_command(queues: &mut Vec<Queue>, generator: &mut Lcg64Xsh32) -> Option<Command>
    ensures { (n : ℕ) (left : List Command) → AreOf n left → queues.old.items ≡ queues_of n left
        → Draws n left generator.old result queues.new.items generator.new }
{
    if queues.is_empty() {
        return None;
    }
    let place = generator.next_word() as usize % queues.len();
    let command = queues[place].pop();
    if queues[place].is_empty() {
        queues.remove(place);
    }
    command
}

/// The commands, in the order that the seed draws.
fn drawn_commands(
    alloc: Global,
    instances: usize,
    commands: &[Command],
    seed: u64,
) -> Result<Vec<Command>, Memory>
    requires { All (IsAmong instances) commands.now }
    ensures order { IfOk result (λ drawn. drawn.items ≡ interleaved instances
        (first_words pcg32 (length commands.now) (generator seed)) commands.now) }
    ensures numbers { IfOk result (λ _. AreOf instances commands.now) }
{
    let mut queues = queues_of(alloc, instances, commands)?;
    let mut generator = Lcg64Xsh32::seed_from_u64(seed);
    let mut drawn = Vec::with_capacity(alloc, commands.len())?;
    while let Some(command) = next_command(&mut queues, &mut generator) {
        drawn.push(command)?;
    }
    Ok(drawn)
}

/// The schedule with its commands in the order that the seed draws, each with its line of the text.
///
/// The seed makes a generator, [`Lcg64Xsh32`]. Each command is drawn by the generator's next word, w. If m instances
/// have commands left, w draws the one with number w mod m among them, from 0, in rising order of their numbers. This
/// instance makes its next command. The call takes time in proportion to the commands.
///
/// F6: it fails only if there is no memory.
pub fn drawn(alloc: Global, schedule: &Schedule, seed: u64) -> Result<Schedule, Memory>
    ensures value { IfOk result (λ s. s ≡ drawn_of schedule.now seed) }
    ensures own { IfOk result (λ s. (p : ℕ) → own s.commands p ≡ own schedule.now.commands p) }
{
    let names = schedule.names();
    let commands = drawn_commands(alloc, names.len(), schedule.commands(), seed)?;
    Ok(Schedule::new(names.copied()?, schedule.capacity(), commands))
}
