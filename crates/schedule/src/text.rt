//! Schedules as text.
ghost use Rattle.std.specs.Prelude.{◌≡◌, ◌≤◌, ◌∷◌, [], length, All};
ghost use Rattle.std.specs.List.{flat_map};
ghost use Rattle.texts.specs.Instances.{name_at};
ghost use Rattle.texts.specs.Writing.{Wrote, Adds};
ghost use Rattle.schedule.specs.Keywords.{written};
ghost use Rattle.schedule.specs.declared.keyword.ScheduleWord.TheVariants as keywords;
ghost use Rattle.schedule.specs.Plans.{IsAmong, HasPartner};
ghost use Rattle.schedule.specs.ScheduleText.{action_words, schedule_text};
ghost use Rattle.schedule.specs.WrittenLines.{behind_space, line_end, line_of, capacity_text, command_text, plan_text};

use crate::command::{Action, Command};
use crate::keyword::ScheduleWord;
use crate::schedule::{Capacity, Schedule};
use chart::{InstanceNo, Names};
use itoa::Buffer;
use texts::{Out, TextBuffer, WriteError, named};

/// Adds a space and the word.
#[tactic(auto, unfolding(crate::specs::WrittenLines::behind_space))]
fn add_word<W: Out>(text: &mut TextBuffer<'_, W>, word: &[u8]) -> Result<(), WriteError>
    ensures { Adds W.sink text.old text.new result (behind_space word.now) }
{
    text.add_all(&[b" ", word])
}

#[tactic(auto, unfolding(crate::specs::WrittenLines::line_end))]
fn add_line_end<W: Out>(text: &mut TextBuffer<'_, W>) -> Result<(), WriteError>
    ensures { Adds W.sink text.old text.new result line_end }
{
    text.add(b"\n")
}

/// Adds a space and the name, for each of the names.
fn add_names<W: Out>(text: &mut TextBuffer<'_, W>, names: &Names) -> Result<(), WriteError>
    ensures { Adds W.sink text.old text.new result (flat_map behind_space names.now) }
{
    for place in 0..names.len() {
        let name = named(names, InstanceNo::at_place(place));
        add_word(text, name.as_bytes())?;
    }
    Ok(())
}

/// Adds line 1.
#[tactic(auto, using(texts::proofs::Writes::joining), unfolding(crate::specs::WrittenLines::line_of))]
fn add_instances<W: Out>(text: &mut TextBuffer<'_, W>, names: &Names) -> Result<(), WriteError>
    ensures { Adds W.sink text.old text.new result (line_of (written keywords.Instances) names.now) }
{
    text.add(ScheduleWord::Instances.as_bytes())?;
    add_names(text, names)?;
    add_line_end(text)
}

/// Adds line 2.
#[tactic(auto, using(texts::proofs::Writes::joining), unfolding(crate::specs::WrittenLines::capacity_text))]
fn add_capacity<W: Out>(text: &mut TextBuffer<'_, W>, capacity: Capacity) -> Result<(), WriteError>
    ensures { Adds W.sink text.old text.new result (capacity_text capacity) }
{
    let mut buffer = Buffer::new();
    let number = buffer.format(capacity.slots()).as_bytes();
    text.add(ScheduleWord::Capacity.as_bytes())?;
    add_word(text, number)?;
    add_line_end(text)
}

/// Adds the word and the partner's name.
#[tactic(auto, unfolding(crate::specs::WrittenLines::behind_space))]
fn add_with_partner<W: Out>(
    text: &mut TextBuffer<'_, W>,
    names: &Names,
    word: ScheduleWord,
    partner: InstanceNo,
) -> Result<(), WriteError>
    requires { partner ≤ length names.now }
    ensures { Adds W.sink text.old text.new result
        (flat_map behind_space (written word ∷ name_at names.now partner ∷ [])) }
{
    let name = named(names, partner);
    text.add_all(&[b" ", word.as_bytes(), b" ", name.as_bytes()])
}

/// Adds the words after the actor's name.
#[tactic(auto, unfolding(crate::specs::WrittenLines::behind_space))]
fn add_action<W: Out>(
    text: &mut TextBuffer<'_, W>,
    names: &Names,
    actor: InstanceNo,
    action: &Action,
) -> Result<(), WriteError>
    requires { HasPartner (length names.now) actor action.now }
    ensures { Adds W.sink text.old text.new result
        (flat_map behind_space (action_words names.now action.now)) }
{
    match action {
        Action::Send { to, name } => {
            let partner = named(names, *to);
            text.add_all(&[
                b" ",
                ScheduleWord::Send.as_bytes(),
                b" ",
                partner.as_bytes(),
                b" ",
                name.as_bytes(),
            ])
        }
        Action::Receive { from } => add_with_partner(text, names, ScheduleWord::Receive, *from),
        Action::Any => add_word(text, ScheduleWord::Any.as_bytes()),
        Action::Close { to } => add_with_partner(text, names, ScheduleWord::Close, *to),
        Action::Open => add_word(text, ScheduleWord::Concurrent.as_bytes()),
        Action::Shut => add_word(text, ScheduleWord::EndConcurrent.as_bytes()),
    }
}

/// Adds the command's line.
#[tactic(auto, using(texts::proofs::Writes::joining), unfolding(crate::specs::WrittenLines::line_of))]
fn add_command<W: Out>(
    text: &mut TextBuffer<'_, W>,
    names: &Names,
    command: &Command,
) -> Result<(), WriteError>
    requires { IsAmong (length names.now) command.now }
    ensures { Adds W.sink text.old text.new result (command_text names.now command.now) }
{
    let actor = named(names, command.actor);
    text.add(actor.as_bytes())?;
    add_action(text, names, command.actor, &command.action)?;
    add_line_end(text)
}

fn add_commands<W: Out>(
    text: &mut TextBuffer<'_, W>,
    names: &Names,
    commands: &[Command],
) -> Result<(), WriteError>
    requires { All (IsAmong (length names.now)) commands.now }
    ensures { Adds W.sink text.old text.new result (flat_map (command_text names.now) commands.now) }
{
    for command in commands {
        add_command(text, names, command)?;
    }
    Ok(())
}

/// Adds the three parts of a schedule's text.
#[tactic(auto, using(texts::proofs::Writes::joining), unfolding(crate::specs::WrittenLines::plan_text))]
fn add_schedule<W: Out>(text: &mut TextBuffer<'_, W>, schedule: &Schedule) -> Result<(), WriteError>
    ensures { Adds W.sink text.old text.new result (plan_text schedule.now) }
{
    let names = schedule.names();
    add_instances(text, names)?;
    add_capacity(text, schedule.capacity())?;
    add_commands(text, names, schedule.commands())
}

/// Writes the three parts.
#[tactic(auto, using(texts::proofs::Writes::joining))]
fn write_lines<W: Out>(schedule: &Schedule, out: &mut W) -> Result<(), WriteError>
    ensures { Wrote W.sink out.old out.new result (plan_text schedule.now) }
{
    let mut text = TextBuffer::new(out);
    add_schedule(&mut text, schedule)?;
    text.finish()
}

impl Schedule {
    /// Writes the schedule's text: its commands follow one after another from line 3 on, whatever lines they had. It
    /// takes no memory. If a put fails (F24), a beginning of the text was written, and no further put is tried.
    pub fn write<W: Out>(&self, out: &mut W) -> Result<(), WriteError>
        ensures { Wrote W.sink out.old out.new result (schedule_text self.now) }
    {
        write_lines(self, out)
    }
}
