//! What each command of a schedule leaves: the word of its note, or nothing if it is done.
ghost use Rattle.std.specs.Prelude.{◌≡◌, length, All, IfOk};
ghost use Rattle.board.specs.Views.{BoardView};
ghost use Rattle.schedule.specs.Meaning.{start};
ghost use Rattle.schedule.specs.Plans.{IsAmong};
ghost use Rattle.schedule_replay.specs.Agreement.{Agrees, AreFresh};
ghost use Rattle.schedule_replay.specs.Notes.Notes.{words_from, words_of};

use crate::commands::{begin, perform_one};
use crate::run::{board_for, posts_of};
use board::Post;
use chart::InstanceNo;
use schedule::outcomes::ReplayError;
use schedule::{Command, Schedule, Word};
use std::alloc::Global;

/// Makes the commands one after another, by posts that have met and that meet again after each command. It returns what
/// each command leaves.
fn perform(
    alloc: Global,
    posts: &mut [Post<'_>],
    last: &mut [Option<InstanceNo>],
    commands: &[Command],
) -> Result<Vec<Option<Word>>, ReplayError>
    requires among { All (IsAmong (length posts.old)) commands.now }
    requires fresh { (board : BoardView) × Agrees board start.run posts.old last.old }
    ensures { IfOk result (λ words. (board : BoardView) → Agrees board start.run posts.old last.old
        → words.items ≡ words_from board.size board.capacity start commands.now) }
{
    let mut words = Vec::new(alloc);
    for command in commands {
        words.push(perform_one(alloc, posts, last, command)?)?;
    }
    Ok(words)
}

/// The same, by new posts of a board, which meet first.
fn perform_all(
    alloc: Global,
    posts: &mut [Post<'_>],
    commands: &[Command],
) -> Result<Vec<Option<Word>>, ReplayError>
    requires new { (board : BoardView) × AreFresh board posts.old }
    requires among { All (IsAmong (length posts.old)) commands.now }
    ensures { IfOk result (λ words. (board : BoardView) → AreFresh board posts.old
        → words.items ≡ words_from board.size board.capacity start commands.now) }
{
    let mut last = begin(alloc, posts)?;
    perform(alloc, posts, &mut last, commands)
}

/// What each command of the schedule leaves. F6: it fails only if there is no memory.
pub(crate) fn words_of(alloc: Global, schedule: &Schedule) -> Result<Vec<Option<Word>>, ReplayError>
    ensures { IfOk result (λ words. words.items ≡ words_of schedule.now) }
{
    let mut board = board_for(alloc, schedule)?;
    let mut posts = posts_of(&mut board)?;
    perform_all(alloc, &mut posts, schedule.commands())
}
