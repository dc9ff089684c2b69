//! The line of an event among the commands of a schedule's text.
ghost use Rattle.std.specs.Prelude.{◌≡◌};
ghost use Rattle.texts.specs.Lines.{words_of};
ghost use Rattle.cmd_page.specs.Text.EventRows.{done_by, is_so, says, is_turn, left_behind, row_of};

use texts::{Words, next_line, words_in};

/// The action of a command: its instance, whether it sends or receives, and its partner.
#[derive(Clone, Copy)]
pub struct Deed<'a> {
    pub instance: &'a [u8],
    /// `send` or `receive`.
    pub verb: &'a [u8],
    pub partner: &'a [u8],
}

/// Whether three words state this action.
fn is_so(deed: &Deed<'_>, instance: &[u8], verb: &[u8], partner: &[u8]) -> bool
    ensures { result ≡ is_so (done_by deed.now) instance.now verb.now partner.now }
{
    instance == deed.instance && verb == deed.verb && partner == deed.partner
}

/// Whether a line states this action. The name of the message follows a send.
fn says(deed: &Deed<'_>, line: &[u8]) -> bool
    ensures { result ≡ says (done_by deed.now) (words_of line.now) }
{
    match words_in(line) {
        Words::One(_) | Words::Two(_, _) | Words::More => false,
        Words::Three(instance, verb, partner) => is_so(deed, instance, verb, partner),
        Words::Four(instance, verb, partner, _) => is_so(deed, instance, verb, partner),
    }
}

/// Whether a line states this action and is the last one to be found.
fn is_turn(deed: &Deed<'_>, line: &[u8], left: u64) -> bool
    ensures { result ≡ is_turn (done_by deed.now) left line.now }
{
    says(deed, line) && left == 1
}

/// The number of lines to be found after a line.
fn left_behind(deed: &Deed<'_>, line: &[u8], left: u64) -> u64
    ensures { result ≡ left_behind (done_by deed.now) left line.now }
{
    if says(deed, line) {
        left.saturating_sub(1)
    } else {
        left
    }
}

/// The number, from 1, of the line in a schedule's text that states this action for the `turn`-th time, or 0 if none
/// does.
pub fn row_of(text: &[u8], deed: &Deed<'_>, turn: u64) -> u64
    ensures { result ≡ row_of (done_by deed.now) turn text.now }
{
    let mut rest = text;
    let mut number = 1u64;
    let mut left = turn;
    'lines: while let Some((line, others)) = next_line(rest) {
        if is_turn(deed, line, left) {
            return number;
        }
        left = left_behind(deed, line, left);
        number = number.saturating_add(1);
        rest = others;
    }
    0
}
