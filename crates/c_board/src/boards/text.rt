//! The text of a gathered board's chart.
ghost use Rattle.std.specs.Prelude.{◌≡◌, length, IfSome};
ghost use Rattle.msc_text.specs.ChartText.{chart_text};
ghost use Rattle.c_board.specs.Boards.Naming.{words_in};
ghost use Rattle.c_board.specs.Boards.BoardText.{HandleWritesText, of_text};

use crate::boards::naming::{NamesRefusal, names_in};
use crate::misuse::{Misuse, Numbering};
use crate::numbered::Numbered;
use crate::{Handle, Kept, copy_out};
use chart::{Chart, Names};
use msc_text::write;
use std::alloc::Global;
use texts::MemoryOut;

/// Why a board's text isn't copied out: the first of these that applies.
#[derive(Clone, Copy)]
pub enum TextRefusal {
    /// A misuse: the handle keeps no board.
    NoBoard,
    /// A misuse: there is another number of names than of instances.
    WrongNumber,
    /// F1 to F4, F22 or F6: the names are refused.
    Names(NamesRefusal),
    /// F6: there is no memory for the text.
    Memory,
}

impl Numbered for TextRefusal {
    ghost number = { λ misuses refusal. of_text misuses refusal };

    fn number(self, misuses: Numbering) -> u32 {
        match self {
            TextRefusal::NoBoard => Misuse::NoBoard.number(misuses),
            TextRefusal::WrongNumber => Misuse::WrongNumber.number(misuses),
            TextRefusal::Names(refusal) => refusal.number(misuses),
            TextRefusal::Memory => 6,
        }
    }
}

/// The chart's text in memory, if there is memory for it.
fn text_in_memory(alloc: Global, names: &Names, chart: &Chart) -> Option<MemoryOut>
    requires { length names.now ≡ length chart.now }
    ensures { IfSome result (λ text. text.bytes ≡ chart_text names.now chart.now) }
{
    let mut text = MemoryOut::new(alloc);
    match write(names, chart, &mut text) {
        Ok(()) => Some(text),
        Err(_) => None,
    }
}

/// Copies out the text of the board that is kept.
fn copy_kept(
    alloc: Global,
    kept: &Kept,
    names: &[u8],
    lengths: &[usize],
    out: &mut [u8],
) -> Result<usize, TextRefusal>
    ensures { HandleWritesText (Some kept.now) (words_in names.now lengths.now) out.old result out.new }
{
    let Some(whole) = kept.board() else {
        return Err(TextRefusal::NoBoard);
    };
    let chart = &whole.gathered.chart;
    if lengths.len() != chart.lines().len() {
        return Err(TextRefusal::WrongNumber);
    }
    let names = match names_in(alloc, names, lengths) {
        Ok(names) => names,
        Err(refusal) => return Err(TextRefusal::Names(refusal)),
    };
    // The prover learns the invariant of a list of names from a call on it.
    let _ = names.len();
    match text_in_memory(alloc, &names, chart) {
        Some(text) => Ok(copy_out(text.as_bytes(), out)),
        None => Err(TextRefusal::Memory),
    }
}

/// Copies out the text of the board's chart, as much as there is room for, and returns how long the text is. The names
/// of its instances are one after another in `names`, with these lengths. If there aren't as many names as instances,
/// the call is a misuse. Otherwise the first of F1 to F4, F22 and F6 that applies refuses it.
pub fn copy_text(
    alloc: Global,
    board: &mut Handle,
    names: &[u8],
    lengths: &[usize],
    out: &mut [u8],
) -> Result<usize, TextRefusal>
    ensures same { board.new.slot.value ≡ board.old.slot.value }
    ensures answer { HandleWritesText board.old.slot.value (words_in names.now lengths.now) out.old result out.new }
{
    if board.is_empty() {
        return Err(TextRefusal::NoBoard);
    }
    let kept = board.slot.get_mut();
    copy_kept(alloc, &*kept, names, lengths, out)
}
