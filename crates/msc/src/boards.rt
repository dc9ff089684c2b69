//! The exports for whole boards.
ghost use Rattle.std.specs.Prelude.{◌≡◌};
ghost use Rattle.c_board.specs.declared.misuse.Numbering.TheVariants.{Alike, ByCause};
ghost use Rattle.c_board.specs.Boards.Naming.{words_in};
ghost use Rattle.c_board.specs.Chairs.{AreNumberedApart};
ghost use Rattle.c_board.specs.Opening.{kept_by};
ghost use Rattle.msc.specs.BoardAnswers.{OpensAll, CarriesBoard, GathersAll, MeetsAll, WritesText, CopiesReport};
ghost use Rattle.msc.specs.BoardAnswers.{CopiesLeft};

use crate::answers::{MscLeft, MscReport};
use crate::board_codes::{done_by_cause, report_code, waiting_code};
use crate::codes::{count_code, done_code};
use c_board::boards::{Place, copy_text, report_at, waiting_at};
use c_board::{BoardNumber, Handle, gather, meet, open};
use std::alloc::Global;

/// All boards that this opens have one number: clients of version 1.0 promise that posts are of one board.
#[unsafe(no_mangle)]
pub extern "C" fn msc_open_(alloc: Global, posts: &mut [Handle], capacity: u32) -> i32
    ensures { OpensAll Alike capacity (record { origin = 0; count = 0 }) (kept_by posts.old) result (kept_by posts.new) }
{
    let unnumbered = BoardNumber {
        origin: 0,
        count: 0,
    };
    done_code(open(alloc, posts, capacity, unnumbered))
}

#[unsafe(no_mangle)]
pub extern "C" fn msc_open_numbered_(
    alloc: Global,
    posts: &mut [Handle],
    capacity: u32,
    origin: u64,
    number: u64,
) -> i32
    ensures { OpensAll ByCause capacity (record { origin = origin; count = number }) (kept_by posts.old) result
        (kept_by posts.new) }
{
    let board_number = BoardNumber {
        origin,
        count: number,
    };
    done_by_cause(open(alloc, posts, capacity, board_number))
}

#[unsafe(no_mangle)]
pub extern "C" fn msc_gather_(alloc: Global, posts: &mut [Handle], board: &mut Handle) -> i32
    requires { AreNumberedApart (kept_by posts.old) }
    ensures { GathersAll (kept_by posts.old) board.old.slot.value result (kept_by posts.new) board.new.slot.value }
{
    done_code(gather(alloc, posts, board))
}

#[unsafe(no_mangle)]
pub extern "C" fn msc_meet_(alloc: Global, posts: &mut [Handle]) -> i32
    requires { AreNumberedApart (kept_by posts.old) }
    ensures { MeetsAll (kept_by posts.old) result (kept_by posts.new) }
{
    done_code(meet(alloc, posts))
}

#[unsafe(no_mangle)]
pub extern "C" fn msc_carry_over_(
    alloc: Global,
    board: &mut Handle,
    posts: &mut [Handle],
    carried: &mut [usize],
    count: &mut usize,
) -> i32
    requires { AreNumberedApart (kept_by posts.old) }
    ensures { CarriesBoard board.old.slot.value (kept_by posts.old) carried.old
        (record { code = result; before = count.old; output = count.new })
        board.new.slot.value (kept_by posts.new) carried.new }
{
    let answer = board.carry_over(alloc, posts, carried);
    count_code(answer, count)
}

#[unsafe(no_mangle)]
pub extern "C" fn msc_board_text_(
    alloc: Global,
    board: &mut Handle,
    names: &[u8],
    lengths: &[usize],
    buffer: &mut [u8],
    length: &mut usize,
) -> i32
    ensures same { board.new.slot.value ≡ board.old.slot.value }
    ensures answer { WritesText board.old.slot.value (words_in names.now lengths.now) buffer.old
        (record { code = result; before = length.old; output = length.new }) buffer.new }
{
    let answer = copy_text(alloc, board, names, lengths, buffer);
    count_code(answer, length)
}

#[unsafe(no_mangle)]
pub extern "C" fn msc_board_report_(
    board: &mut Handle,
    number: usize,
    report: &mut MscReport,
    buffer: &mut [u32],
) -> i32
    ensures same { board.new.slot.value ≡ board.old.slot.value }
    ensures answer { CopiesReport board.old.slot.value number buffer.old
        (record { code = result; before = report.old; output = report.new }) buffer.new }
{
    report_code(report_at(board, number, buffer), report)
}

#[unsafe(no_mangle)]
pub extern "C" fn msc_board_left_(
    board: &mut Handle,
    place: &Place,
    left: &mut MscLeft,
    name: &mut [u8],
    body: &mut [u8],
) -> i32
    ensures same { board.new.slot.value ≡ board.old.slot.value }
    ensures answer { CopiesLeft board.old.slot.value place.now (record { name = name.old; body = body.old })
        (record { code = result; before = left.old; output = left.new }) (record { name = name.new; body = body.new }) }
{
    waiting_code(waiting_at(board, place, name, body), left)
}
