//! The exports for the messages that were received last.
ghost use Rattle.std.specs.Prelude.{◌≡◌};
ghost use Rattle.c_board.specs.Copying.{name_in, body_in};
ghost use Rattle.c_board.specs.declared.came.Which.TheVariants.{Last, At};
ghost use Rattle.msc.specs.Answers.{Copies, CopiesRaces};
ghost use Rattle.msc.specs.Several.{TakesUpTo};

use crate::codes::count_code;
use crate::several::many_code;
use c_board::{Arrived, Handle, Which};

#[unsafe(no_mangle)]
pub extern "C" fn msc_receive_up_to_(
    post: &mut Handle,
    from: u32,
    arrivals: &mut [Arrived],
    count: &mut usize,
) -> i32
    ensures { TakesUpTo post.old.slot.value from arrivals.old result arrivals.new count.new post.new.slot.value }
{
    many_code(post.receive_up_to(from, arrivals), count)
}

#[unsafe(no_mangle)]
pub extern "C" fn msc_name_(post: &mut Handle, buffer: &mut [u8], length: &mut usize) -> i32
    ensures same { post.new.slot.value ≡ post.old.slot.value }
    ensures answer { Copies name_in Last post.old.slot.value buffer.old
        (record { code = result; before = length.old; output = length.new }) buffer.new }
{
    count_code(post.copy_name(Which::Last, buffer), length)
}

#[unsafe(no_mangle)]
pub extern "C" fn msc_body_(post: &mut Handle, buffer: &mut [u8], length: &mut usize) -> i32
    ensures same { post.new.slot.value ≡ post.old.slot.value }
    ensures answer { Copies body_in Last post.old.slot.value buffer.old
        (record { code = result; before = length.old; output = length.new }) buffer.new }
{
    count_code(post.copy_body(Which::Last, buffer), length)
}

#[unsafe(no_mangle)]
pub extern "C" fn msc_races_(post: &mut Handle, buffer: &mut [u32], count: &mut usize) -> i32
    ensures same { post.new.slot.value ≡ post.old.slot.value }
    ensures answer { CopiesRaces Last post.old.slot.value buffer.old
        (record { code = result; before = count.old; output = count.new }) buffer.new }
{
    count_code(post.copy_races(Which::Last, buffer), count)
}

#[unsafe(no_mangle)]
pub extern "C" fn msc_name_of_(
    post: &mut Handle,
    place: usize,
    buffer: &mut [u8],
    length: &mut usize,
) -> i32
    ensures same { post.new.slot.value ≡ post.old.slot.value }
    ensures answer { Copies name_in (At place) post.old.slot.value buffer.old
        (record { code = result; before = length.old; output = length.new }) buffer.new }
{
    count_code(post.copy_name(Which::At(place), buffer), length)
}

#[unsafe(no_mangle)]
pub extern "C" fn msc_body_of_(
    post: &mut Handle,
    place: usize,
    buffer: &mut [u8],
    length: &mut usize,
) -> i32
    ensures same { post.new.slot.value ≡ post.old.slot.value }
    ensures answer { Copies body_in (At place) post.old.slot.value buffer.old
        (record { code = result; before = length.old; output = length.new }) buffer.new }
{
    count_code(post.copy_body(Which::At(place), buffer), length)
}

#[unsafe(no_mangle)]
pub extern "C" fn msc_races_of_(
    post: &mut Handle,
    place: usize,
    buffer: &mut [u32],
    count: &mut usize,
) -> i32
    ensures same { post.new.slot.value ≡ post.old.slot.value }
    ensures answer { CopiesRaces (At place) post.old.slot.value buffer.old
        (record { code = result; before = count.old; output = count.new }) buffer.new }
{
    count_code(post.copy_races(Which::At(place), buffer), count)
}
