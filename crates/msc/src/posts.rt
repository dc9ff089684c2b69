//! The exports for posts.
ghost use Rattle.std.specs.Prelude.{◌≡◌, None};
ghost use Rattle.msc.specs.Answers.{Sends, Takes, TakesAny, Closes, OpensRegion};
ghost use Rattle.msc.specs.Answers.{ShutsRegion, CopiesEvent, Reserves, SendsAll};

use crate::answers::MscEvent;
use crate::codes::{code_of, done_code, event_code, first_code, found_code, peek_code};
use c_board::{Arrived, Handle, MessageLengths};
use std::alloc::Global;

#[unsafe(no_mangle)]
pub extern "C" fn msc_send_(
    alloc: Global,
    post: &mut Handle,
    to: u32,
    name: &[u8],
    body: &[u8],
    event: &mut u32,
) -> i32
    ensures { Sends post.old.slot.value to name.now body.now
        (record { code = result; before = event.old; output = event.new }) post.new.slot.value }
{
    match post.send(alloc, to, name, body) {
        Ok(sent) => {
            *event = sent.index;
            0
        }
        Err(refusal) => code_of(refusal),
    }
}

#[unsafe(no_mangle)]
pub extern "C" fn msc_send_all_(
    alloc: Global,
    post: &mut Handle,
    to: u32,
    bytes: &[u8],
    lengths: &[MessageLengths],
    event: &mut u32,
) -> i32
    ensures { SendsAll post.old.slot.value to bytes.now lengths.now
        (record { code = result; before = event.old; output = event.new }) post.new.slot.value }
{
    first_code(post.send_all(alloc, to, bytes, lengths), event)
}

#[unsafe(no_mangle)]
pub extern "C" fn msc_receive_(post: &mut Handle, from: u32, arrival: &mut Arrived) -> i32
    ensures { Takes post.old.slot.value from (record { code = result; before = arrival.old; output = arrival.new })
        post.new.slot.value }
{
    peek_code(post.receive(from, arrival))
}

#[unsafe(no_mangle)]
pub extern "C" fn msc_any_(post: &mut Handle, arrival: &mut Arrived) -> i32
    ensures { TakesAny post.old.slot.value (record { code = result; before = arrival.old; output = arrival.new })
        post.new.slot.value }
{
    found_code(post.any(), arrival)
}

#[unsafe(no_mangle)]
pub extern "C" fn msc_close_(post: &mut Handle, to: u32) -> i32
    ensures { Closes post.old.slot.value to result post.new.slot.value }
{
    done_code(post.close(to))
}

#[unsafe(no_mangle)]
pub extern "C" fn msc_open_coregion_(post: &mut Handle) -> i32
    ensures { OpensRegion post.old.slot.value result post.new.slot.value }
{
    done_code(post.open_coregion())
}

#[unsafe(no_mangle)]
pub extern "C" fn msc_close_coregion_(post: &mut Handle) -> i32
    ensures { ShutsRegion post.old.slot.value result post.new.slot.value }
{
    done_code(post.close_coregion())
}

#[unsafe(no_mangle)]
pub extern "C" fn msc_reserve_(post: &mut Handle, events: u32) -> i32
    ensures { Reserves post.old.slot.value events result post.new.slot.value }
{
    done_code(post.reserve(events))
}

#[unsafe(no_mangle)]
pub extern "C" fn msc_event_(
    post: &mut Handle,
    number: u32,
    event: &mut MscEvent,
    buffer: &mut [u8],
) -> i32
    ensures same { post.new.slot.value ≡ post.old.slot.value }
    ensures answer { CopiesEvent post.old.slot.value number buffer.old
        (record { code = result; before = event.old; output = event.new }) buffer.new }
{
    event_code(post.event(number, buffer), event)
}

#[unsafe(no_mangle)]
pub extern "C" fn msc_free_(alloc: Global, handle: &mut Handle)
    ensures { handle.new.slot.value ≡ None }
{
    handle.free(alloc);
}
