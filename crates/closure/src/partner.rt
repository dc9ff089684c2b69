//! The other end of a message.

use std::mem::size_of;

/// The other end of an event's message.
#[derive(Clone, Copy)]
pub enum Partner {
    /// The event is a send, to the line at this place.
    Receiver { line: u8 },
    /// The event is a receive. It belongs to the send with this index, from 1, of the line at this place.
    Sender { line: u8, index: u16 },
}

// It is small, so that the partners of a chart's events stay in the cache during a search.
const _: () = prove!(size_of::<Partner>() == 4);
