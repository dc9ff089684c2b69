//! Posts and boards in the memory of another language: a [`Handle`] is two words, and its content is in a box.
//!
//! C has no lifetimes, so a handle borrows nothing. With its post it keeps the board's words, which are freed with the
//! last post of the board, in any thread. Each call borrows what it needs in place, in the box. If a handle keeps
//! nothing, or not what a call wants, the call is refused with a [`Misuse`], and nothing has changed.
//!
//! `specs/PostStates.antt` defines what a contract sees of a post in a handle. `Sending` and its neighbours define what
//! each call answers: the answer of the call of `board` below it, restated for the handle. Each call has an enum of its
//! own refusals, and [`Numbered`] gives each its number.
//!
//! [`boards`] copies out what a gathered board has.
#![tactic(auto)]

mod any;
mod away;
mod bearing;
mod board_number;
pub mod boards;
mod came;
mod carrying;
mod chair;
mod closing;
mod copying;
mod events;
mod found;
mod gathering;
mod handle;
mod kept;
pub mod laws;
mod loose;
mod meeting;
mod misuse;
mod naming;
mod numbered;
mod opening;
mod post_state;
mod receiving;
mod receiving_many;
mod regions;
mod reserving;
mod sending;
mod sending_all;
mod slot;
mod taking;
mod whole_board;
mod words;

pub use board_number::BoardNumber;
pub use came::{Came, Which};
pub use carrying::CarryRefusal;
pub use closing::CloseRefusal;
pub use copying::{copy_events, copy_out};
pub use events::EventRefusal;
pub use found::{Arrived, EventInfo, Found, FoundMany, MessageLengths};
pub use gathering::{GatherRefusal, gather};
pub use handle::Handle;
pub use kept::Kept;
pub use meeting::{MeetRefusal, meet};
pub use misuse::{Misuse, Numbering};
pub use numbered::Numbered;
pub use opening::{OpenRefusal, open};
pub use post_state::PostState;
pub use receiving::{AnyRefusal, TakeRefusal};
pub use regions::RegionRefusal;
pub use reserving::ReserveRefusal;
pub use sending::{MessageRefusal, SendRefusal};
pub use whole_board::WholeBoard;
pub use words::word_at;
