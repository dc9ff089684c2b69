//! The messages that a gathered board left, one by one.
ghost use Rattle.std.specs.Prelude.{◌≡◌, IfSome, IfNone, slice_get, Some, [], ℕ};
ghost use Rattle.board.specs.declared.gathering.Left.{Left};
ghost use Rattle.c_board.specs.Copying.{put_over};
ghost use Rattle.c_board.specs.Boards.BoardCopies.{messages_on, is_on, waiting_of, CopiesWaiting, message_at};
ghost use Rattle.c_board.specs.Boards.BoardCopies.{HandleWaits, of_left};

use crate::misuse::{Misuse, Numbering};
use crate::numbered::Numbered;
use crate::{Handle, Kept, copy_out};
use board::Left;
use chart::Message;

/// The place of a waiting message on a gathered board.
#[repr(C)]
#[derive(Clone, Copy)]
pub struct Place {
    /// The sender of its lane.
    pub from: u32,
    /// The receiver of its lane.
    pub to: u32,
    /// Its number on the lane, from 1.
    pub number: usize,
}

/// The description of a message that waits on a lane of a gathered board.
#[derive(Clone, Copy)]
pub struct Waiting {
    /// How many bytes its name has.
    pub name: usize,
    /// How many bytes its body has.
    pub body: usize,
}

/// Why a message that waits on a board isn't looked for.
#[derive(Clone, Copy)]
pub enum LeftRefusal {
    /// A misuse: the handle keeps no board.
    NoBoard,
}

impl Numbered for LeftRefusal {
    ghost number = { λ misuses refusal. of_left misuses refusal };

    fn number(self, misuses: Numbering) -> u32 {
        match self {
            LeftRefusal::NoBoard => Misuse::NoBoard.number(misuses),
        }
    }
}

/// Whether the lane has these ends.
fn is_on(lane: &Left, from: u32, to: u32) -> bool
    ensures { result ≡ is_on lane.now from to }
{
    lane.sender.number() == from as usize && lane.receiver.number() == to as usize
}

/// The place of the lane with these ends, if messages wait on it.
fn place_of_lane(left: &[Left], from: u32, to: u32) -> Option<usize>
    ensures some { IfSome result (λ place. (lane : Left) × (slice_get left.now place ≡ Some lane)
        × (messages_on left.now from to ≡ lane.messages.items)) }
    ensures none { IfNone result (messages_on left.now from to ≡ []) }
{
    for place in 0..left.len() {
        if is_on(&left[place], from, to) {
            return Some(place);
        }
    }
    None
}

/// Describes a message, and copies out its name and its body, as much as there is room for.
fn copy_message(message: &Message, name: &mut [u8], body: &mut [u8]) -> Waiting
    ensures output { result ≡ waiting_of message.now }
    ensures names { name.new ≡ put_over message.now.name name.old }
    ensures bodies { body.new ≡ put_over message.now.body body.old }
{
    let its = message.name();
    Waiting {
        name: copy_out(its.as_bytes(), name),
        body: copy_out(message.body(), body),
    }
}

/// Describes the message at this place, if one waits there.
fn copy_nth(left: &[Left], place: &Place, name: &mut [u8], body: &mut [u8]) -> Option<Waiting>
    ensures { CopiesWaiting (message_at left.now place.now) (record { name = name.old; body = body.old }) result
        (record { name = name.new; body = body.new }) }
{
    let Some(lane) = place_of_lane(left, place.from, place.to) else {
        return None;
    };
    let messages = left[lane].messages.as_slice();
    let number = place.number;
    if number == 0 || number > messages.len() {
        return None;
    }
    Some(copy_message(&messages[number - 1], name, body))
}

/// Describes the message at this place, of the board that is kept.
fn copy_kept(
    kept: &Kept,
    place: &Place,
    name: &mut [u8],
    body: &mut [u8],
) -> Result<Option<Waiting>, LeftRefusal>
    ensures { HandleWaits (Some kept.now) place.now (record { name = name.old; body = body.old }) result
        (record { name = name.new; body = body.new }) }
{
    let Some(whole) = kept.board() else {
        return Err(LeftRefusal::NoBoard);
    };
    Ok(copy_nth(whole.gathered.left.as_slice(), place, name, body))
}

/// Describes the message at this place, if one waits there. The call copies out its name and its body, as much as there
/// is room for.
pub fn waiting_at(
    board: &mut Handle,
    place: &Place,
    name: &mut [u8],
    body: &mut [u8],
) -> Result<Option<Waiting>, LeftRefusal>
    ensures same { board.new.slot.value ≡ board.old.slot.value }
    ensures answer { HandleWaits board.old.slot.value place.now (record { name = name.old; body = body.old }) result
        (record { name = name.new; body = body.new }) }
{
    if board.is_empty() {
        return Err(LeftRefusal::NoBoard);
    }
    let kept = board.slot.get_mut();
    copy_kept(&*kept, place, name, body)
}
