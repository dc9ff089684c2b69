//! Boards opened over handles.
ghost use Rattle.std.specs.Prelude.{◌≡◌, length, true, false, IfOk};
ghost use Rattle.board.specs.Parked.{IsAtBoard, AreAtBoard};
ghost use Rattle.c_board.specs.declared.kept.Kept.TheVariants.{Post};
ghost use Rattle.c_board.specs.Opening.{kept_by, AreEmpty, IsOneFull, Opens, seated, seats_of, values_of, all_of};
ghost use Rattle.c_board.specs.Opening.{MakesPosts, of_opening};

use crate::board_number::BoardNumber;
use crate::came::Came;
use crate::handle::Handle;
use crate::kept::Kept;
use crate::misuse::{Misuse, Numbering};
use crate::naming::Known;
use crate::numbered::Numbered;
use crate::post_state::PostState;
use board::{BoardError, BoardTable, Parked, open_parked};
use std::alloc::{AllocError, AllocFailed, Global};
use std::sync::Arc;

/// Why no board is opened over handles: the first of these that applies.
#[derive(Clone, Copy)]
pub enum OpenRefusal {
    /// A misuse: a handle keeps something.
    InUse,
    /// F8, F9 or F6: no board is made.
    NotMade(BoardError),
}

impl Numbered for OpenRefusal {
    ghost number = { λ misuses refusal. of_opening misuses refusal };

    #[inline(always)]
    fn number(self, misuses: Numbering) -> u32 {
        match self {
            OpenRefusal::InUse => Misuse::InUse.number(misuses),
            OpenRefusal::NotMade(error) => error.number(misuses),
        }
    }
}

/// Whether none of these handles keeps anything.
fn are_empty(handles: &[Handle]) -> bool
    ensures yes { result ≡ true → AreEmpty (kept_by handles.now) }
    ensures no { result ≡ false → IsOneFull (kept_by handles.now) }
{
    for handle in handles {
        if !handle.is_empty() {
            return false;
        }
    }
    true
}

/// This post, in a box with its board's words and number.
fn boxed_post(
    alloc: Global,
    table: &Arc<BoardTable>,
    board_number: BoardNumber,
    post: Parked,
) -> Result<Box<Kept>, AllocError>
    requires { IsAtBoard table.now.value.shared.key table.now.value.shared.table_id post }
    ensures { IfOk result (λ kept. kept.value ≡ Post (seated board_number post)) }
{
    let mut kept = Kept::away(alloc)?;
    let state = PostState {
        table: Arc::try_clone(table)?,
        board_number,
        parked: post,
        last: None,
        came: Came::None,
        known: Known::any(),
    };
    kept.put_seat(state);
    Ok(kept)
}

/// These posts, each in a box with its board's words and number.
fn boxed_posts(
    alloc: Global,
    table: &Arc<BoardTable>,
    board_number: BoardNumber,
    posts: Vec<Parked>,
) -> Result<Vec<Box<Kept>>, AllocError>
    requires { AreAtBoard table.now.value.shared.key table.now.value.shared.table_id posts.items }
    ensures { IfOk result (λ boxes. values_of boxes.items ≡ seats_of board_number posts.items) }
{
    let mut boxes = Vec::with_capacity(alloc, posts.len())?;
    for post in posts {
        boxes.push_reserved(boxed_post(alloc, table, board_number, post)?);
    }
    Ok(boxes)
}

/// Puts each of these into a handle, in order.
fn put_all(handles: &mut [Handle], boxes: Vec<Box<Kept>>)
    requires empty { AreEmpty (kept_by handles.old) }
    requires as_many { length boxes.items ≡ length handles.old }
    ensures { kept_by handles.new ≡ all_of (values_of boxes.items) }
{
    let mut place = 0;
    for kept in boxes {
        handles[place].put(kept);
        place += 1;
    }
}

/// The posts of a new board with this number, each in a box.
fn new_posts(
    alloc: Global,
    instances: usize,
    capacity: usize,
    board_number: BoardNumber,
) -> Result<Vec<Box<Kept>>, BoardError>
    ensures { MakesPosts instances capacity board_number result }
{
    let (table, posts) = match open_parked(alloc, instances, capacity) {
        Ok(made) => made,
        Err(error) => return Err(error),
    };
    let table = match Arc::new(alloc, table) {
        Ok(table) => table,
        Err(AllocFailed { .. }) => return Err(BoardError::Memory),
    };
    match boxed_posts(alloc, &table, board_number, posts) {
        Ok(boxes) => Ok(boxes),
        Err(AllocError) => Err(BoardError::Memory),
    }
}

/// Opens a board with an instance for each handle, whose lanes have `capacity` slots. Then each handle keeps a post, in
/// order of their instances, and all posts have the board's number. A handle that already keeps something is a misuse.
/// Otherwise the first of F8, F9 and F6 that applies refuses it. After a refusal the handles keep what they kept.
pub fn open(
    alloc: Global,
    handles: &mut [Handle],
    capacity: u32,
    board_number: BoardNumber,
) -> Result<(), OpenRefusal>
    ensures { Opens capacity board_number (kept_by handles.old) result (kept_by handles.new) }
{
    if !are_empty(handles) {
        return Err(OpenRefusal::InUse);
    }
    let boxes = match new_posts(alloc, handles.len(), capacity as usize, board_number) {
        Ok(boxes) => boxes,
        Err(error) => return Err(OpenRefusal::NotMade(error)),
    };
    put_all(handles, boxes);
    Ok(())
}
