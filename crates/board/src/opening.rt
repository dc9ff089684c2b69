//! The posts of a new board.
ghost use Rattle.std.specs.Prelude.{◌≡◌, ◌≤◌, length, IfOk};
ghost use Rattle.chart.specs.declared.instance.TheConstants.{MAX_INSTANCES};
ghost use Rattle.board_table.specs.Layout.{IsBoard};
ghost use Rattle.board.specs.Known.{IsSized};
ghost use Rattle.board.specs.Boards.{AreNewPosts, AreNewEnds, IsWholeSeat, new_seat, new_post};

use crate::ends::{Incoming, Outgoing};
use crate::parked::Parked;
use board_table::{Seat, Shape, SharedTable, deal};
use chart::{InstanceNo, MAX_INSTANCES};
use clock::Clock;
use line_recorder::Recorder;
use std::alloc::{AllocError, Global};

/// Deals a seat to each post of a board, and makes the posts, before their first calls. F6: it fails only if there is
/// no memory.
pub(crate) fn deal_posts(
    words: &SharedTable,
    seat: Seat,
    alloc: Global,
    shape: Shape,
) -> Result<Vec<Parked>, AllocError>
    requires sized { IsSized shape.instances shape.capacity }
    requires board { IsBoard shape.instances shape.capacity words.now.key words.now.table_id }
    requires seat { IsWholeSeat shape.instances shape.capacity words.now.table_id seat.table_id seat.me }
    ensures { IfOk result
        (λ posts. AreNewPosts (record { table = words.now.table_id; size = shape.instances; capacity = shape.capacity })
        posts.items) }
{
    let mut seat = seat;
    let mut posts = Vec::with_capacity(alloc, shape.instances)?;
    for place in 0..shape.instances {
        let chair = deal(words, &mut seat);
        let number = InstanceNo::at_place(place);
        let post = make_post(chair, alloc, shape, number)?;
        posts.push(post)?;
    }
    Ok(posts)
}

/// The post with this seat, before its first call. F6: it fails only if there is no memory.
fn make_post(
    seat: Seat,
    alloc: Global,
    shape: Shape,
    number: InstanceNo,
) -> Result<Parked, AllocError>
    requires sized { IsSized shape.instances shape.capacity }
    requires seat { seat.me ≡ new_seat shape.instances shape.capacity number }
    requires number { (1 ≤ number) × (number ≤ shape.instances) }
    ensures { IfOk result
        (λ post. post ≡ new_post (record {
          table = seat.table_id;
          size = shape.instances;
          capacity = shape.capacity;
        }) number) }
{
    let recorder = Recorder::new(alloc, number, shape.instances)?;
    let (outgoing, incoming) = make_ends(alloc, shape.instances)?;
    Ok(Parked {
        seat,
        alloc,
        shape,
        number,
        recorder,
        outgoing,
        incoming,
        region: 0,
    })
}

/// The ends of a post's lanes, before its first call. F6: it fails only if there is no memory.
fn make_ends(alloc: Global, instances: usize) -> Result<(Vec<Outgoing>, Vec<Incoming>), AllocError>
    requires instances { (2 ≤ instances) × (instances ≤ MAX_INSTANCES) }
    ensures { IfOk result (λ ends. AreNewEnds instances instances ends.0.items ends.1.items) }
{
    let mut outgoing = Vec::with_capacity(alloc, instances)?;
    let mut incoming = Vec::with_capacity(alloc, instances)?;
    for place in 0..instances {
        outgoing.push(Outgoing {
            put: 0,
            known_taken: 0,
            closed: false,
            base: Clock::zero(alloc, instances)?,
        })?;
        incoming.push(Incoming {
            taken: 0,
            known_put: 0,
            base: Clock::zero(alloc, instances)?,
        })?;
    }
    Ok((outgoing, incoming))
}
