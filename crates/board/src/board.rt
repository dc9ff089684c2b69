//! Boards.
ghost use Rattle.std.specs.Prelude.{◌≡◌, ◌≤◌, true, false, IfOk, IfErr, IfSome, IfNone};
ghost use Rattle.chart.specs.declared.instance.TheConstants.{MAX_INSTANCES};
ghost use Rattle.chart.specs.declared.history.TheConstants.{MAX_CAPACITY};
ghost use Rattle.board.specs.Boards.{MakesBoard, AreNewPosts, IsUnmade, IsWholeSeat};
ghost use Rattle.board.specs.Asking.{IsUngiven};
ghost use Rattle.board.specs.Parked.{AreOpened};

use crate::error::{BoardError, PostsError};
use crate::opening::deal_posts;
use crate::parked::Parked;
use crate::post::Post;
use crate::waking::wake_all;
use board_table::{BoardTable, Seat, Shape, open};
use chart::{MAX_CAPACITY, MAX_INSTANCES};
use std::alloc::{AllocError, Global};
use std::marker::Model;

/// A board of instances, each with a lane to every other one. Elsewhere a board is called a network of channels.
///
/// A contract sees which board it is, and whether its posts were asked for.
pub struct Board {
    alloc: Global,
    shape: Shape,
    table: BoardTable,
    /// The seat of all posts, until they are asked for.
    seat: Option<Seat>,
}

// Written by hand, so that code which drops one calls this, and needs no code and no proof of its own for the parts.
impl Drop for Board {
    #[inline(never)]
    fn drop(self) {
        let Board {
            alloc: _,
            shape: _,
            table: _,
            seat: _,
        } = self;
    }
}

impl Model for Board {
    ghost use Rattle.std.specs.Prelude.{IfSome};
    ghost use Rattle.board_table.specs.Layout.{IsBoard};
    ghost use Rattle.board.specs.Known.{IsSized};
    ghost use Rattle.board.specs.Boards.{BoardState, IsWholeSeat, is_gone};

    ghost Value = { BoardState };

    ghost view = { λ board. record {
      board = record {
        table = board.table.shared.table_id;
        size = board.shape.instances;
        capacity = board.shape.capacity;
      };
      asked = is_gone board.seat;
    } };

    ghost invariant = { λ board. IsSized board.shape.instances board.shape.capacity
        × IsBoard board.shape.instances board.shape.capacity board.table.shared.key board.table.shared.table_id
        × IfSome board.seat (λ seat. IsWholeSeat board.shape.instances board.shape.capacity board.table.shared.table_id
        seat.table_id seat.me) };
}

impl Board {
    /// Makes a board of `instances` instances, whose lanes have `capacity` slots each. The first of F8, F9 and F6 that
    /// applies refuses it.
    pub fn new(alloc: Global, instances: usize, capacity: usize) -> Result<Board, BoardError>
        ensures made { MakesBoard instances capacity result }
    {
        if instances < 2 || instances > MAX_INSTANCES {
            return Err(BoardError::Instances);
        }
        if capacity < 1 || capacity > MAX_CAPACITY {
            return Err(BoardError::Capacity);
        }
        let shape = Shape {
            instances,
            capacity,
        };
        let (table, seat) = open(alloc, &shape)?;
        Ok(Board {
            alloc,
            shape,
            table,
            seat: Some(seat),
        })
    }

    /// The posts, in order of their instances. F10: they were asked for before. F6: a growth was refused, and from then
    /// on every call is refused with F10.
    pub fn posts(&mut self) -> Result<Vec<Post<'_>>, PostsError>
        ensures ok { IfOk result (λ posts. (self.old.asked ≡ false) × AreNewPosts self.old.board posts.items) }
        ensures err { IfErr result (λ error. IsUngiven self.old error) }
    {
        let Some(seat) = self.take_seat() else {
            return Err(PostsError::PostsTaken);
        };
        let alloc = self.alloc;
        let shape = self.shape;
        let words = &self.table.shared;
        let posts = deal_posts(words, seat, alloc, shape)?;
        match wake_all(alloc, words, posts) {
            Ok(posts) => Ok(posts),
            Err((_, AllocError)) => Err(PostsError::Memory),
        }
    }

    /// The seat of all posts, if it is still there.
    fn take_seat(&mut self) -> Option<Seat>
        ensures asked { self.new ≡ record self.old { asked = true } }
        ensures some { IfSome result (λ seat. (self.old.asked ≡ false)
            × IsWholeSeat self.old.board.size self.old.board.capacity self.old.board.table seat.table_id seat.me) }
        ensures none { IfNone result (self.old.asked ≡ true) }
    {
        self.seat.take()
    }

    /// The posts of a board that wasn't asked for them, and the table with its words.
    fn into_parked(self) -> Result<(BoardTable, Vec<Parked>), AllocError>
        requires { self.asked ≡ false }
        ensures { IfOk result (λ made. AreOpened self.board.size self.board.capacity made.0.shared.key
            made.0.shared.table_id made.1.items) }
    {
        let Board {
            alloc,
            shape,
            table,
            seat,
        } = self;
        let Some(seat) = seat else { unreachable!() };
        let posts = deal_posts(&table.shared, seat, alloc, shape)?;
        Ok((table, posts))
    }
}

/// Makes a board. It returns the table with the board's words, and the posts in order of their instances. The caller
/// keeps the table: each call of a parked post takes its words, and so does [`Parked::wake`]. The first of F8, F9 and
/// F6 that applies refuses it.
pub fn open_parked(
    alloc: Global,
    instances: usize,
    capacity: usize,
) -> Result<(BoardTable, Vec<Parked>), BoardError>
    ensures ok { IfOk result (λ made. AreOpened instances capacity made.0.shared.key made.0.shared.table_id
        made.1.items) }
    ensures err { IfErr result (λ error. IsUnmade instances capacity error) }
{
    let board = Board::new(alloc, instances, capacity)?;
    Ok(board.into_parked()?)
}
