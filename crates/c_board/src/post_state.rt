//! A post with its board's words.
use crate::board_number::BoardNumber;
use crate::came::Came;
use crate::naming::Known;
use board::{BoardTable, Parked};
use chart::InstanceNo;
use std::marker::Model;
use std::sync::Arc;

/// A post with its board's words and number. It also keeps the instance from which it received last, and the messages
/// of the last call that received some. `known` is the name given to its last send, or any name.
#[derive(Drop)]
pub struct PostState {
    pub(crate) table: Arc<BoardTable>,
    pub(crate) board_number: BoardNumber,
    pub(crate) parked: Parked,
    pub(crate) last: Option<InstanceNo>,
    pub(crate) came: Came,
    pub(crate) known: Known,
}

impl Model for PostState {
    ghost use Rattle.std.specs.Prelude.{◌≤◌, unwrap_or};
    ghost use Rattle.board.specs.Parked.{IsAtBoard};
    ghost use Rattle.c_board.specs.Came.{came_list};
    ghost use Rattle.c_board.specs.PostStates.{PostStateView};

    ghost Value = { PostStateView };

    ghost view = { λ state. record {
      post = state.parked;
      last = unwrap_or state.last 0;
      came = came_list state.came;
      board_number = state.board_number;
    } };

    ghost invariant = { λ state. IsAtBoard state.table.value.shared.key state.table.value.shared.table_id state.parked
        × (unwrap_or state.last 0 ≤ state.parked.board.size) };
}
