//! The table itself: how it is made for a board of some size, and dealt out to its posts.
ghost use Rattle.std.specs.Prelude.{◌≡◌, ◌≤◌, [], ◌∷◌, IfOk};
ghost use Rattle.chart.specs.declared.instance.TheConstants.{MAX_INSTANCES};
ghost use Rattle.chart.specs.declared.history.TheConstants.{MAX_CAPACITY};
ghost use Rattle.board_table.specs.Layout.{IsBoard};
ghost use Rattle.board_table.specs.Knowing.{held, later_helds};
ghost use Rattle.board_table.specs.Rule.{new_helds};

use crate::rule::{BoardRule, First};
use crate::{Held, Packet, Seat, Shape, SharedTable};
use atomic_table::Table;
use std::alloc::{AllocError, Global};
use std::collections::LinkedList;

/// A board's words and slots, in memory of its own.
pub type BoardTable = Table<Option<Packet>, LinkedList<Held>, Shape, BoardRule, Global>;

/// Makes a table for a board of this size, and one seat for all its posts, which [`deal`] divides.
///
/// F6: it fails only if there is no memory.
pub fn open(alloc: Global, shape: &Shape) -> Result<(BoardTable, Seat), AllocError>
    requires instances { (2 ≤ shape.now.instances) × (shape.now.instances ≤ MAX_INSTANCES) }
    requires capacity { (1 ≤ shape.now.capacity) × (shape.now.capacity ≤ MAX_CAPACITY) }
    ensures board { IfOk result (λ made. IsBoard shape.now.instances shape.now.capacity made.0.shared.key
        made.0.shared.table_id) }
    ensures seat { IfOk result (λ made. (made.1.table_id ≡ made.0.shared.table_id)
        × (made.1.me ≡ (new_helds shape.now.instances shape.now.capacity 1 shape.now.instances, []))) }
{
    let n = shape.instances;
    let words = vec![in alloc; 0; n * (2 * n + 7)]?;
    BoardTable::vacant(alloc, words.as_slice(), n * n * shape.capacity, shape)
}

/// Splits a seat for the first post off a seat of several posts.
pub fn deal(words: &SharedTable, seat: &mut Seat) -> Seat
    requires table { seat.old.table_id ≡ words.now.table_id }
    requires board { IsBoard (held seat.old.me).instances (held seat.old.me).capacity words.now.key words.now.table_id }
    requires size { 1 ≤ (held seat.old.me).instances }
    requires some { seat.old.me.0 ≡ held seat.old.me ∷ later_helds seat.old.me }
    ensures table { (seat.new.table_id ≡ seat.old.table_id) × (seat.new.id ≡ seat.old.id)
        × (result.table_id ≡ seat.old.table_id) }
    ensures first { result.me ≡ (held seat.old.me ∷ [], []) }
    ensures others { seat.new.me ≡ (later_helds seat.old.me, seat.old.me.1) }
{
    words.split_seat::<First>(seat)
}
