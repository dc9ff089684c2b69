//! How posts meet: a note carries what one post has seen to the others.
ghost use Rattle.std.specs.Prelude.{◌≡◌, ◌≤◌};
ghost use Rattle.board_table.specs.Layout.{IsBoard};
ghost use Rattle.board_table.specs.Knowing.{held, IsPost};
ghost use Rattle.board_table.specs.Plays.{IsNote, Meets};

use crate::rule::{Beside, Copied, Meet, Parted};
use crate::{Seat, SharedTable};

/// A note of what the post has seen. The call takes no memory.
pub fn note(words: &SharedTable, seat: &mut Seat) -> Seat
    requires table { seat.old.table_id ≡ words.now.table_id }
    requires board { IsBoard (held seat.old.me).instances (held seat.old.me).capacity words.now.key words.now.table_id }
    requires post { IsPost (held seat.old.me).instances (held seat.old.me).capacity
        (held seat.old.me).number seat.old.me }
    requires number { (1 ≤ (held seat.old.me).number) × ((held seat.old.me).number ≤ (held seat.old.me).instances) }
    ensures table { (seat.new.table_id ≡ seat.old.table_id) × (seat.new.id ≡ seat.old.id)
        × (result.table_id ≡ seat.old.table_id) }
    ensures same { seat.new.me ≡ seat.old.me }
    ensures note { IsNote (held seat.old.me).instances (held seat.old.me).capacity result.me }
    ensures seen { (held result.me).seen ≡ (held seat.old.me).seen }
{
    words.split_seat::<Copied>(seat)
}

/// Brings a post and a note together: afterwards both have seen the longer of the two histories that they had seen. The
/// call takes no memory.
pub fn meet_note(words: &SharedTable, seat: &mut Seat, note: Seat) -> Seat
    requires table { (seat.old.table_id ≡ words.now.table_id) × (note.table_id ≡ words.now.table_id) }
    requires board { IsBoard (held seat.old.me).instances (held seat.old.me).capacity words.now.key words.now.table_id }
    requires post { IsPost (held seat.old.me).instances (held seat.old.me).capacity
        (held seat.old.me).number seat.old.me }
    requires number { (1 ≤ (held seat.old.me).number) × ((held seat.old.me).number ≤ (held seat.old.me).instances) }
    requires note { IsNote (held seat.old.me).instances (held seat.old.me).capacity note.me }
    ensures table { (seat.new.table_id ≡ seat.old.table_id) × (seat.new.id ≡ seat.old.id)
        × (result.table_id ≡ seat.old.table_id) }
    ensures post { IsPost (held seat.old.me).instances (held seat.old.me).capacity
        (held seat.old.me).number seat.new.me }
    ensures slots { seat.new.me.1 ≡ seat.old.me.1 }
    ensures meets { Meets (held seat.old.me).instances (held seat.old.me).capacity (held seat.old.me) (held note.me)
        (held seat.new.me) }
    ensures note { IsNote (held seat.old.me).instances (held seat.old.me).capacity result.me }
    ensures seen { (held result.me).seen ≡ (held seat.new.me).seen }
{
    words.join_seat::<Beside>(seat, note);
    words.load::<Meet>(seat, 0);
    words.split_seat::<Parted>(seat)
}
