//! How a post is taken out of its place.
ghost use Rattle.std.specs.Prelude.{◌≡◌, ◌<◌, IfSome, IfNone};
ghost use Rattle.freed_posts.specs.Knowing.{IsTicket};
ghost use Rattle.freed_posts.specs.Plays.{FindsNothing, TakesOut};
ghost use Rattle.freed_posts.specs.Rule.{IsShelfTable};

use crate::rule::{Places, Seat, Site, Take};
use board::Parked;

/// Takes the post out of this place, if it is there. Then the place is out with the ticket's seat.
pub(crate) fn take_out<A: Site>(places: &Places, seat: &mut Seat, place: usize) -> Option<Parked>
    requires site { (places.now.key.key ≡ A.key) × (places.now.key.table_id ≡ A.board) }
    requires table { seat.old.table_id ≡ places.now.table_id }
    requires shelf { IsShelfTable places.now.key.key places.now.table_id }
    requires place { place < places.now.key.key.instances }
    requires ticket { IsTicket seat.old.table_id seat.old.me }
    ensures table { seat.new.table_id ≡ seat.old.table_id }
    ensures took { IfSome result (λ post. TakesOut A.key A.board place seat.old.me.0 post seat.new.me) }
    ensures none { IfNone result (FindsNothing place seat.old.me.0 seat.new.me) }
{
    if places.swap::<Take<A>>(seat, place, 0) != 1 {
        return None;
    }
    let Some(post) = places.exchange(seat, place, None) else {
        unreachable!()
    };
    Some(post)
}
