//! How tickets are issued.
ghost use Rattle.std.specs.Prelude.{◌≡◌, ◌<◌, [], suc, IfOk};
ghost use Rattle.freed_posts.specs.Shelves.{AreFirst};
ghost use Rattle.freed_posts.specs.Knowing.{IsNext, unissued, rest_unissued, ticket_for};
ghost use Rattle.freed_posts.specs.Rule.{IsShelfTable};

use crate::rule::{First, Issue, Places, Seat};
use crate::ticket::Ticket;
use std::alloc::{AllocError, Global};

/// Issues a ticket for each post of a board of `instances` instances. F6: it fails only if there is no memory.
pub(crate) fn issue_all(
    alloc: Global,
    places: &Places,
    seat: Seat,
    instances: usize,
) -> Result<Vec<Ticket>, AllocError>
    requires table { seat.table_id ≡ places.now.table_id }
    requires shelf { IsShelfTable places.now.key.key places.now.table_id }
    requires instances { instances ≡ places.now.key.key.instances }
    requires whole { seat.me ≡ (unissued 0 instances [], []) }
    ensures { IfOk result (λ tickets. AreFirst instances places.now.table_id tickets.items) }
{
    let mut seat = seat;
    let mut tickets = Vec::with_capacity(alloc, instances)?;
    for place in 0..instances {
        tickets.push(issue(places, &mut seat, place))?;
    }
    Ok(tickets)
}

/// Issues the ticket for the post with this place, which is the next to be issued.
pub(crate) fn issue(places: &Places, seat: &mut Seat, place: usize) -> Ticket
    requires table { seat.old.table_id ≡ places.now.table_id }
    requires shelf { IsShelfTable places.now.key.key places.now.table_id }
    requires place { place < places.now.key.key.instances }
    requires next { IsNext seat.old.me.0.right place }
    ensures ticket { result ≡ ticket_for places.now.table_id (suc place) seat.old.me.0.seen }
    ensures table { seat.new.table_id ≡ seat.old.table_id }
    ensures rest { seat.new.me ≡ (rest_unissued seat.old.me.0, seat.old.me.1) }
{
    let mut chair = places.split_seat::<First>(seat);
    places.load::<Issue>(&mut chair, place);
    Ticket { seat: chair }
}
