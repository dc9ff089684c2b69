//! The shelf.
ghost use Rattle.std.specs.Prelude.{◌≡◌, ◌≤◌, IfOk};
ghost use Rattle.freed_posts.specs.Shelves.{IsNewShelf, IsTicketOf, Keeps, Takes};

use crate::issuing::{issue, issue_all};
use crate::rule::{Hand, Keep, ShelfTable};
use crate::taking::take_out;
use crate::ticket::{Receipt, Ticket};
use board::{Parked, SharedTable};
use chart::InstanceNo;
use std::alloc::{AllocError, Global};
use std::marker::{Brand, Model};

/// The freed posts of one board. A post that lies on it when the shelf is dropped is dropped with it.
///
/// A contract sees the board's size and table, and the shelf's own table.
pub struct Shelf {
    table: ShelfTable,
}

// Written by hand, so that code which drops one calls this, and needs no code and no proof of its own for the parts.
impl Drop for Shelf {
    #[inline(never)]
    fn drop(self) {
        let Shelf { table: _ } = self;
    }
}

impl Model for Shelf {
    ghost use Rattle.freed_posts.specs.Shelves.{ShelfView};
    ghost use Rattle.freed_posts.specs.Rule.{IsShelfTable};

    ghost Value = { ShelfView };

    ghost view = { λ shelf. record {
      key = shelf.table.shared.key.key;
      board = shelf.table.shared.key.table_id;
      table = shelf.table.shared.table_id;
    } };

    ghost invariant = { λ shelf. IsShelfTable shelf.table.shared.key.key shelf.table.shared.table_id };
}

impl Shelf {
    /// Makes an empty shelf for the board that has these words and `instances` instances, and a ticket for each post,
    /// in order of their instances. F6: it fails only if there is no memory.
    pub fn new(
        alloc: Global,
        board: &SharedTable,
        instances: usize,
    ) -> Result<(Shelf, Vec<Ticket>), AllocError>
        requires { instances ≡ board.now.key.instances }
        ensures { IfOk result (λ made. IsNewShelf board.now.key board.now.table_id made.0 made.1.items) }
    {
        let words = vec![in alloc; 0; instances]?;
        let (table, seat) = ShelfTable::vacant(alloc, words.as_slice(), instances, board)?;
        let tickets = issue_all(alloc, &table.shared, seat, instances)?;
        Ok((Shelf { table }, tickets))
    }

    /// Keeps a post on the shelf, with its ticket. The call takes no memory, cannot be refused, and publishes the post
    /// by one store.
    pub fn keep(&self, ticket: Ticket, post: Parked) -> Receipt
        requires { IsTicketOf self.now post ticket }
        ensures { Keeps ticket post result }
    {
        let Ticket { mut seat } = ticket;
        let places = &self.table.shared;
        let place = post.number().place();
        let None = places.exchange(&mut seat, place, Some(post)) else {
            unreachable!()
        };
        places.store::<Keep>(&mut seat, place, 1);
        Receipt { seat }
    }

    /// Takes the post with this number from the shelf, and its ticket, or finds that it isn't there. The call takes no
    /// memory. `ticket` may be that of any post.
    pub fn take(&self, ticket: &mut Ticket, number: InstanceNo) -> Option<(Ticket, Parked)>
        requires shelf { ticket.old.shelf ≡ self.now.table }
        requires number { number ≤ self.now.key.instances }
        ensures { Takes self.now ticket.old number result ticket.new }
    {
        let places = &self.table.shared;
        let place = number.place();
        let post = take_out::<Brand>(places, &mut ticket.seat, place)?;
        places.load::<Hand>(&mut ticket.seat, place);
        Some((issue(places, &mut ticket.seat, place), post))
    }
}
