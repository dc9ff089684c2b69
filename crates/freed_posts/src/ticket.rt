//! Tickets and receipts of a shelf.

use crate::rule::Seat;
use std::marker::Model;

/// The right to keep one post on the shelf. It has no bytes.
#[derive(Drop)]
pub struct Ticket {
    pub(crate) seat: Seat,
}

impl Model for Ticket {
    ghost use Rattle.freed_posts.specs.Shelves.{TicketView};
    ghost use Rattle.freed_posts.specs.Knowing.{IsTicket, ticket_of};

    ghost Value = { TicketView };

    ghost view = { λ ticket. ticket_of ticket.seat.table_id ticket.seat.me };

    ghost invariant = { λ ticket. IsTicket ticket.seat.table_id ticket.seat.me };
}

/// What is known once a post is kept. It has no bytes.
#[derive(Drop)]
pub struct Receipt {
    pub(crate) seat: Seat,
}

impl Model for Receipt {
    ghost use Rattle.freed_posts.specs.Shelves.{ReceiptView};

    ghost Value = { ReceiptView };

    ghost view = { λ receipt. record { shelf = receipt.seat.table_id; seen = receipt.seat.me.0.seen } };
}
