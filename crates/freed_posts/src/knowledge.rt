//! What a seat at a shelf's table knows. Only contracts mention these types, so no value of them is made.

use crate::change::Change;
use std::collections::LinkedList;

/// Which places of the shelf are a seat's alone.
pub enum Right {
    /// None.
    Nothing,
    /// The places from the first number to before the second. They are empty, and no seat has taken them out yet.
    Unissued(usize, usize),
    /// This place, which is out with the seat.
    Issued(usize),
    /// The first place, and the second one, which is out with the seat too: its post was taken.
    Taking(usize, usize),
    /// The first place, and the second one, which is at home and empty, for a new ticket.
    Handing(usize, usize),
}

/// What a seat knows: which places are its own, and the changes that it has seen, the newest first.
pub struct Knowledge {
    pub right: Right,
    pub seen: LinkedList<Change>,
}
