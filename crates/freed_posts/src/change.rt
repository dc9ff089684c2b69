//! The changes of a shelf. Only contracts mention this type, so no value of it is made.

use board::Parked;
use chart::InstanceNo;

/// A change of a shelf.
pub enum Change {
    /// This post was kept on the shelf.
    Kept(Parked),
    /// The post with the first number was taken from the shelf, with the ticket of the post with the second.
    Taken(InstanceNo, InstanceNo),
}
