//! What a seat at a board's table knows. Only contracts mention these types, so no value of them is made.

use chart::InstanceNo;
use chart::history::Occurrence;
use std::collections::LinkedList;

/// The slots that are out with a post.
#[derive(Drop)]
pub enum Hold {
    Nothing,
    /// This many slots of the lane to this instance, to be filled.
    Filling(InstanceNo, usize),
    /// This many slots of the lane from this instance, to be emptied.
    Emptying(InstanceNo, usize),
}

/// What a seat knows of a post: the board's size, the post's number, the history that it has seen, and its own events,
/// the newest first. It also knows how often the post looked at a partner's word, and which slots it holds.
#[derive(Drop)]
pub struct Held {
    pub instances: usize,
    pub capacity: usize,
    pub number: usize,
    pub seen: LinkedList<Occurrence>,
    pub made: LinkedList<Occurrence>,
    pub looks: usize,
    pub hold: Hold,
}
