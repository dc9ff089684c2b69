//! A plain account of the lanes over all boards of a run. The messages of each lane have the letters of the alphabet as
//! names, one after another.
ghost use Rattle.std.specs.Prelude.{◌≡◌};

use crate::long_runs::boards::{instance, message, name};
use board::{ClosedLane, Left, Post, SendError, Taken};
use chart::InstanceNo;
use std::alloc::{AllocError, Global};
use std::process::Abort;

/// The number of instances of each board, and of slots of each lane.
pub const INSTANCES: usize = 4;

pub const SLOTS: usize = 2;

/// What was done on a lane so far.
#[derive(Clone, Copy, Debug)]
pub struct Account {
    pub sent: usize,
    pub received: usize,
    pub closed: bool,
}

impl Account {
    fn waiting(&self) -> usize {
        self.sent.saturating_sub(self.received)
    }
}

/// The accounts of lanes on which nothing was done yet.
pub fn new_accounts(alloc: Global) -> Result<Vec<Account>, AllocError> {
    let mut accounts = Vec::new(alloc);
    for _ in 0..INSTANCES * INSTANCES {
        accounts.push(Account {
            sent: 0,
            received: 0,
            closed: false,
        })?;
    }
    Ok(accounts)
}

/// The name of a lane's message, for the number of messages before it.
fn letter(number: usize) -> u8 {
    b'a' + (number % 26) as u8
}

/// The place of the lane among all lanes.
fn lane_place(sender: InstanceNo, receiver: InstanceNo) -> usize {
    sender.place() * INSTANCES + receiver.place()
}

fn account_of<'l>(
    rt: &impl Abort,
    accounts: &'l mut [Account],
    sender: InstanceNo,
    receiver: InstanceNo,
) -> &'l mut Account {
    accounts
        .get_mut(lane_place(sender, receiver))
        .expect(rt, "a lane")
}

/// The post sends a message: it is accepted, or the lane is closed or full.
pub fn sends(rt: &impl Abort, alloc: Global, post: &mut Post, to: InstanceNo, lane: &mut Account)
    ensures { post.new.board ≡ post.old.board }
{
    match post.send(to, message(rt, alloc, letter(lane.sent))) {
        Ok(_) => {
            assert!(rt; !lane.closed && lane.waiting() < SLOTS);
            lane.sent = lane.sent.saturating_add(1);
        }
        Err((_back, SendError::Closed)) => assert!(rt; lane.closed),
        Err((_back, SendError::Full)) => assert_eq!(rt; lane.waiting(), SLOTS),
        Err((_back, _)) => panic!(rt; "another refusal"),
    }
}

/// The post receives: the first message that was sent comes, or no message waits.
pub fn receives(rt: &impl Abort, post: &mut Post, from: InstanceNo, lane: &mut Account)
    ensures { post.new.board ≡ post.old.board }
{
    match post.receive(from) {
        Ok(Taken::Got(arrival)) => {
            assert!(rt; lane.waiting() > 0);
            assert!(rt; arrival.message.name() == name(rt, letter(lane.received)));
            lane.received = lane.received.saturating_add(1);
        }
        Ok(Taken::Nothing) => assert!(rt; lane.waiting() == 0 && !lane.closed),
        Ok(Taken::Ended) => assert!(rt; lane.waiting() == 0 && lane.closed),
        Err(_) => panic!(rt; "a refusal"),
    }
}

/// The post closes its lane, which succeeds once.
pub fn closes(rt: &impl Abort, post: &mut Post, to: InstanceNo, lane: &mut Account)
    ensures { post.new.board ≡ post.old.board }
{
    assert_eq!(rt; post.close(to).is_ok(), !lane.closed);
    lane.closed = true;
}

/// Asserts that these messages wait on the lane, in order.
fn is_left(rt: &impl Abort, account: Account, lane: &Left) {
    assert_eq!(rt; lane.messages.len(), account.waiting());
    let mut number = account.received;
    for message in lane.messages.iter() {
        assert!(rt; message.name() == name(rt, letter(number)));
        number = number.saturating_add(1);
    }
}

/// Asserts that what a board left agrees with the accounts.
pub fn are_left(rt: &impl Abort, accounts: &mut [Account], left: &[Left], closed: &[ClosedLane]) {
    let mut waiting = 0usize;
    let mut shut = 0usize;
    for account in accounts.iter() {
        waiting = waiting.saturating_add((account.waiting() > 0) as usize);
        shut = shut.saturating_add(account.closed as usize);
    }
    assert_eq!(rt; left.len(), waiting);
    assert_eq!(rt; closed.len(), shut);
    for lane in left {
        is_left(
            rt,
            *account_of(rt, accounts, lane.sender, lane.receiver),
            lane,
        );
    }
    for lane in closed {
        assert!(rt; account_of(rt, accounts, lane.sender, lane.receiver).closed);
    }
}

/// Asserts that many messages were passed, and that some lanes but not all were closed.
pub fn were_used(rt: &impl Abort, accounts: &[Account]) {
    let mut received = 0usize;
    let mut shut = 0usize;
    for account in accounts {
        received = received.saturating_add(account.received);
        shut = shut.saturating_add(account.closed as usize);
    }
    assert!(rt; received >= 1000);
    assert!(rt; 2 <= shut && shut < INSTANCES * (INSTANCES - 1));
}
