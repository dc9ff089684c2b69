//! Tests of a hundred boards one after another, whose posts make random calls. Each chart and its reports are audited,
//! and each lane continues where it ended on the board before.
ghost use Rattle.std.specs.Prelude.{◌≡◌, map};
ghost use Rattle.board.specs.Views.{BoardView};
ghost use Rattle.board.specs.Gathering.{left_view, closed_view};
ghost use Rattle.board.specs.LongRuns.CarriedHistories.{WereLeft};
ghost use Rattle.test_runtime.specs.LongRuns.Boards.{AreAt};

use crate::long_runs::boards::{carried, gathered, nothing_left};
use crate::long_runs::lanes::{
    Account, INSTANCES, SLOTS, are_left, closes, new_accounts, receives, sends, were_used,
};
use board::{Board, ClosedLane, Left, Post};
use chart::InstanceNo;
use rand_core::SeedableRng;
use rand_core::utils::NextWord;
use rand_pcg::Lcg64Xsh32;
use std::alloc::Global;
use std::process::Abort;
use std::test::Fail;

/// The number of boards, and of calls on each.
const BOARDS: usize = 100;

const ACTS: usize = 50;

/// A call of the instance at one place with the instance at another: mostly a send or a receive, and rarely a close.
fn act(
    rt: &impl Abort,
    alloc: Global,
    post: &mut Post,
    own: usize,
    other: usize,
    accounts: &mut [Account],
    kind: usize,
)
    ensures { post.new.board ≡ post.old.board }
{
    assert!(rt; own < INSTANCES && other < INSTANCES);
    assert_eq!(rt; accounts.len(), INSTANCES * INSTANCES);
    let with = InstanceNo::at_place(other);
    match kind {
        0 => closes(rt, post, with, &mut accounts[own * INSTANCES + other]),
        1..=200 => sends(
            rt,
            alloc,
            post,
            with,
            &mut accounts[own * INSTANCES + other],
        ),
        _ => receives(rt, post, with, &mut accounts[other * INSTANCES + own]),
    }
}

fn act_all(
    rt: &impl Abort,
    alloc: Global,
    posts: &mut [Post],
    accounts: &mut [Account],
    generator: &mut Lcg64Xsh32,
)
    ensures { (board : BoardView) → AreAt board posts.old → AreAt board posts.new }
{
    for _ in 0..ACTS {
        let drawn = generator.next_word() as usize;
        let own = drawn % INSTANCES;
        let other = (own + 1 + drawn / INSTANCES % (INSTANCES - 1)) % INSTANCES;
        assert!(rt; own < posts.len());
        act(
            rt,
            alloc,
            &mut posts[own],
            own,
            other,
            accounts,
            drawn / 12 % 400,
        );
    }
}

/// A new board takes over what the one before left. It leaves what the accounts have then.
fn next_board(
    rt: &impl Abort,
    alloc: Global,
    left: Vec<Left>,
    closed: Vec<ClosedLane>,
    accounts: &mut [Account],
    generator: &mut Lcg64Xsh32,
) -> (Vec<Left>, Vec<ClosedLane>)
    requires { WereLeft 4 2 (map left_view left.items) (map closed_view closed.items) }
    ensures { WereLeft 4 2 (map left_view result.0.items) (map closed_view result.1.items) }
{
    let mut board = Board::new(alloc, INSTANCES, SLOTS).expect(rt, "a board");
    let mut posts = board.posts().expect(rt, "posts");
    let taking = posts.as_mut_slice();
    let _ = carried(rt, alloc, taking, left, closed.as_slice());
    act_all(rt, alloc, taking, accounts, generator);
    let (left, closed) = gathered(rt, alloc, posts);
    are_left(rt, accounts, left.as_slice(), closed.as_slice());
    (left, closed)
}

#[test]
fn a_hundred_boards(rt: HostRuntime) -> Result<(), Fail> {
    let alloc = rt.alloc();
    let mut generator = Lcg64Xsh32::seed_from_u64(26);
    let mut accounts = new_accounts(alloc)?;
    let (mut left, mut closed) = nothing_left(alloc);
    for _ in 0..BOARDS {
        let next = next_board(
            &rt,
            alloc,
            left,
            closed,
            accounts.as_mut_slice(),
            &mut generator,
        );
        left = next.0;
        closed = next.1;
    }
    were_used(&rt, accounts.as_slice());
    Ok(())
}
