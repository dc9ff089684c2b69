//! Carries over between handles what a board left.
ghost use Rattle.std.specs.Prelude.{◌≡◌, true, false, length, map, Some};
ghost use Rattle.board.specs.Gathering.{left_view, closed_view};
ghost use Rattle.board.specs.LongRuns.CarriedHistories.{WereLeft};
ghost use Rattle.board.specs.LongRuns.CarryingOver.{IsUntouched};
ghost use Rattle.c_board.specs.declared.kept.Kept.TheVariants.{Board};
ghost use Rattle.c_board.specs.Opening.{kept_by};
ghost use Rattle.c_board.specs.Chairs.{AreNumberedApart};
ghost use Rattle.c_board.specs.Copying.{put_over};
ghost use Rattle.c_board.specs.Carrying.{Carries, AreEach, IsOneNot, IsAsLarge, ChecksFit, TakesFit};
ghost use Rattle.c_board.specs.Carrying.{of_carrying};

use crate::bearing::{Borne, bear};
use crate::chair::Taken;
use crate::handle::Handle;
use crate::kept::Kept;
use crate::misuse::{Misuse, Numbering};
use crate::numbered::Numbered;
use crate::taking::{TakingError, put_posts, take_posts};
use crate::whole_board::WholeBoard;
use board::long_runs::{CarryCause, CarryError};
use board::{Gathered, Parked};
use std::alloc::Global;
use std::mem;

/// Why nothing is carried over between handles.
#[derive(Clone, Copy)]
pub enum CarryRefusal {
    /// A misuse: the handle of the old board keeps no board.
    NoBoard,
    /// A misuse: a handle keeps no post.
    NoPost,
    /// A misuse: two posts are of boards with different numbers.
    OtherBoard,
    /// A misuse: the new board has another number of instances, or its lanes have fewer slots.
    WrongNumber,
    /// A misuse: a post of the new board has made an event, has closed a lane, or has an open coregion.
    InUse,
    /// F15: there are no posts, or not all of their board.
    NotAllPosts,
    /// F6: a growth was refused.
    Memory,
}

/// What a new board's posts lack, to take over what another board left.
#[derive(Clone, Copy)]
pub(crate) enum Misfit {
    /// There is another number of instances, or lanes have fewer slots.
    Size,
    /// A post has made an event, has closed a lane, or has an open coregion.
    Used,
}

/// Why posts that fit what a board left aren't taken out of their handles.
#[derive(Clone, Copy)]
pub(crate) enum FitError {
    /// No posts are taken.
    NotTaken(TakingError),
    /// The posts don't fit.
    Misfit(Misfit),
}

impl Numbered for CarryRefusal {
    ghost number = { λ misuses refusal. of_carrying misuses refusal };

    fn number(self, misuses: Numbering) -> u32 {
        match self {
            CarryRefusal::NoBoard => Misuse::NoBoard.number(misuses),
            CarryRefusal::NoPost => Misuse::NoPost.number(misuses),
            CarryRefusal::OtherBoard => Misuse::OtherBoard.number(misuses),
            CarryRefusal::WrongNumber => Misuse::WrongNumber.number(misuses),
            CarryRefusal::InUse => Misuse::InUse.number(misuses),
            CarryRefusal::NotAllPosts => 15,
            CarryRefusal::Memory => 6,
        }
    }
}

impl From<TakingError> for FitError {
    ghost use Rattle.std.specs.Prelude.{◌≡◌};
    ghost use Rattle.c_board.specs.declared.carrying.FitError.TheVariants.{NotTaken};

    ghost from_gives = { λ error fit. fit ≡ NotTaken error };

    fn from(error: TakingError) -> FitError {
        FitError::NotTaken(error)
    }
}

impl From<FitError> for CarryRefusal {
    ghost use Rattle.std.specs.Prelude.{◌≡◌};
    ghost use Rattle.c_board.specs.Carrying.{refusal_of_fit};

    ghost from_gives = { λ error refusal. refusal ≡ refusal_of_fit error };

    fn from(error: FitError) -> CarryRefusal {
        match error {
            FitError::NotTaken(TakingError::NoHandles) => CarryRefusal::NotAllPosts,
            FitError::NotTaken(TakingError::NoPost) => CarryRefusal::NoPost,
            FitError::NotTaken(TakingError::Memory) => CarryRefusal::Memory,
            FitError::NotTaken(TakingError::OtherBoard) => CarryRefusal::OtherBoard,
            FitError::Misfit(Misfit::Size) => CarryRefusal::WrongNumber,
            FitError::Misfit(Misfit::Used) => CarryRefusal::InUse,
        }
    }
}

impl From<CarryCause> for CarryRefusal {
    ghost use Rattle.std.specs.Prelude.{◌≡◌};
    ghost use Rattle.c_board.specs.Carrying.{refusal_of_cause};

    ghost from_gives = { λ cause refusal. refusal ≡ refusal_of_cause cause };

    fn from(cause: CarryCause) -> CarryRefusal {
        match cause {
            CarryCause::NotAllPosts => CarryRefusal::NotAllPosts,
            CarryCause::Memory => CarryRefusal::Memory,
        }
    }
}

/// Writes the first of these counts, as many as there is room for, and returns how many counts there are.
fn copy_counts(counts: &[usize], out: &mut [usize]) -> usize
    ensures all { result ≡ length counts.now }
    ensures copied { out.new ≡ put_over counts.now out.old }
{
    let many = counts.len().min(out.len());
    out[..many].copy_from_slice(&counts[..many]);
    counts.len()
}

/// Whether the posts' boards have this number of instances, and lanes of at least this number of slots.
fn are_as_large(posts: &[Parked], instances: usize, capacity: usize) -> bool
    ensures yes { result ≡ true → AreEach (IsAsLarge instances capacity) posts.now }
    ensures no { result ≡ false → IsOneNot (IsAsLarge instances capacity) posts.now }
{
    for post in posts {
        if post.board_size() != instances {
            return false;
        }
        if post.capacity() < capacity {
            return false;
        }
    }
    true
}

/// Whether none of the posts has made anything yet, and none has an open coregion.
fn are_untouched(posts: &[Parked]) -> bool
    ensures yes { result ≡ true → AreEach IsUntouched posts.now }
    ensures no { result ≡ false → IsOneNot IsUntouched posts.now }
{
    for post in posts {
        if !post.is_untouched() {
            return false;
        }
    }
    true
}

/// Checks that these posts may take over what a board with this number of instances left, whose lanes had this number
/// of slots.
fn check_fit(posts: &[Parked], instances: usize, capacity: usize) -> Result<(), Misfit>
    ensures { ChecksFit instances capacity posts.now result }
{
    if !are_as_large(posts, instances, capacity) {
        return Err(Misfit::Size);
    }
    if !are_untouched(posts) {
        return Err(Misfit::Used);
    }
    Ok(())
}

/// Takes the posts out of these handles, if they may take over what a board with this number of instances left, whose
/// lanes had this number of slots. After a refusal everything is as it was.
fn take_fit_posts(
    alloc: Global,
    handles: &mut [Handle],
    instances: usize,
    capacity: usize,
) -> Result<Taken, FitError>
    ensures { TakesFit instances capacity (kept_by handles.old) result (kept_by handles.new) }
{
    let taken = take_posts(alloc, handles)?;
    match check_fit(taken.posts.as_slice(), instances, capacity) {
        Ok(()) => Ok(taken),
        Err(misfit) => {
            let Taken { chairs, posts } = taken;
            put_posts(handles, chairs, posts);
            Err(FitError::Misfit(misfit))
        }
    }
}

/// Carries over to the posts of these handles what a board left, whose lanes had this number of slots.
fn carry_gathered(
    alloc: Global,
    it: &mut Gathered,
    capacity: usize,
    handles: &mut [Handle],
    sends: &mut [usize],
) -> Result<usize, CarryRefusal>
    requires apart { AreNumberedApart (kept_by handles.old) }
    requires left { WereLeft (length it.old.chart) capacity (map left_view it.old.left.items)
        (map closed_view it.old.closed.items) }
    ensures { Carries (Some (Board (record { gathered = it.old; capacity = capacity }))) (kept_by handles.old) sends.old
        result (Some (Board (record { gathered = it.new; capacity = capacity }))) (kept_by handles.new) sends.new }
{
    let instances = it.chart.lines().len();
    let Taken { chairs, posts } = take_fit_posts(alloc, handles, instances, capacity)?;
    let left = mem::replace(&mut it.left, Vec::new(alloc));
    let closed = it.closed.as_slice();
    let Borne { posts, answer } = bear(alloc, &(*chairs[0].table).shared, posts, left, closed);
    put_posts(handles, chairs, posts);
    match answer {
        Ok(carried) => {
            it.closed = Vec::new(alloc);
            Ok(copy_counts(carried.sends.as_slice(), sends))
        }
        Err(error) => {
            let CarryError { left, cause } = error;
            it.left = left;
            Err(CarryRefusal::from(cause))
        }
    }
}

impl WholeBoard {
    /// Carries over to the posts of these handles what the board left.
    fn carry_over(
        &mut self,
        alloc: Global,
        handles: &mut [Handle],
        sends: &mut [usize],
    ) -> Result<usize, CarryRefusal>
        requires { AreNumberedApart (kept_by handles.old) }
        ensures { Carries (Some (Board self.old)) (kept_by handles.old) sends.old result (Some (Board self.new))
            (kept_by handles.new) sends.new }
    {
        carry_gathered(alloc, &mut self.gathered, self.capacity, handles, sends)
    }
}

impl Kept {
    /// Carries over to the posts of these handles what the board left, if a board is kept.
    fn carry_over(
        &mut self,
        alloc: Global,
        handles: &mut [Handle],
        sends: &mut [usize],
    ) -> Result<usize, CarryRefusal>
        requires { AreNumberedApart (kept_by handles.old) }
        ensures { Carries (Some self.old) (kept_by handles.old) sends.old result (Some self.new) (kept_by handles.new)
            sends.new }
    {
        match self {
            Kept::Board(whole) => whole.carry_over(alloc, handles, sends),
            _ => Err(CarryRefusal::NoBoard),
        }
    }
}

impl Handle {
    /// Carries over what the board in this handle left to all posts of a new board, which come in any order. Each
    /// message that was left is sent again by its sender, lane by lane, in the order in which it waited. Then each lane
    /// that was closed is closed again. Afterwards the old board has no message left and no closed lane. The call
    /// copies out how many sends each instance made again, by instance, and returns the number of instances.
    ///
    /// A handle that keeps no board, or no post, is a misuse. So are posts of two boards, which their boards' numbers
    /// show, another number of instances, lanes with fewer slots, and posts that have made anything yet or have an open
    /// coregion. F15: posts are missing. F6: there is no memory. After a refusal nothing was sent, and what was left is
    /// still there.
    pub fn carry_over(
        &mut self,
        alloc: Global,
        handles: &mut [Handle],
        sends: &mut [usize],
    ) -> Result<usize, CarryRefusal>
        requires { AreNumberedApart (kept_by handles.old) }
        ensures { Carries self.old.slot.value (kept_by handles.old) sends.old result self.new.slot.value
            (kept_by handles.new) sends.new }
    {
        let Some(mut kept) = self.take(alloc) else {
            return Err(CarryRefusal::NoBoard);
        };
        let result = kept.carry_over(alloc, handles, sends);
        self.put(kept);
        result
    }
}
