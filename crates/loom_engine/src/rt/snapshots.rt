//! Runs that are kept at branch points, so that later ones whose paths begin as theirs did go on from there (own).
ghost use Rattle.std.specs.Prelude.{ℕ, ◌≡◌, ◌<◌, ◌≤◌, ◌⊎◌, [], All, IfOk, length, take};
ghost use Rattle.loom_engine.specs.Path.Route.{IsSameSearch};
ghost use Rattle.loom_engine.specs.Snapshots.{Fits, GoesOn, GoesOnWithOne, IsKeptOf, KeepsOne};

use crate::rt::execution::Execution;
use crate::rt::path::Path;
use crate::rt::path::standing::Standing;
use crate::rt::states::copied_bodies;
use loom_objects::body::Body;
use loom_objects::data::Data;
use loom_views::same::Same;
use loom_views::sequence::Sequence;
use std::alloc::{AllocError, Global};
use std::marker::Model;
use std::mem;

/// What is kept of a run at a branch point, before its schedule (own).
#[derive(Drop)]
pub struct Snapshot<D, B> {
    execution: Execution<D>,
    bodies: Sequence<B>,
    standing: Standing,
}

impl<D: Data + Same, B: Body> Snapshot<D, B> {
    /// A copy of where a run stands. An error where memory is refused.
    fn of(execution: &Execution<D>, bodies: &[B], path: &Path) -> Result<Snapshot<D, B>, AllocError>
        ensures { IfOk result (IsKeptOf execution.now bodies.now path.now) }
    {
        Ok(Snapshot {
            execution: execution.try_clone()?,
            bodies: copied_bodies(execution.scene().alloc(), bodies)?,
            standing: path.standing(),
        })
    }

    /// It becomes what is kept of where a run stands, in the room that it has. An error where memory is refused.
    fn copy_from(
        &mut self,
        execution: &Execution<D>,
        bodies: &[B],
        path: &Path,
    ) -> Result<(), AllocError>
        ensures { IfOk result (λ _. IsKeptOf execution.now bodies.now path.now self.new) }
    {
        self.execution.copy_from(execution)?;
        let none = Sequence::new(execution.scene().alloc());
        let mut list = mem::replace(&mut self.bodies, none).into_vec();
        restart_all(&mut list, bodies)?;
        let copy = Sequence::from_vec(list);
        let standing = path.standing();
        self.bodies = copy;
        self.standing = standing;
        Ok(())
    }

    /// A run goes on from here, along a path that begins as that one's did. An error where memory is refused.
    fn go_on(
        &self,
        execution: &mut Execution<D>,
        bodies: &mut Vec<B>,
        path: &mut Path,
    ) -> Result<(), AllocError>
        requires { Fits path.old self.now }
        ensures goes { IfOk result (λ _. GoesOn self.now path.old execution.new bodies.new.items path.new) }
        ensures same { IsSameSearch path.old path.new }
    {
        restart_all(bodies, self.bodies.as_slice())?;
        execution.copy_from(&self.execution)?;
        path.stand(&self.standing);
        Ok(())
    }

    /// The run itself goes on, along a path that begins as its own did. What another run has left is left in its place, for its room.
    fn move_into(
        self,
        execution: &mut Execution<D>,
        bodies: &mut Vec<B>,
        path: &mut Path,
    ) -> Snapshot<D, B>
        requires { Fits path.old self }
        ensures goes { GoesOn self path.old execution.new bodies.new.items path.new }
        ensures same { IsSameSearch path.old path.new }
    {
        let Snapshot {
            execution: run,
            bodies: threads,
            standing,
        } = self;
        path.stand(&standing);
        Snapshot {
            execution: mem::replace(execution, run),
            bodies: Sequence::from_vec(mem::replace(bodies, threads.into_vec())),
            standing,
        }
    }
}

/// So many are kept at most by a check.
pub const MOST_SNAPSHOTS: usize = 100;

/// Snapshots of runs along one path, each at a later node than those before it (own). Where a run stands at as many branch points as may
/// be kept, at which something is left, those before the last are let go: what is deepest is gone on with first.
#[derive(Drop)]
pub struct Snapshots<D, B> {
    list: Vec<Snapshot<D, B>>,
    // what is gone on with no more, for its room
    spare: Vec<Snapshot<D, B>>,
    most: usize,
}

impl<D, B> Model for Snapshots<D, B> {
    ghost use Rattle.std.specs.Prelude.{List};
    ghost use Rattle.loom_engine.specs.declared.rt.snapshots.Snapshot.{Snapshot};

    ghost Value = { List (Snapshot D B) };

    ghost view = { λ s. s.list.items };
}

impl<D: Drop, B: Drop> Snapshots<D, B> {
    /// None yet, and none is to be kept.
    pub fn new(alloc: Global) -> Snapshots<D, B>
        ensures { result ≡ [] }
    {
        Snapshots {
            list: Vec::new(alloc),
            spare: Vec::new(alloc),
            most: 0,
        }
    }

    /// From now on so many are kept at most.
    pub fn allow(&mut self, most: usize)
        ensures { self.new ≡ self.old }
    {
        self.most = most;
    }

    /// Whether any are to be kept.
    pub fn are_allowed(&self) -> bool {
        self.most > 0
    }

    /// None any more.
    pub fn clear(&mut self)
        ensures { self.new ≡ [] }
    {
        self.list.clear();
        self.spare.clear();
    }

    /// Those are left that are before this place of their path, up to the first that isn't.
    pub fn keep_before(&mut self, place: usize)
        ensures fewer { (count : ℕ) × (self.new ≡ take count self.old) }
        ensures before { All (λ kept. kept.standing.position < place) self.new }
    {
        let count = count_before(self.list.as_slice(), place);
        self.list.truncate(count);
    }
}

impl<D: Data + Same, B: Body> Snapshots<D, B> {
    /// Keeps one more, of the run that is there. An error where memory is refused.
    pub fn keep(
        &mut self,
        execution: &Execution<D>,
        bodies: &[B],
        path: &Path,
    ) -> Result<(), AllocError>
        ensures { IfOk result (λ _. KeepsOne execution.now bodies.now path.now self.old self.new) }
    {
        let snapshot = snapshot_of(&mut self.spare, execution, bodies, path)?;
        make_room(&mut self.list, self.most);
        self.list.push(snapshot)?;
        Ok(())
    }

    /// A run goes on from the last of them, along a path that begins as that one's did; false if there is none. It is kept no longer where
    /// nothing is seen to be left to try from there on. An error where memory is refused.
    pub fn go_on(
        &mut self,
        execution: &mut Execution<D>,
        bodies: &mut Vec<B>,
        path: &mut Path,
    ) -> Result<bool, AllocError>
        requires { All (Fits path.old) self.old }
        ensures goes { IfOk result (λ is. GoesOnWithOne self.old path.old is execution.new bodies.new.items path.new) }
        ensures fewer { (count : ℕ) × (self.new ≡ take count self.old) }
        ensures same { IsSameSearch path.old path.new }
    {
        if self.is_left(path) {
            self.copy_last(execution, bodies, path)
        } else {
            Ok(self.take_last(execution, bodies, path))
        }
    }

    /// Whether something is left to try from the last of them on.
    fn is_left(&self, path: &Path) -> bool {
        match self.list.last() {
            Some(last) => path.is_left_from(last.standing.position),
            None => false,
        }
    }

    /// A run goes on from a copy of the last of them, if there is one.
    fn copy_last(
        &self,
        execution: &mut Execution<D>,
        bodies: &mut Vec<B>,
        path: &mut Path,
    ) -> Result<bool, AllocError>
        requires { All (Fits path.old) self.now }
        ensures goes { IfOk result (λ is. GoesOnWithOne self.now path.old is execution.new bodies.new.items path.new) }
        ensures same { IsSameSearch path.old path.new }
    {
        match self.list.last() {
            Some(last) => {
                last.go_on(execution, bodies, path)?;
                Ok(true)
            }
            None => Ok(false),
        }
    }

    /// A run goes on from the last of them, if there is one, which isn't kept any more.
    fn take_last(
        &mut self,
        execution: &mut Execution<D>,
        bodies: &mut Vec<B>,
        path: &mut Path,
    ) -> bool
        requires { All (Fits path.old) self.old }
        ensures goes { GoesOnWithOne self.old path.old result execution.new bodies.new.items path.new }
        ensures fewer { (count : ℕ) × (self.new ≡ take count self.old) }
        ensures same { IsSameSearch path.old path.new }
    {
        let Some(last) = self.list.pop() else {
            return false;
        };
        let left = last.move_into(execution, bodies, path);
        keep_spare(&mut self.spare, left);
        true
    }
}

/// How many of them are before this place of their path, up to the first that isn't.
fn count_before<D, B>(list: &[Snapshot<D, B>], place: usize) -> usize
    ensures { All (λ kept. kept.standing.position < place) (take result list.now) }
{
    for count in 0..list.len() {
        if list[count].standing.position >= place {
            return count;
        }
    }
    list.len()
}

/// A copy of where a run stands, in the room of a spare one. An error where memory is refused.
fn snapshot_of<D: Data + Same, B: Body>(
    spare: &mut Vec<Snapshot<D, B>>,
    execution: &Execution<D>,
    bodies: &[B],
    path: &Path,
) -> Result<Snapshot<D, B>, AllocError>
    ensures { IfOk result (IsKeptOf execution.now bodies.now path.now) }
{
    let Some(mut snapshot) = spare.pop() else {
        return Snapshot::of(execution, bodies, path);
    };
    snapshot.copy_from(execution, bodies, path)?;
    Ok(snapshot)
}

/// Keeps one for its room, where there is memory for that.
fn keep_spare<D: Drop, B: Drop>(spare: &mut Vec<Snapshot<D, B>>, left: Snapshot<D, B>) {
    match spare.push(left) {
        Ok(()) | Err(_) => {}
    }
}

/// Where as many are kept as may be, none is any more.
fn make_room<D: Drop, B: Drop>(list: &mut Vec<Snapshot<D, B>>, most: usize)
    ensures { (list.new.items ≡ list.old.items) ⊎ (list.new.items ≡ []) }
{
    if list.len() >= most {
        list.clear();
    }
}

/// The bodies become copies of others, in the room that they have. An error where memory is refused.
fn restart_all<B: Body>(bodies: &mut Vec<B>, others: &[B]) -> Result<(), AllocError>
    ensures { IfOk result (λ _. bodies.new.items ≡ others.now) }
{
    bodies.truncate(others.len());
    let there = bodies.len();
    restart_first(bodies, others)?;
    for place in there..others.len() {
        bodies.push(others[place].try_clone()?)?;
    }
    Ok(())
}

/// Each of the bodies becomes a copy of the other one at its place. An error where memory is refused.
fn restart_first<B: Body>(bodies: &mut Vec<B>, others: &[B]) -> Result<(), AllocError>
    requires { length bodies.old.items ≤ length others.now }
    ensures { IfOk result (λ _. bodies.new.items ≡ take (length bodies.old.items) others.now) }
{
    for place in 0..bodies.len() {
        bodies[place].restart(&others[place])?;
    }
    Ok(())
}
