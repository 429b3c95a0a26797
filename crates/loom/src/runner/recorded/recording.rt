//! A recording: what closures were seen to answer, each to a reply behind all earlier replies to its thread.
ghost use Rattle.std.specs.Prelude.{◌≡◌, ◌<◌, [], IfOk, IfSome, None, Some, length, slice_get, true, false};
ghost use Rattle.loom_objects.specs.Operation.Plain.{started_request};
ghost use Rattle.loom.specs.Runner.Recording.{IsFound, IsLonger};

use crate::runner::exact::Exact;
use crate::runner::same::is_same_reply;
use loom_objects::location::Location;
use loom_objects::operation::{Reply, Request, ThreadOp, copy_reply, copy_request};
use std::alloc::{AllocError, Global};
use std::marker::Model;

/// So many answers are recorded at most.
const MAX_ANSWERS: usize = 1_000_000;
/// Where so many are, no run more is recorded beside them.
const MANY_ANSWERS: usize = MAX_ANSWERS / 2;

/// What a thread handed over after a reply at a place.
#[derive(Drop)]
pub(crate) struct Answer<D> {
    /// Where the thread was: what it was told before.
    pub(crate) from: usize,
    /// The reply there.
    pub(crate) reply: Reply<D>,
    /// What it handed over then.
    pub(crate) op: Request<D, ()>,
    /// Where its closure called that, if it says so.
    pub(crate) location: Option<Location>,
    /// Where the thread is then.
    pub(crate) after: usize,
    /// Where the thread begins that this starts.
    pub(crate) child: Option<usize>,
    // the answer at the same place that was recorded before this one
    older: Option<usize>,
}

/// The answers that were seen, by the places of threads. Main begins at the first place.
#[derive(Drop)]
pub(crate) struct Recording<D> {
    answers: Vec<Answer<D>>,
    // the newest answer at each place
    newest: Vec<Option<usize>>,
}

impl<D> Model for Recording<D> {
    ghost use Rattle.std.specs.Prelude.{length};
    ghost use Rattle.loom.specs.Runner.Recording.{Answers};

    ghost Value = { Answers D };

    ghost view = { λ r. record { answers = r.answers.items; places = length r.newest.items } };
}

impl<D> Recording<D> {
    /// Whether so many answers are recorded that the next run begins a recording anew.
    pub(crate) fn is_full(&self) -> bool {
        self.answers.len() >= MANY_ANSWERS
    }

    /// No answer yet, and main's place alone.
    pub(crate) fn new(alloc: Global) -> Result<Recording<D>, AllocError>
        ensures answers { IfOk result (λ recording. recording.answers ≡ []) }
        ensures places { IfOk result (λ recording. recording.places ≡ 1) }
    {
        let mut newest = Vec::new(alloc);
        newest.push(None)?;
        Ok(Recording {
            answers: Vec::new(alloc),
            newest,
        })
    }

    /// The answer of this number.
    pub(crate) fn answer(&self, number: usize) -> &Answer<D>
        requires { number < length self.now.answers }
        ensures { slice_get self.now.answers number ≡ Some result.now }
    {
        &self.answers[number]
    }
}

impl<D> Recording<D> {
    /// Where the operation was called behind which a thread is at the place, if that is known.
    pub(crate) fn location(&self, place: usize) -> Option<Location> {
        for answer in &self.answers {
            if answer.after == place {
                return answer.location;
            }
        }
        None
    }
}

impl<D: Exact> Recording<D> {
    /// The number of the answer of a thread at the place to the reply, if it is recorded.
    pub(crate) fn find(&self, place: usize, reply: &Reply<D>) -> Option<usize>
        ensures { IfSome result (λ number. IsFound self.now place reply.now number) }
    {
        let mut next = *self.newest.get(place)?;
        for _ in 0..self.answers.len() {
            let number = next?;
            let answer = self.answers.get(number)?;
            if answer.from == place && is_same_reply(&answer.reply, reply) {
                return Some(number);
            }
            next = answer.older;
        }
        None
    }

    /// Records one answer more, and tells its number. An error where memory is refused, or where so many are recorded already.
    pub(crate) fn push(
        &mut self,
        alloc: Global,
        from: usize,
        reply: &Reply<D>,
        op: &Request<D, ()>,
        location: Option<Location>,
    ) -> Result<usize, AllocError>
        ensures { IfOk result (λ number. IsLonger self.old from reply.now op.now number self.new) }
    {
        let number = self.answers.len();
        if number >= MAX_ANSWERS {
            return Err(AllocError);
        }
        self.answers.reserve(1)?;
        self.newest.reserve(2)?;
        let (reply, op) = copy_both(alloc, reply, op)?;
        let after = self.newest.len();
        self.newest.push_reserved(None);
        let child = if starts(&op) {
            self.newest.push_reserved(None);
            Some(after + 1)
        } else {
            None
        };
        let older = replace_newest(&mut self.newest, from, number);
        self.answers.push_reserved(Answer {
            from,
            reply,
            op,
            location,
            after,
            child,
            older,
        });
        Ok(number)
    }
}

/// Copies of both.
fn copy_both<D: Exact>(
    alloc: Global,
    reply: &Reply<D>,
    op: &Request<D, ()>,
) -> Result<(Reply<D>, Request<D, ()>), AllocError>
    ensures { IfOk result (λ both. both ≡ (reply.now, op.now)) }
{
    let op = copy_request(op)?;
    match copy_reply(alloc, reply) {
        Ok(reply) => Ok((reply, op)),
        Err(refusal) => {
            op.let_go();
            Err(refusal)
        }
    }
}

/// The newest answer at the place is this one. Answers the one before it.
fn replace_newest(newest: &mut [Option<usize>], place: usize, number: usize) -> Option<usize> {
    let older = newest.get_mut(place)?;
    older.replace(number)
}

/// Whether the operation starts a thread.
pub(crate) fn starts<D>(op: &Request<D, ()>) -> bool
    ensures yes { result ≡ true → started_request op.now ≡ Some tt }
    ensures no { result ≡ false → started_request op.now ≡ None }
{
    matches!(op, Request::Thread(ThreadOp::Spawn(..)))
}
