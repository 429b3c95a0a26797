//! What a closure gets of a reply: the trait, and the answer of what replies no more than that it is done.
ghost use Rattle.std.specs.Prelude.{◌≡◌, Option};
ghost use Rattle.loom_objects.specs.declared.operation.Reply.{Reply};
ghost use Rattle.loom_ops.specs.Answers.{done_in};

pub use crate::sync::atomic::Loaded;
pub use crate::sync::mutex::Tried;
pub use crate::thread::Joined;
use loom_objects::operation::Reply;

/// What a closure is answered in place of a reply (own).
pub trait Answer<D>: Sized {
    /// What the reply holds, if it is the reply to such a question.
    ghost held: { Reply D → Option Self };

    /// Takes it out of the reply.
    fn from_reply(reply: Reply<D>) -> Option<Self>
        ensures { result ≡ held reply };
}

impl<D: Drop> Answer<D> for () {
    ghost held = { done_in };

    fn from_reply(reply: Reply<D>) -> Option<()>
        ensures { result ≡ done_in reply }
    {
        match reply {
            Reply::Done => Some(()),
            other => {
                other.let_go();
                None
            }
        }
    }
}
