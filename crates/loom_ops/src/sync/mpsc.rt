//! Channels: many threads send messages, and one receives them.
ghost use Rattle.std.specs.Prelude.{◌≡◌};
ghost use Rattle.loom_ops.specs.Mpsc.{receiver_handle, sender_handle};
ghost use Rattle.loom_objects.specs.Operation.Labelled.{bare};
ghost use Rattle.loom_ops.specs.Answers.{channel_in, sent_in, received_in, drained_in, tried_receive_in};

use crate::answers::answer::Answer;
use loom_objects::operation::{ChannelOp, Op, Reply, Request};
use std::collections::LinkedList;

/// A sender of a channel of the run (loom's `sync/mpsc.rs`). The senders that were made and not dropped are counted, not the
/// handles: a handle that is copied or dropped does nothing.
#[derive(Clone, Copy, Debug)]
pub struct Sender {
    /// The channel's place in the order in which objects were made.
    pub number: usize,
}

/// The receiver of a channel of the run (loom's `sync/mpsc.rs`). A handle that is copied or dropped does nothing. Where messages
/// are left at the run's end, it fails as `LeakMessages`.
#[derive(Clone, Copy, Debug)]
pub struct Receiver {
    /// The channel's place in the order in which objects were made.
    pub number: usize,
}

/// Whether a message was sent; without a receiver it is given back (own).
#[derive(Drop)]
pub struct Sent<D>(pub Result<(), D>);

/// The message that was received, unless there is none and no sender is left (own).
#[derive(Drop)]
pub struct Received<D>(pub Option<D>);

/// Why no message was received without waiting (std's `sync::mpsc::TryRecvError`).
#[derive(Clone, Copy, Debug, PartialEq, Eq)]
pub enum TryRecvError {
    /// There is none now.
    Empty,
    /// There is none, and no sender is left.
    Disconnected,
}

/// The message that was received without waiting, or why none was (own).
#[derive(Drop)]
pub struct TriedReceive<D>(pub Result<D, TryRecvError>);

/// The messages that a receiver left, the one that was sent first first (own).
#[derive(Drop)]
pub struct Drained<D>(pub LinkedList<D>);

/// A new channel, with one sender and its receiver, which both come of its reply (loom's `sync/mpsc.rs`).
pub fn channel<D, S>() -> Op<D, S>
    ensures { result ≡ bare (Request.Channel ChannelOp.New) }
{
    Op::new(Request::Channel(ChannelOp::New))
}

impl Sender {
    /// The first sender of the channel that was made, if that is what the reply says (own).
    pub fn from_reply<D>(reply: &Reply<D>) -> Option<Sender>
        ensures { result ≡ sender_handle reply.now }
    {
        match reply {
            Reply::Channel(number) => Some(Sender { number: *number }),
            _ => None,
        }
    }

    /// Sends the message, which goes last. Once the receiver is dropped it replies `SendError` with the message (loom's
    /// `sync/mpsc.rs`).
    pub fn send<D, S>(self, message: D) -> Op<D, S>
        ensures { result ≡ bare (Request.Channel (ChannelOp.Send self.number message)) }
    {
        Op::new(Request::Channel(ChannelOp::Send(self.number, message)))
    }

    /// One sender more, by the same handle (loom's `sync/mpsc.rs`).
    #[allow(clippy::should_implement_trait)]
    pub fn clone<D, S>(self) -> Op<D, S>
        ensures { result ≡ bare (Request.Channel (ChannelOp.CloneSender self.number)) }
    {
        Op::new(Request::Channel(ChannelOp::CloneSender(self.number)))
    }

    /// One sender fewer: in loom the drop. After the last one any operation of a sender is a misuse (loom's `sync/mpsc.rs`).
    pub fn drop<D, S>(self) -> Op<D, S>
        ensures { result ≡ bare (Request.Channel (ChannelOp.DropSender self.number)) }
    {
        Op::new(Request::Channel(ChannelOp::DropSender(self.number)))
    }
}

impl Receiver {
    /// The receiver of the channel that was made, if that is what the reply says (own).
    pub fn from_reply<D>(reply: &Reply<D>) -> Option<Receiver>
        ensures { result ≡ receiver_handle reply.now }
    {
        match reply {
            Reply::Channel(number) => Some(Receiver { number: *number }),
            _ => None,
        }
    }

    /// Replies the message that was sent first. It waits while there is none and a sender is left; without one it replies
    /// `RecvError` (loom's `sync/mpsc.rs`).
    pub fn recv<D, S>(self) -> Op<D, S>
        ensures { result ≡ bare (Request.Channel (ChannelOp.Recv self.number)) }
    {
        Op::new(Request::Channel(ChannelOp::Recv(self.number)))
    }

    /// Receives where there is a message. Where there is none it replies `Empty`, also without senders, and doesn't wait;
    /// where another thread has taken it since, and no sender is left, `Disconnected` (loom's `sync/mpsc.rs`).
    pub fn try_recv<D, S>(self) -> Op<D, S>
        ensures { result ≡ bare (Request.Channel (ChannelOp.TryRecv self.number)) }
    {
        Op::new(Request::Channel(ChannelOp::TryRecv(self.number)))
    }

    /// Receives the messages that are left, and replies them; then the receiver is no more, and a later operation of it is a
    /// misuse (loom's `sync/mpsc.rs`).
    pub fn drop<D, S>(self) -> Op<D, S>
        ensures { result ≡ bare (Request.Channel (ChannelOp.DropReceiver self.number)) }
    {
        Op::new(Request::Channel(ChannelOp::DropReceiver(self.number)))
    }
}

impl<D: Drop> Answer<D> for (Sender, Receiver) {
    ghost held = { channel_in };

    fn from_reply(reply: Reply<D>) -> Option<(Sender, Receiver)>
        ensures { result ≡ channel_in reply }
    {
        match reply {
            Reply::Channel(number) => Some((Sender { number }, Receiver { number })),
            other => {
                other.let_go();
                None
            }
        }
    }
}

impl<D: Drop> Answer<D> for Sent<D> {
    ghost held = { sent_in };

    fn from_reply(reply: Reply<D>) -> Option<Sent<D>>
        ensures { result ≡ sent_in reply }
    {
        match reply {
            Reply::Done => Some(Sent(Ok(()))),
            Reply::SendError(message) => Some(Sent(Err(message))),
            other => {
                other.let_go();
                None
            }
        }
    }
}

impl<D: Drop> Answer<D> for Received<D> {
    ghost held = { received_in };

    fn from_reply(reply: Reply<D>) -> Option<Received<D>>
        ensures { result ≡ received_in reply }
    {
        match reply {
            Reply::Data(message) => Some(Received(Some(message))),
            Reply::RecvError => Some(Received(None)),
            other => {
                other.let_go();
                None
            }
        }
    }
}

impl<D: Drop> Answer<D> for TriedReceive<D> {
    ghost held = { tried_receive_in };

    fn from_reply(reply: Reply<D>) -> Option<TriedReceive<D>>
        ensures { result ≡ tried_receive_in reply }
    {
        match reply {
            Reply::Data(message) => Some(TriedReceive(Ok(message))),
            Reply::Empty => Some(TriedReceive(Err(TryRecvError::Empty))),
            Reply::Disconnected => Some(TriedReceive(Err(TryRecvError::Disconnected))),
            other => {
                other.let_go();
                None
            }
        }
    }
}

impl<D: Drop> Answer<D> for Drained<D> {
    ghost held = { drained_in };

    fn from_reply(reply: Reply<D>) -> Option<Drained<D>>
        ensures { result ≡ drained_in reply }
    {
        match reply {
            Reply::Messages(messages) => Some(Drained(messages)),
            other => {
                other.let_go();
                None
            }
        }
    }
}
