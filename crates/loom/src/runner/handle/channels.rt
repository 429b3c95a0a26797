//! Short forms for channels: each makes an operation, and takes its reply apart.
ghost use Rattle.std.specs.Prelude.{◌≡◌, IfOk, IfErr};
ghost use Rattle.loom.specs.Runner.Asking.{Tells, Stops, done_in, channel_in, drained_in, received_in, sent_in, tried_receive_in};
ghost use Rattle.loom_objects.specs.declared.operation.Request.TheVariants as op;
ghost use Rattle.loom_objects.specs.declared.operation.ChannelOp.TheVariants as channel_op;

use crate::runner::exact::Exact;
use crate::runner::handle::Handle;
use crate::runner::stop::Stop;
use loom_ops::answers::mpsc::{Drained, Received, Sent, TriedReceive, TryRecvError};
use loom_ops::sync::mpsc::{Receiver, Sender, channel};
use std::collections::LinkedList;
use std::sync::Wait;

impl<D: Exact + 'static, R: Wait> Handle<D, R> {
    /// A new channel: a sender, and its receiver (loom's `sync/mpsc.rs`).
    pub fn channel(&mut self) -> Result<(Sender, Receiver), Stop>
        ensures thread { self.new.thread ≡ self.old.thread }
        ensures tells { IfOk result (Tells channel_in (op.Channel channel_op.New) self.old.told self.new.told) }
        ensures stopped { IfErr result (Stops channel_in (op.Channel channel_op.New) self.old.told self.new) }
    {
        self.ask(channel().request)
    }

    /// Sends the message. Without a receiver the answer is Err of the message (loom's `sync/mpsc.rs`).
    pub fn send(&mut self, sender: &Sender, message: D) -> Result<Result<(), D>, Stop>
        ensures thread { self.new.thread ≡ self.old.thread }
        ensures tells { IfOk result (λ answer. Tells sent_in (op.Channel (channel_op.Send sender.now.number message)) self.old.told self.new.told (record { 0 = answer })) }
        ensures stopped { IfErr result (Stops sent_in (op.Channel (channel_op.Send sender.now.number message)) self.old.told self.new) }
    {
        let Sent(outcome) = self.ask(sender.send(message).request)?;
        Ok(outcome)
    }

    /// Waits for a message. The answer is None where there is none and no sender is left (loom's `sync/mpsc.rs`).
    pub fn recv(&mut self, receiver: &Receiver) -> Result<Option<D>, Stop>
        ensures thread { self.new.thread ≡ self.old.thread }
        ensures tells { IfOk result (λ answer. Tells received_in (op.Channel (channel_op.Recv receiver.now.number)) self.old.told self.new.told (record { 0 = answer })) }
        ensures stopped { IfErr result (Stops received_in (op.Channel (channel_op.Recv receiver.now.number)) self.old.told self.new) }
    {
        let Received(message) = self.ask(receiver.recv().request)?;
        Ok(message)
    }

    /// A message, if there is one (loom's `sync/mpsc.rs`).
    pub fn try_recv(&mut self, receiver: &Receiver) -> Result<Result<D, TryRecvError>, Stop>
        ensures thread { self.new.thread ≡ self.old.thread }
        ensures tells { IfOk result (λ answer. Tells tried_receive_in (op.Channel (channel_op.TryRecv receiver.now.number)) self.old.told self.new.told (record { 0 = answer })) }
        ensures stopped { IfErr result (Stops tried_receive_in (op.Channel (channel_op.TryRecv receiver.now.number)) self.old.told self.new) }
    {
        let TriedReceive(outcome) = self.ask(receiver.try_recv().request)?;
        Ok(outcome)
    }

    /// One sender more, by the same handle (loom's `sync/mpsc.rs`).
    pub fn clone_sender(&mut self, sender: &Sender) -> Result<Sender, Stop>
        ensures thread { self.new.thread ≡ self.old.thread }
        ensures same { IfOk result (λ other. other ≡ sender.now) }
        ensures tells { IfOk result (λ other. Tells done_in (op.Channel (channel_op.CloneSender sender.now.number)) self.old.told self.new.told tt) }
        ensures stopped { IfErr result (Stops done_in (op.Channel (channel_op.CloneSender sender.now.number)) self.old.told self.new) }
    {
        let sender = *sender;
        self.ask::<()>(sender.clone().request)?;
        Ok(sender)
    }

    /// One sender fewer: in loom the drop (loom's `sync/mpsc.rs`).
    pub fn drop_sender(&mut self, sender: Sender) -> Result<(), Stop>
        ensures thread { self.new.thread ≡ self.old.thread }
        ensures tells { IfOk result (Tells done_in (op.Channel (channel_op.DropSender sender.number)) self.old.told self.new.told) }
        ensures stopped { IfErr result (Stops done_in (op.Channel (channel_op.DropSender sender.number)) self.old.told self.new) }
    {
        self.ask(sender.drop().request)
    }

    /// The receiver is no more: in loom the drop. Answers the messages that are left (loom's `sync/mpsc.rs`).
    pub fn drop_receiver(&mut self, receiver: Receiver) -> Result<LinkedList<D>, Stop>
        ensures thread { self.new.thread ≡ self.old.thread }
        ensures tells { IfOk result (λ answer. Tells drained_in (op.Channel (channel_op.DropReceiver receiver.number)) self.old.told self.new.told (record { 0 = answer })) }
        ensures stopped { IfErr result (Stops drained_in (op.Channel (channel_op.DropReceiver receiver.number)) self.old.told self.new) }
    {
        let Drained(messages) = self.ask(receiver.drop().request)?;
        Ok(messages)
    }
}
