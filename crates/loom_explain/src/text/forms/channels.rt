//! Forms of operations of channels.
use crate::text::forms::{Form, Kind};
use loom_objects::operation::ChannelOp;

/// What is asked of who sends.
const SENDER: &str = "a sender is to be left";

/// What is asked of who receives.
const RECEIVER: &str = "the receiver is to be left";

static CHANNEL_NEW: Form = makes!(Kind::Channel, "channel", SENDER);

static CHANNEL_SEND: Form = on!(Kind::Channel, ".send()", Sends, SENDER, ties Sends);

static CHANNEL_RECV: Form =
    on!(Kind::Channel, ".recv()", Receives, RECEIVER, waits "waits for a message of", ties Receives);

static CHANNEL_TRY_RECV: Form =
    on!(Kind::Channel, ".try_recv()", Receives, RECEIVER, ties Receives);

static CHANNEL_CLONE_SENDER: Form = on!(Kind::Channel, ".sender.clone()", Nothing, SENDER);

static CHANNEL_DROP_SENDER: Form = on!(Kind::Channel, ".sender.drop()", Nothing, SENDER);

static CHANNEL_DROP_RECEIVER: Form =
    on!(Kind::Channel, ".receiver.drop()", Empties, RECEIVER, passes "takes a message out");

pub(crate) fn channel_form(op: &ChannelOp<()>) -> (usize, &'static Form) {
    match op {
        ChannelOp::New => (0, &CHANNEL_NEW),
        ChannelOp::Send(channel, _) => (*channel, &CHANNEL_SEND),
        ChannelOp::Recv(channel) => (*channel, &CHANNEL_RECV),
        ChannelOp::TryRecv(channel) => (*channel, &CHANNEL_TRY_RECV),
        ChannelOp::CloneSender(channel) => (*channel, &CHANNEL_CLONE_SENDER),
        ChannelOp::DropSender(channel) => (*channel, &CHANNEL_DROP_SENDER),
        ChannelOp::DropReceiver(channel) => (*channel, &CHANNEL_DROP_RECEIVER),
    }
}

/// The message that the operation hands over, if it does.
pub(crate) fn channel_data<D>(op: &ChannelOp<D>) -> Option<&D> {
    match op {
        ChannelOp::Send(_, message) => Some(message),
        ChannelOp::New
        | ChannelOp::Recv(_)
        | ChannelOp::TryRecv(_)
        | ChannelOp::CloneSender(_)
        | ChannelOp::DropSender(_)
        | ChannelOp::DropReceiver(_) => None,
    }
}
