//! Channels.
use crate::dependence::Action;
use crate::halt::NextReply;
use crate::kinds::{Kind, Step};
use crate::machine::Machine;
use crate::state::{Message, Object, State};
use loom_objects::operation::{ChannelOp, Reply};
use loom_views::rt::failure::FailureKind;
use std::collections::LinkedList;
use std::mem;

/// How a message is received.
#[derive(Clone, Copy)]
pub enum Receiving {
    Recv,
    TryRecv,
    /// The receiver is dropped, and takes what is left.
    Drain,
}

impl Object {
    // Whether who receives has to wait.
    fn is_waited_for(&self) -> bool {
        self.messages.is_empty() && self.count > 0
    }
}

impl Machine {
    // The channel of this number, of which a sender is left.
    fn sender_of(&mut self, number: usize) -> &mut Object {
        let is_left = self.object(number, Kind::Channel).count > 0;
        self.check(is_left, FailureKind::Misuse);
        self.at(number)
    }

    // The channel of this number, whose receiver is left.
    fn receiver_of(&mut self, number: usize) -> &mut Object {
        let is_left = self.object(number, Kind::Channel).has_receiver;
        self.check(is_left, FailureKind::Misuse);
        self.at(number)
    }

    /// An operation of a channel is handed over.
    pub fn channel_begins(&mut self, op: ChannelOp<u64>) -> NextReply {
        match op {
            ChannelOp::New => Some(Reply::Channel(self.makes(Kind::Channel, None))),
            ChannelOp::Send(number, value) => {
                self.sender_of(number);
                self.pends(number, Action::Send, Step::Send(value), false)
            }
            ChannelOp::Recv(number) => {
                let is_waited_for = self.receiver_of(number).is_waited_for();
                let step = Step::Receive(Receiving::Recv);
                self.pends(number, Action::Receive, step, is_waited_for)
            }
            ChannelOp::TryRecv(number) => {
                if self.receiver_of(number).messages.is_empty() {
                    Some(Reply::Empty)
                } else {
                    let step = Step::Receive(Receiving::TryRecv);
                    self.pends(number, Action::Receive, step, false)
                }
            }
            ChannelOp::CloneSender(number) => {
                let channel = self.sender_of(number);
                channel.count = channel.count.saturating_add(1);
                Some(Reply::Done)
            }
            ChannelOp::DropSender(number) => self.drops_sender(number),
            ChannelOp::DropReceiver(number) => self.drains(number),
        }
    }

    // One sender fewer; with the last one, who waits for a message goes on.
    fn drops_sender(&mut self, number: usize) -> NextReply {
        let channel = self.sender_of(number);
        channel.count = channel.count.saturating_sub(1);
        if channel.count == 0 {
            self.set_pending(number, None, State::Runnable);
        }
        Some(Reply::Done)
    }

    // The active thread drops the receiver: it is to take the next message, or where none is left it has what it has taken,
    // and the receiver is gone.
    fn drains(&mut self, number: usize) -> NextReply {
        let channel = self.receiver_of(number);
        if !channel.messages.is_empty() {
            let step = Step::Receive(Receiving::Drain);
            return self.pends(number, Action::Receive, step, false);
        }
        channel.has_receiver = false;
        let none = LinkedList::new(self.alloc);
        Some(Reply::Messages(mem::replace(&mut self.me().taken, none)))
    }

    /// The active thread sends, and has the message back where there is no receiver.
    pub fn sends(&mut self, number: usize, value: u64) -> NextReply {
        let channel = self.sender_of(number);
        if !channel.has_receiver {
            return Some(Reply::SendError(value));
        }
        let is_first = channel.messages.is_empty();
        self.releases_to(number);
        let channel = self.at(number);
        let point = channel.point;
        let has_grown = channel.messages.push_back(Message { value, point }).is_ok();
        self.grows(has_grown);
        if is_first {
            self.set_pending(number, None, State::Runnable);
        }
        Some(Reply::Done)
    }

    /// The active thread receives.
    pub fn receives(&mut self, number: usize, receiving: Receiving) -> NextReply {
        match self.receiver_of(number).messages.pop_front() {
            Some(message) => self.takes(number, receiving, message),
            None => match receiving {
                Receiving::Recv => Some(Reply::RecvError),
                Receiving::TryRecv => Some(Reply::Disconnected),
                Receiving::Drain => self.drains(number),
            },
        }
    }

    // The active thread has the message. Where no other is left, who waits to receive is blocked.
    fn takes(&mut self, number: usize, receiving: Receiving, message: Message) -> NextReply {
        self.acquire(message.point);
        if self.at(number).is_waited_for() {
            self.set_pending(number, Some(Action::Receive), State::Blocked);
        }
        match receiving {
            Receiving::Recv | Receiving::TryRecv => Some(Reply::Data(message.value)),
            Receiving::Drain => {
                let has_grown = self.me().taken.push_back(message.value).is_ok();
                self.grows(has_grown);
                self.drains(number)
            }
        }
    }
}
