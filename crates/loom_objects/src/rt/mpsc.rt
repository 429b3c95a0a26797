//! Channels: their messages, senders and receiver, and what the operations of `mpsc` do to them (loom's `rt/mpsc.rs`).
ghost use Rattle.std.specs.Borrow.{sem};
ghost use Rattle.loom_objects.specs.Scene.Lends.{lends_in_scene, lends_kind};
ghost use Rattle.loom_objects.specs.Scene.Lookup.{now_of, shown_of};
ghost use Rattle.loom_objects.specs.Scene.Lookup as lookup;
ghost use Rattle.loom_objects.specs.contracts.rt.mpsc.Channel as channel_row;
ghost use Rattle.std.specs.Prelude.{◌≡◌, ◌++◌, ◌&&◌, drop, nat_lt, OnOk, OnErr, IfOk, true};
ghost use Rattle.loom_objects.specs.Rules.Mpsc.{first_of, fits_behind};
ghost use Rattle.loom_objects.specs.Rules.Leaks.{is_none_left};
ghost use Rattle.loom_objects.specs.Rules.Rule.{check};
ghost use Rattle.loom_views.specs.declared.rt.failure.FailureKind.TheVariants.{TooManySteps};
ghost use Rattle.loom_objects.specs.Stages.Mpsc as stages;
ghost use Rattle.loom_objects.specs.Scene.Stage.{Does, DoesIfOk};
ghost use Rattle.loom_objects.specs.Rules.Mpsc as rules;

use crate::data::Data;
use crate::operation::{ChannelOp, Message, Reply, Turn};
use crate::rt::kept::{Kept, are_messages_equal, copied_messages};
use crate::rt::object::{Object, of_kind};
use crate::rt::run::{Entry, Passed};
use crate::rt::scene::Scene;
use crate::rt::thread::{Receiving, Task};
use loom_views::rt::failure::FailureKind;
use loom_views::same::Same;
use std::alloc::{AllocError, Global};
use std::collections::LinkedList;

/// A channel (loom's `rt/mpsc.rs`).
#[derive(Drop)]
pub struct Channel<D> {
    /// How many senders there are.
    pub senders: u64,
    /// Whether its receiver is there.
    pub has_receiver: bool,
    /// The messages that are to be received, the one that was sent first first.
    pub messages: LinkedList<Message<D>>,
}

/// A list has fewer values than this.
const LIST_LIMIT: usize = 1 << 63;

impl<D> Channel<D> {
    /// It has no message.
    pub fn is_empty(&self) -> bool
        ensures { result ≡ is_none_left self.now.messages }
    {
        self.messages.is_empty()
    }

    /// Who receives has to wait: it has no message, and a sender is left.
    pub fn is_waited_for(&self) -> bool
        ensures { result ≡ (is_none_left self.now.messages && nat_lt 0 self.now.senders) }
    {
        self.is_empty() && self.senders > 0
    }
}

/// More values go behind those of the list. `TooManySteps` where these are 2^63 in all; then nothing changes.
fn append<T: Drop>(list: &mut LinkedList<T>, mut more: LinkedList<T>) -> Result<(), FailureKind>
    ensures result { result ≡ check (fits_behind list.old more) TooManySteps }
    ensures ok { OnOk result (list.new ≡ list.old ++ more) }
    ensures err { OnErr result (list.new ≡ list.old) }
{
    if list.len() + more.len() >= LIST_LIMIT {
        return Err(FailureKind::TooManySteps);
    }
    if list.append(&mut more).is_err() {
        return Err(FailureKind::TooManySteps);
    }
    Ok(())
}

impl<D: Drop> Channel<D> {
    /// The messages go behind those that it has. `TooManySteps` where these are 2^63 in all; then nothing changes.
    pub fn put(&mut self, sent: LinkedList<Message<D>>) -> Result<(), FailureKind>
        ensures result { result ≡ check (fits_behind self.old.messages sent) TooManySteps }
        ensures ok { OnOk result (self.new ≡ record self.old { messages = self.old.messages ++ sent }) }
        ensures err { OnErr result (self.new ≡ self.old) }
    {
        append(&mut self.messages, sent)
    }

    /// The message that was sent first leaves. None where there is none; then nothing changes.
    pub fn take(&mut self) -> Option<Message<D>>
        ensures message { result ≡ first_of self.old.messages }
        ensures rest { self.new ≡ record self.old { messages = drop 1 self.old.messages } }
    {
        self.messages.pop_front()
    }
}

impl<D> Object<D> {
    /// The channel that it is, to change. Misuse where it is none.
    fn as_channel_mut(&mut self) -> Result<&mut Channel<D>, FailureKind>
        ensures* writes_back { sem 𝓛 (lends_kind D.row (channel_row.the_row D.row) Object.Channel self.entry result) }
        ensures value { now_of result ≡ lookup.channel_in self.old }
    {
        of_kind!(self, Channel(channel))
    }
}

impl<D: Drop> Scene<D> {
    /// The channel of this number, to read. Misuse where there is none.
    pub fn channel(&self, number: usize) -> Result<&Channel<D>, FailureKind>
        ensures { shown_of result ≡ lookup.channel_at number self.now.objects }
    {
        of_kind!(self.object(number)?, Channel(channel))
    }

    /// The channel of this number, to change. Misuse where there is none.
    #[tactic(auto, using(crate::proofs::Scene::Finding::object_kept))]
    pub fn channel_mut(&mut self, number: usize) -> Result<&mut Channel<D>, FailureKind>
        ensures* writes_back { sem 𝓛 (lends_in_scene D.row (channel_row.the_row D.row) Object.Channel self.entry number result) }
        ensures value { now_of result ≡ lookup.channel_at number self.old.objects }
    {
        self.object_mut(number)?.as_channel_mut()
    }
}

/// The first message is taken out, if there is one: the active thread acquires from its point, and who else is to receive is
/// blocked where none is left and a sender is.
pub fn take_first<D: Drop>(
    scene: &mut Scene<D>,
    number: usize,
) -> Result<Option<Message<D>>, FailureKind>
    ensures { Does (stages.takes_first number) scene.old result scene.new }
{
    let channel = scene.channel_mut(number)?;
    if !channel.has_receiver {
        return Err(FailureKind::Misuse);
    }
    match channel.take() {
        None => Ok(None),
        Some(message) => {
            let is_waited_for = channel.is_waited_for();
            scene.acquire_from_stamp(message.stamp);
            if is_waited_for {
                scene.block_receivers(number);
            }
            Ok(Some(message))
        }
    }
}

/// What a message holds goes behind the values that were taken.
pub fn gather<D: Drop>(
    mut taken: LinkedList<D>,
    message: Option<Message<D>>,
) -> Result<LinkedList<D>, FailureKind>
    ensures { result ≡ stages.gathers taken message }
{
    if let Some(message) = message {
        append(&mut taken, message.value)?;
    }
    Ok(taken)
}

/// What an operation on a channel does up to its branch point, or all of it. An error of the outer result only where memory is
/// refused (loom's `rt/mpsc.rs` and `sync/mpsc.rs`).
pub fn channel_begins<D: Drop>(
    scene: &mut Scene<D>,
    op: ChannelOp<D>,
) -> Result<Result<Entry<D>, FailureKind>, AllocError>
    ensures does { IfOk result (λ answer. Does (rules.channel_begins op) scene.old answer scene.new) }
    ensures growth { OnErr result (rules.needs_memory op ≡ true) }
{
    match op {
        ChannelOp::New => Ok(Ok(channel_new(scene)?)),
        ChannelOp::Send(number, value) => send_begins(scene, number, value),
        ChannelOp::Recv(number) => Ok(recv_begins(scene, number)),
        ChannelOp::TryRecv(number) => Ok(try_recv_begins(scene, number)),
        ChannelOp::CloneSender(number) => Ok(sender_clone(scene, number)),
        ChannelOp::DropSender(number) => Ok(sender_drop(scene, number)),
        ChannelOp::DropReceiver(number) => Ok(receiver_drop(scene, number)),
    }
}

/// A channel with one sender and its receiver.
fn channel_new<D: Drop>(scene: &mut Scene<D>) -> Result<Entry<D>, AllocError>
    ensures { DoesIfOk rules.channel_new scene.old result scene.new }
{
    let channel = Channel {
        senders: 1,
        has_receiver: true,
        messages: LinkedList::new(scene.alloc()),
    };
    let number = scene.add(Object::Channel(channel))?;
    Ok(Entry::Answered(Reply::Channel(number)))
}

/// The message is made, with a stamp of its own, and the thread reaches a branch point.
fn send_begins<D: Drop>(
    scene: &mut Scene<D>,
    number: usize,
    value: D,
) -> Result<Result<Entry<D>, FailureKind>, AllocError>
    ensures { IfOk result (λ answer. Does (rules.send_begins number value) scene.old answer scene.new) }
{
    if let Err(kind) = check_sender(scene, number) {
        return Ok(Err(kind));
    }
    let mut values = LinkedList::new(scene.alloc());
    values.push_back(value)?;
    let mut sent = LinkedList::new(scene.alloc());
    let stamp = scene.add_stamp()?;
    sent.push_back(Message {
        value: values,
        stamp,
    })?;
    scene.pend(Task::Send(number, sent), false);
    Ok(Ok(Entry::AtBranch))
}

/// `Misuse` where there is no such channel, or no sender is left.
fn check_sender<D: Drop>(scene: &Scene<D>, number: usize) -> Result<(), FailureKind>
    ensures { result ≡ stages.has_sender number scene.now.objects }
{
    if scene.channel(number)?.senders == 0 {
        return Err(FailureKind::Misuse);
    }
    Ok(())
}

/// The thread reaches a branch point, blocked while there is no message and a sender is left.
fn recv_begins<D: Drop>(scene: &mut Scene<D>, number: usize) -> Result<Entry<D>, FailureKind>
    ensures { Does (rules.recv_begins number) scene.old result scene.new }
{
    let channel = scene.channel(number)?;
    if !channel.has_receiver {
        return Err(FailureKind::Misuse);
    }
    let is_blocked = channel.is_waited_for();
    scene.pend(Task::Receive(Receiving::Recv, number), is_blocked);
    Ok(Entry::AtBranch)
}

/// Without a message the thread is answered at once.
fn try_recv_begins<D: Drop>(scene: &mut Scene<D>, number: usize) -> Result<Entry<D>, FailureKind>
    ensures { Does (rules.try_recv_begins number) scene.old result scene.new }
{
    let channel = scene.channel(number)?;
    if !channel.has_receiver {
        return Err(FailureKind::Misuse);
    }
    if channel.is_empty() {
        return Ok(Entry::Answered(Reply::Empty));
    }
    scene.pend(Task::Receive(Receiving::TryRecv, number), false);
    Ok(Entry::AtBranch)
}

/// One sender more.
fn sender_clone<D: Drop>(scene: &mut Scene<D>, number: usize) -> Result<Entry<D>, FailureKind>
    ensures { Does (rules.sender_clone number) scene.old result scene.new }
{
    let channel = scene.channel_mut(number)?;
    if channel.senders == 0 {
        return Err(FailureKind::Misuse);
    }
    if channel.senders == u64::MAX {
        return Err(FailureKind::TooManySteps);
    }
    channel.senders += 1;
    Ok(Entry::Answered(Reply::Done))
}

/// One sender fewer; with the last one who is pending is woken.
fn sender_drop<D: Drop>(scene: &mut Scene<D>, number: usize) -> Result<Entry<D>, FailureKind>
    ensures { Does (rules.sender_drop number) scene.old result scene.new }
{
    let channel = scene.channel_mut(number)?;
    if channel.senders == 0 {
        return Err(FailureKind::Misuse);
    }
    let is_last = channel.senders == 1;
    channel.senders -= 1;
    if is_last {
        scene.wake_pending(number);
    }
    Ok(Entry::Answered(Reply::Done))
}

/// The receiver is gone, or the thread reaches a branch point for the first message that is left.
fn receiver_drop<D: Drop>(scene: &mut Scene<D>, number: usize) -> Result<Entry<D>, FailureKind>
    ensures { Does (rules.receiver_drop number) scene.old result scene.new }
{
    let none = LinkedList::new(scene.alloc());
    let channel = scene.channel_mut(number)?;
    if !channel.has_receiver {
        return Err(FailureKind::Misuse);
    }
    if channel.is_empty() {
        channel.has_receiver = false;
        return Ok(Entry::Answered(Reply::Messages(none)));
    }
    scene.pend(Task::Drain(number, none), false);
    Ok(Entry::AtBranch)
}

/// The message goes behind the others and keeps the point that the active thread has released to; who waits for the first one is
/// woken. Without a receiver it comes back.
pub fn send<D: Drop>(
    scene: &mut Scene<D>,
    number: usize,
    sent: LinkedList<Message<D>>,
) -> Result<Reply<D>, FailureKind>
    ensures { Does (rules.sends number sent) scene.old result scene.new }
{
    let channel = scene.channel_mut(number)?;
    if channel.senders == 0 {
        return Err(FailureKind::Misuse);
    }
    let stamp = first_stamp(&sent)?;
    if !channel.has_receiver {
        return give_back(sent);
    }
    let was_empty = channel.is_empty();
    channel.put(sent)?;
    scene.release(number);
    scene.stamp(number, stamp);
    if was_empty {
        scene.wake_pending(number);
    }
    Ok(Reply::Done)
}

/// The stamp of the message that is sent.
fn first_stamp<D>(sent: &LinkedList<Message<D>>) -> Result<usize, FailureKind>
    ensures { result ≡ stages.first_stamp sent.now }
{
    match sent.front() {
        Some(message) => Ok(message.stamp),
        None => Err(FailureKind::Misuse),
    }
}

/// The message that isn't sent.
fn give_back<D: Drop>(mut sent: LinkedList<Message<D>>) -> Result<Reply<D>, FailureKind>
    ensures { result ≡ stages.gives_back sent }
{
    let message = sent.pop_front().ok_or(FailureKind::Misuse)?;
    Ok(Reply::SendError(content(message)?))
}

/// What a message holds.
fn content<D: Drop>(mut message: Message<D>) -> Result<D, FailureKind>
    ensures { result ≡ stages.content message }
{
    message.value.pop_front().ok_or(FailureKind::Misuse)
}

/// What a receive says where there is no message, and no sender.
fn none_left<D>(receiving: Receiving) -> Reply<D>
    ensures { result ≡ rules.none_left receiving }
{
    match receiving {
        Receiving::Recv => Reply::RecvError,
        Receiving::TryRecv => Reply::Disconnected,
    }
}

/// The active thread has the first message, or the answer that none comes.
pub fn receive<D: Drop>(
    scene: &mut Scene<D>,
    receiving: Receiving,
    number: usize,
) -> Result<Reply<D>, FailureKind>
    ensures { Does (rules.receives receiving number) scene.old result scene.new }
{
    match take_first(scene, number)? {
        None => Ok(none_left(receiving)),
        Some(message) => {
            let value = content(message)?;
            Ok(Reply::Data(value))
        }
    }
}

/// The active thread, which drops the receiver, takes one message more out. With the last one the receiver is gone; else the
/// thread reaches another branch point.
pub fn drain<D: Drop>(
    scene: &mut Scene<D>,
    number: usize,
    taken: LinkedList<D>,
) -> Result<Passed<D>, FailureKind>
    ensures { Does (rules.drains number taken) scene.old result scene.new }
{
    let message = take_first(scene, number)?;
    let taken = gather(taken, message)?;
    go_on(scene, number, taken)
}

/// Without another message the receiver is gone; else the thread reaches another branch point.
fn go_on<D: Drop>(
    scene: &mut Scene<D>,
    number: usize,
    taken: LinkedList<D>,
) -> Result<Passed<D>, FailureKind>
    ensures { Does (stages.goes_on number taken) scene.old result scene.new }
{
    let channel = scene.channel_mut(number)?;
    if !channel.has_receiver {
        return Err(FailureKind::Misuse);
    }
    if channel.is_empty() {
        channel.has_receiver = false;
        let active = scene.active();
        return Ok(Passed::Turn(Turn::Reply(active, Reply::Messages(taken))));
    }
    scene.pend(Task::Drain(number, taken), false);
    Ok(Passed::AtBranch)
}

impl<D: Data + Same> Kept for Channel<D> {
    fn copied(&self, alloc: Global) -> Result<Channel<D>, AllocError> {
        Ok(Channel {
            senders: self.senders,
            has_receiver: self.has_receiver,
            messages: copied_messages(alloc, &self.messages)?,
        })
    }

    fn is_equal(&self, other: &Channel<D>) -> bool {
        self.senders == other.senders
            && self.has_receiver == other.has_receiver
            && are_messages_equal(&self.messages, &other.messages)
    }
}
