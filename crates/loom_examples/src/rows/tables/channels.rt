//! The scripts of the rows about channels.
ghost use Rattle.std.specs.Prelude.{◌≡◌, map};
ghost use Rattle.loom_examples.specs.Rows.Meanings.{named};
ghost use Rattle.loom_examples.specs.Rows.Table.{end_rows, message_rows};

use crate::row;
use crate::rows::Row;
use crate::scripts::step::{END, EXIT, FAIL, Step, Value};
use loom_objects::operation::{ChannelOp, Name, Request, ThreadOp};
use loom_objects::text_literal;

const FINISH: Step = Step::Do(0, Request::Thread(ThreadOp::Finish(Value::Plain(7))));

const FOOBAR: Option<Name> = Some(Name {
    text: text_literal!(b"foobar"),
});

/// Main sends 5, receives it, drops both ends, and finishes with what it received.
pub const SEND_THEN_RECV: &[Step] = &[
    Step::Do(0, Request::Channel(ChannelOp::New)),
    Step::Do(0, Request::Channel(ChannelOp::Send(0, Value::Plain(5)))),
    Step::Do(0, Request::Channel(ChannelOp::Recv(0))),
    Step::Do(1, Request::Channel(ChannelOp::DropSender(0))),
    Step::Do(1, Request::Channel(ChannelOp::DropReceiver(0))),
    Step::Do(0, Request::Thread(ThreadOp::Finish(Value::Held(0)))),
    EXIT,
    END,
];

/// Main drops the only sender, and asserts that nothing can be received then.
pub const RECV_AFTER_DROP: &[Step] = &[
    Step::Do(0, Request::Channel(ChannelOp::New)),
    Step::Do(0, Request::Channel(ChannelOp::DropSender(0))),
    Step::Do(0, Request::Channel(ChannelOp::Recv(0))),
    Step::UnlessTo(3, 2, "wrong"),
    Step::Do(1, Request::Channel(ChannelOp::DropReceiver(0))),
    FINISH,
    EXIT,
    END,
    Step::Label("wrong"),
    FAIL,
];

/// Two threads each send a number, 5 and 6. Main receives twice, and finishes with ten times the first number and the second
/// (loom's `tests/mpsc.rs`).
pub const COMMUTATIVE_SENDERS: &[Step] = &[
    Step::Do(0, Request::Channel(ChannelOp::New)),
    Step::Do(0, Request::Channel(ChannelOp::CloneSender(0))),
    Step::SpawnAt(1, "first"),
    Step::SpawnAt(2, "second"),
    Step::Do(0, Request::Channel(ChannelOp::Recv(0))),
    Step::Do(1, Request::Channel(ChannelOp::Recv(0))),
    Step::Do(2, Request::Channel(ChannelOp::DropReceiver(0))),
    Step::Do(0, Request::Thread(ThreadOp::Finish(Value::Both(0, 1)))),
    EXIT,
    END,
    Step::Label("first"),
    Step::Do(0, Request::Channel(ChannelOp::Send(0, Value::Plain(5)))),
    Step::Label("again"),
    Step::Do(0, Request::Channel(ChannelOp::DropSender(0))),
    FINISH,
    EXIT,
    END,
    Step::Label("second"),
    Step::Do(0, Request::Channel(ChannelOp::Send(0, Value::Plain(6)))),
    Step::JumpTo("again"),
];

/// The one before, but main asserts that the first number is 5 (loom's `tests/mpsc.rs`).
pub const NON_COMMUTATIVE_SENDERS1: &[Step] = &[
    Step::Do(0, Request::Channel(ChannelOp::New)),
    Step::Do(0, Request::Channel(ChannelOp::CloneSender(0))),
    Step::SpawnAt(1, "first"),
    Step::SpawnAt(2, "second"),
    Step::Do(0, Request::Channel(ChannelOp::Recv(0))),
    Step::UnlessTo(0, 5, "wrong"),
    Step::Do(1, Request::Channel(ChannelOp::Recv(0))),
    Step::Do(2, Request::Channel(ChannelOp::DropReceiver(0))),
    FINISH,
    EXIT,
    END,
    Step::Label("wrong"),
    FAIL,
    Step::Label("first"),
    Step::Do(0, Request::Channel(ChannelOp::Send(0, Value::Plain(5)))),
    Step::Label("again"),
    Step::Do(0, Request::Channel(ChannelOp::DropSender(0))),
    FINISH,
    EXIT,
    END,
    Step::Label("second"),
    Step::Do(0, Request::Channel(ChannelOp::Send(0, Value::Plain(6)))),
    Step::JumpTo("again"),
];

/// Main asserts that a new channel is empty, and drops both ends.
pub const TRY_RECV_EMPTY: &[Step] = &[
    Step::Do(0, Request::Channel(ChannelOp::New)),
    Step::Do(0, Request::Channel(ChannelOp::TryRecv(0))),
    Step::UnlessTo(3, 1, "wrong"),
    Step::Do(0, Request::Channel(ChannelOp::DropSender(0))),
    Step::Do(0, Request::Channel(ChannelOp::DropReceiver(0))),
    FINISH,
    EXIT,
    END,
    Step::Label("wrong"),
    FAIL,
];

/// Main sends 1 and 2, asserts that it receives the 1, and that the receiver has the 2 alone when it is dropped (loom's
/// `tests/mpsc.rs`).
pub const DROP_RECEIVER: &[Step] = &[
    Step::Do(0, Request::Channel(ChannelOp::New)),
    Step::Do(0, Request::Channel(ChannelOp::Send(0, Value::Plain(1)))),
    Step::Do(0, Request::Channel(ChannelOp::Send(0, Value::Plain(2)))),
    Step::Do(0, Request::Channel(ChannelOp::Recv(0))),
    Step::UnlessTo(0, 1, "wrong"),
    Step::Do(1, Request::Channel(ChannelOp::DropReceiver(0))),
    Step::UnlessTo(1, 12, "wrong"),
    Step::Do(0, Request::Channel(ChannelOp::DropSender(0))),
    FINISH,
    EXIT,
    END,
    Step::Label("wrong"),
    FAIL,
];

/// Main sends a number, and ends.
pub const MESSAGE_LEFT: &[Step] = &[
    Step::Do(0, Request::Channel(ChannelOp::New)),
    Step::Do(0, Request::Channel(ChannelOp::Send(0, Value::Plain(5)))),
    FINISH,
    EXIT,
    END,
];

/// Main drops the receiver, and asserts that the 5 that it sends then comes back.
pub const SEND_LATE: &[Step] = &[
    Step::Do(0, Request::Channel(ChannelOp::New)),
    Step::Do(0, Request::Channel(ChannelOp::DropReceiver(0))),
    Step::Do(0, Request::Channel(ChannelOp::Send(0, Value::Plain(5)))),
    Step::UnlessTo(3, 5, "wrong"),
    Step::Do(0, Request::Channel(ChannelOp::DropSender(0))),
    FINISH,
    EXIT,
    END,
    Step::Label("wrong"),
    FAIL,
];

/// Main spawns a thread with a name, which sends the name, and finishes with what it receives (loom's `tests/thread_api.rs`).
pub const NAME_SENT: &[Step] = &[
    Step::Do(0, Request::Channel(ChannelOp::New)),
    Step::Do(1, Request::Thread(ThreadOp::Spawn(8, FOOBAR))),
    Step::Do(0, Request::Channel(ChannelOp::Recv(0))),
    Step::Do(1, Request::Thread(ThreadOp::Join(1, 1))),
    Step::Do(1, Request::Channel(ChannelOp::DropReceiver(0))),
    Step::Do(0, Request::Thread(ThreadOp::Finish(Value::Held(0)))),
    EXIT,
    END,
    Step::Do(2, Request::Thread(ThreadOp::Current)),
    Step::Do(0, Request::Channel(ChannelOp::Send(0, Value::Held(2)))),
    Step::Do(0, Request::Channel(ChannelOp::DropSender(0))),
    FINISH,
    EXIT,
    END,
];

static MESSAGES: [Row; 4] = [
    row!("send_then_recv", SEND_THEN_RECV),
    row!("recv_after_drop", RECV_AFTER_DROP),
    row!("commutative_senders", COMMUTATIVE_SENDERS),
    row!("non_commutative_senders1", NON_COMMUTATIVE_SENDERS1),
];

/// The rows of messages that are sent.
pub fn messages() -> &'static [Row]
    ensures { map named result.now ≡ message_rows }
{
    &MESSAGES
}

static ENDS: [Row; 5] = [
    row!("try_recv_empty", TRY_RECV_EMPTY),
    row!("drop_receiver", DROP_RECEIVER),
    row!("message_left", MESSAGE_LEFT),
    row!("send_late", SEND_LATE),
    row!("name_sent", NAME_SENT),
];

/// The rows of channels with nothing to receive or nobody who does, and of a name that is sent.
pub fn ends() -> &'static [Row]
    ensures { map named result.now ≡ end_rows }
{
    &ENDS
}
