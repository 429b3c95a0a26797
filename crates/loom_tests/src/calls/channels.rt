//! Channels.
use crate::calls::run::{Kind, Row, make};
use loom::Op;
use loom::sync::mpsc::{Receiver, Sender, channel};
use std::process::Abort;

const SENDER: Sender = Sender { number: 0 };

const RECEIVER: Receiver = Receiver { number: 0 };

/// The calls of these tables, by their numbers there.
pub fn call(number: usize) -> Op<u64, ()> {
    match number {
        0 => channel(),
        1 => SENDER.clone(),
        2 => RECEIVER.try_recv(),
        3 => SENDER.send(1),
        4 => SENDER.send(2),
        5 => SENDER.send(3),
        6 => RECEIVER.recv(),
        7 => SENDER.drop(),
        8 => RECEIVER.drop(),
        _ => SENDER.send(4),
    }
}

// Main asks an empty channel, sends three numbers by two senders, receives two of them by each call, drops one sender and the
// receiver, sends in vain, drops the other sender, and finds that there is none.
static SEND_AND_RECEIVE: [Row; 13] = [
    (
        0,
        "channel",
        "Reply(0, Channel(0)); Sender { number: 0 }; Receiver { number: 0 }",
    ),
    (1, "SENDER.clone", "Reply(0, Done)"),
    (2, "RECEIVER.try_recv", "Reply(0, Empty)"),
    (3, "SENDER.send", "Reply(0, Done)"),
    (4, "SENDER.send", "Reply(0, Done)"),
    (5, "SENDER.send", "Reply(0, Done)"),
    (6, "RECEIVER.recv", "Reply(0, Data(1))"),
    (2, "RECEIVER.try_recv", "Reply(0, Data(2))"),
    (7, "SENDER.drop", "Reply(0, Done)"),
    (8, "RECEIVER.drop", "Reply(0, Messages([3]))"),
    (9, "SENDER.send", "Reply(0, SendError(4))"),
    (7, "SENDER.drop", "Reply(0, Done)"),
    (1, "SENDER.clone", "Misuse"),
];

// Main drops the sender, receives in vain by each call, drops the receiver, and finds that it is no more.
static RECEIVE_IN_VAIN: [Row; 6] = [
    (
        0,
        "channel",
        "Reply(0, Channel(0)); Sender { number: 0 }; Receiver { number: 0 }",
    ),
    (7, "SENDER.drop", "Reply(0, Done)"),
    (6, "RECEIVER.recv", "Reply(0, RecvError)"),
    (2, "RECEIVER.try_recv", "Reply(0, Empty)"),
    (8, "RECEIVER.drop", "Reply(0, Messages([]))"),
    (6, "RECEIVER.recv", "Misuse"),
];

/// Makes these calls.
pub fn make_all(rt: &(impl Abort + AllocGlobal)) {
    make::<u64, _>(rt, Kind::Channels, &SEND_AND_RECEIVE);
    make::<u64, _>(rt, Kind::Channels, &RECEIVE_IN_VAIN);
}
