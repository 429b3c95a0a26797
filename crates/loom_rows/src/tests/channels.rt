//! Channels: what their rows find.
use super::finding::{Case, Shows};
use loom_examples::rows::{DEFAULTS, WHOLE};

/// The rows of these.
pub static CASES: [Case; 10] = [
    case!("send_then_recv", WHOLE, 1, "complete 1; t0 t0 t- = 5"),
    case!("recv_after_drop", WHOLE, 1, "complete 1; t0 t- = 7"),
    case!("try_recv_empty", WHOLE, 1, "complete 1; t- = 7"),
    case!("drop_receiver", WHOLE, 1, "complete 1; t0 t0 t0 t0 t- = 7"),
    case!("send_late", WHOLE, 1, "complete 1; t0 t- = 7"),
    // Both messages are received.
    results!("commutative_senders", WHOLE, "complete; 56; 65"),
    // The bytes of a 1 and of the name.
    results!("name_sent", WHOLE, "complete; 394103772832114"),
    // One message is received once.
    results!("one message for two", WHOLE, "complete; 1; 3"),
    case!("message_left", DEFAULTS, 0, "failed 7 0 t0 t-"),
    case!(
        "non_commutative_senders1",
        DEFAULTS,
        0,
        "failed 1 1 t1 t2 t2 t2 t0"
    ),
];
