//! Scripts as bytes, by which a search that remembers states compares them at once. Steps of the kinds that are frequent in what it
//! covers have a code; a script with others is compared step by step.
ghost use Rattle.std.specs.Prelude.{◌≡◌, IfOk, IfSome, Some, map};
ghost use Rattle.loom_examples.specs.Scripts.Code.{Begins, Tell, order_of, step_of};
ghost use Rattle.loom_examples.specs.Scripts.Written.{Do, written};

use crate::scripts::step::{Step, Value};
use loom_objects::operation::{AtomicOp, Request, ThreadOp};
use loom_views::rt::num::Numbers;
use std::alloc::{AllocError, Global};
use std::sync::atomic::Ordering;

// The kinds of steps that have a code.
const NEW: u8 = 1;

const LOAD: u8 = 2;

const STORE: u8 = 3;

const JOIN: u8 = 4;

const FINISH: u8 = 5;

const EXIT: u8 = 6;

const END: u8 = 7;

const LABEL: u8 = 8;

const JUMP_TO: u8 = 9;

const IF_TO: u8 = 10;

const UNLESS_TO: u8 = 11;

const SPAWN_AT: u8 = 12;

/// The bytes of a step: its kind, where it keeps its reply, three numbers and how long its text is, and then its text.
#[derive(Clone, Copy)]
struct Code {
    head: [u8; 6],
    text: &'static str,
}

/// The bytes of these steps. None where one of them has no code.
pub(crate) fn bytes_of(alloc: Global, steps: &'static [Step]) -> Result<Option<Vec<u8>>, AllocError>
    ensures { IfOk result (λ found. IfSome found (λ bytes. Tell bytes.items (map written steps.entry.now))) }
{
    let mut bytes = Vec::new(alloc);
    let mut rest = steps;
    while let Some((step, others)) = rest.split_first() {
        let Some(code) = code_of(step) else {
            return Ok(None);
        };
        bytes.extend_from_slice(&code.head)?;
        bytes.extend_from_slice(code.text.as_bytes())?;
        rest = others;
    }
    Ok(Some(bytes))
}

/// The code of the step, if it has one.
fn code_of(step: &Step) -> Option<Code>
    ensures { IfSome result (λ code. Begins code.head code.text.now (Some (written step.now))) }
{
    match step {
        Step::Do(keep, request) => request_code(*keep, request),
        Step::Label(name) => small_code(LABEL, 0, 0, 0, 0, name),
        Step::JumpTo(name) => small_code(JUMP_TO, 0, 0, 0, 0, name),
        Step::IfTo(register, number, name) => small_code(IF_TO, *register, *number, 0, 0, name),
        Step::UnlessTo(register, number, name) => small_code(
            UNLESS_TO, *register, *number, 0, 0, name,
        ),
        Step::SpawnAt(slot, name) => small_code(SPAWN_AT, *slot, 0, 0, 0, name),
        Step::Labelled(..) | Step::Store(..) => None,
    }
}

/// The code of a step that makes this operation and keeps its reply here, if it has one.
fn request_code(keep: usize, request: &Request<Value, usize>) -> Option<Code>
    ensures { IfSome result (λ code. Begins code.head code.text.now (Some (Do keep request.now))) }
{
    match request {
        Request::Atomic(AtomicOp::New(Numbers::U64, value)) => small_code(
            NEW, keep, *value, 0, 0, "",
        ),
        Request::Atomic(AtomicOp::Load(atomic, order)) => small_code(
            LOAD,
            keep,
            *atomic as u64,
            order_number(*order),
            0,
            "",
        ),
        Request::Atomic(AtomicOp::Store(atomic, value, order)) => small_code(
            STORE,
            keep,
            *atomic as u64,
            order_number(*order),
            *value,
            "",
        ),
        Request::Thread(ThreadOp::Join(thread, notifier)) => small_code(
            JOIN,
            keep,
            u64::from(*thread),
            *notifier as u64,
            0,
            "",
        ),
        Request::Thread(ThreadOp::Finish(Value::Plain(value))) => small_code(
            FINISH, keep, *value, 0, 0, "",
        ),
        Request::Thread(ThreadOp::Exit) => small_code(EXIT, keep, 0, 0, 0, ""),
        Request::Thread(ThreadOp::End) => small_code(END, keep, 0, 0, 0, ""),
        _ => None,
    }
}

/// The code of a step of this kind with these numbers and this text, if all of them are small.
fn small_code(kind: u8, keep: usize, a: u64, b: u64, c: u64, text: &'static str) -> Option<Code>
    ensures { IfSome result (λ code. Begins code.head code.text.now (step_of kind keep a b c text.entry.now)) }
{
    let keep = u8::try_from(keep).ok()?;
    let a = u8::try_from(a).ok()?;
    let b = u8::try_from(b).ok()?;
    let c = u8::try_from(c).ok()?;
    let size = u8::try_from(text.len()).ok()?;
    Some(Code {
        head: [kind, keep, a, b, c, size],
        text,
    })
}

/// The number of an order.
fn order_number(order: Ordering) -> u64
    ensures { order_of result ≡ order }
{
    match order {
        Ordering::Relaxed => 0,
        Ordering::Release => 1,
        Ordering::Acquire => 2,
        Ordering::AcqRel => 3,
        Ordering::SeqCst => 4,
    }
}
