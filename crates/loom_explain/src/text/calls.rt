//! Operations as written in code.
use crate::text::forms::{Call, On, argument_of, call_of};
use crate::text::names::order_name;
use crate::text::page::Page;
use crate::text::world::World;
use loom_objects::operation::{AtomicOp, CellOp, Request, ThreadOp};
use loom_views::rt::num::Numbers;
use loom_views::rt::num::change::Change;
use std::sync::atomic::Ordering;

impl Page {
    /// A call as it is written in code: `#0.store(1, Relaxed)`.
    pub(crate) fn call(&mut self, words: &str, request: &Request<(), ()>, world: &World) {
        self.words(words);
        self.call_with(request, world, None);
    }

    /// A call with the data that it hands over, if they are shown: `#0.send(5)`.
    pub(crate) fn call_with(
        &mut self,
        request: &Request<(), ()>,
        world: &World,
        data: Option<&str>,
    ) {
        let Call { number, form } = call_of(request, world);
        match form.on {
            On::Nothing | On::Thread => {}
            On::Object => self.number("#", number),
            On::Local => self.number("local ", number),
            On::Lazy => self.number("lazy ", number),
        }
        match data {
            Some(_) => self.words(form.words.strip_suffix("()").unwrap_or(form.words)),
            None => self.words(form.words),
        }
        if let On::Thread = form.on {
            self.number(" ", number);
        }
        self.arguments(request, world, data);
    }

    /// The arguments of a call, in parentheses, and the name of a thread that it makes.
    fn arguments(&mut self, request: &Request<(), ()>, world: &World, data: Option<&str>) {
        if let Request::Atomic(op) = request {
            self.values(*op, world.numbers_of(*op));
        } else if let Request::Fence(order) = request {
            self.order("(", *order);
        } else if let Request::Thread(ThreadOp::Spawn(_, Some(name))) = request {
            self.named(" \"", name.text, "\"");
        } else if let Some(number) = argument_of(request) {
            self.number("(#", number);
            if let Some(data) = data {
                self.data(", ", data);
            }
            self.words(")");
        } else if let Request::Cell(CellOp::WriteEnd(..)) = request {
            self.written(data);
        } else if let Some(data) = data {
            self.data("(", data);
            self.words(")");
        }
    }

    /// What a cell holds after a write.
    fn written(&mut self, data: Option<&str>) {
        if let Some(data) = data {
            self.data(" with ", data);
        }
    }

    /// An ordering, which is the last argument.
    fn order(&mut self, words: &str, order: Ordering) {
        self.words(words);
        self.words(order_name(order));
        self.words(")");
    }

    /// The arguments of an operation of an atomic that holds these numbers.
    fn values(&mut self, op: AtomicOp, numbers: Numbers) {
        match op {
            AtomicOp::New(numbers, bits) => {
                self.value("(", numbers, bits);
                self.words(")");
            }
            AtomicOp::WithMutEnd(_, bits) => {
                self.value("(", numbers, bits);
                self.words(")");
            }
            AtomicOp::Load(_, order) => self.order("(", order),
            AtomicOp::Store(_, bits, order) => {
                self.value("(", numbers, bits);
                self.order(", ", order);
            }
            AtomicOp::Update(_, change, order) => {
                let bits = operand(change);
                self.value("(", numbers, bits);
                self.order(", ", order);
            }
            AtomicOp::CompareExchange(_, exchange) => {
                self.exchange(numbers, exchange.expected, exchange.new);
            }
            AtomicOp::CompareAndSwap(_, expected, new, _) => {
                self.exchange(numbers, expected, new);
            }
            AtomicOp::UnsyncLoad(_) | AtomicOp::IntoInner(_) | AtomicOp::WithMut(_) => {}
        }
    }

    /// The value that is expected, and the new one.
    fn exchange(&mut self, numbers: Numbers, expected: u64, new: u64) {
        self.value("(", numbers, expected);
        self.value(", ", numbers, new);
        self.words(")");
    }
}

/// The number of a read-modify-write.
fn operand(change: Change) -> u64 {
    match change {
        Change::Swap(bits)
        | Change::Add(bits)
        | Change::Sub(bits)
        | Change::And(bits)
        | Change::Nand(bits)
        | Change::Or(bits)
        | Change::Xor(bits)
        | Change::Max(bits)
        | Change::Min(bits) => bits,
    }
}
