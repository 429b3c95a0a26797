//! Bodies with a name: scripts, the tables of rows that the program, the tests and the documents use, litmus tests, and the bodies and
//! closures of the guide.
#![tactic(auto)]

// The label of an operation that makes an object of this name.
macro_rules! named {
    ($name:literal) => {
        loom::Label {
            name: Some(loom::text_literal!($name)),
            location: None,
        }
    };
}

pub mod bodies;
pub mod closures;
pub mod litmus;
pub mod measured;
pub mod rows;
pub mod scripts;

pub(crate) use named;
