//! The machine below a path: operations, replies and bodies (`operation`, `body`), the scene of threads and objects on which
//! operations work (`rt::scene`), and what each operation does to it. The rules are in `specs/Rules`, a file for each kind of
//! object, and the functions that keep them in `rt`, a module for each kind. `rt::dependence` has the order of accesses, and
//! `rt::machine` chooses among the functions by what is handed over.
#![tactic(auto)]

pub mod body;
pub mod choice;
pub mod data;
pub mod failure;
pub mod label;
pub mod laws;
pub mod location;
pub mod operation;
pub mod rt;
pub mod text;
