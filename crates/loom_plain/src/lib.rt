//! A slow model checker that makes the runs of a body by the rules themselves: threads and objects in lists, views as a graph of
//! points, all stores of an atomic, dependence as a second graph. It has no path and no vectors. `loom_rows` compares the runs that
//! a check finds with those that this one finds. It uses the operations of `loom_objects`, the kinds of failure and the limits of
//! `loom_views`, and nothing of the code that it is compared with.
#![tactic(auto)]

pub mod atomics;
pub mod cells;
pub mod channels;
pub mod choices;
pub mod condvars;
pub mod counts;
pub mod dependence;
pub mod graph;
pub mod halt;
pub mod kinds;
pub mod locks;
pub mod machine;
pub mod marks;
pub mod memory;
pub mod notifiers;
pub mod numbers;
pub mod objects;
pub mod run;
pub mod search;
pub mod state;
pub mod stores;
pub mod threads;
pub mod values;
pub mod wakers;
