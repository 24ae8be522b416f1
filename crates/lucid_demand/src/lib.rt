//! The engine: it demands the value of a program at one point, and so, backwards, only what that value needs.
//!
//! Each demand waits in a row of its own until the demands that it makes are answered, so the machine's stack isn't used. Values that
//! were computed are held in a store that may lose any of them at any turn.
//!
//! So `x where x = 0 fby x + 1; end` is demanded at time 2, where nothing is held. `x@2` stands for the daton of `x` at time 2:
//!
//! | turn | the row | what it does | rows afterwards | held |
//! |---|---|---|---|---|
//! | begin | | the root is `x@2`, which isn't held; its body at 2 moves on to `x + 1` at 1, which waits. Its `x@1` isn't held, and the body of that moves on to `x + 1` at 0 | 0: `x + 1` at 1, for `x@2`; 1: `x + 1` at 0, for `x@1` | |
//! | 1 | 1 | asks for its arguments: `x@0` isn't held, its body moves on to `0`; `1` is a constant | and 2: `0`, for `x@0` | |
//! | 2 | 2 | settles with the constant, which row 1 has as its first argument | 0, 1 | `x@0` = 0 |
//! | 3 | 1 | settles with 0 + 1 | 0 | `x@1` = 1 too |
//! | 4 | 0 | settles with 1 + 1, the answer | none | `x@2` = 2 too |
//!
//! Had `x@1` been held, `x + 1` at 1 would have been applied when it was asked for: 2 is the answer, and no row waits.
#![tactic(auto)]

pub use crate::engine::Engine;
pub use lucid_demand_steps::DemandFault;

mod arguments;
mod engine;
mod names;
mod operators;
mod references;
mod searches;
mod settling;
mod turn;
