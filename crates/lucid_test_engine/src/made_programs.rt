//! Programs made at random, by which the engine is compared with the evaluator by plain recursion.

mod made;
mod maker;
mod plainly;
