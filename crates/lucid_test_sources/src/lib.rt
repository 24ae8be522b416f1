//! Tests alone, of sources as text: their tokens, the trees that they spell, what their names belong to, and what is judged of their cycles.
#![tactic(auto)]

#[cfg(test)]
mod cycles;
#[cfg(test)]
mod names;
#[cfg(test)]
mod parsed;
#[cfg(test)]
mod scan;
#[cfg(test)]
mod scope;
#[cfg(test)]
mod told;
#[cfg(test)]
mod tree;
#[cfg(test)]
mod trees;
