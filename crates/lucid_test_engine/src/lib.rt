//! Tests alone, of the engine: programs over files in memory, demands on their engines under each policy and each pick, programs made at
//! random, and runs.
#![tactic(auto)]

#[cfg(test)]
mod demands;
#[cfg(test)]
mod made_programs;
#[cfg(test)]
mod sessions;
#[cfg(test)]
mod told;
#[cfg(test)]
mod trials;
