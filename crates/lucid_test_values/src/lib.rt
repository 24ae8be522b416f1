//! Tests alone, of values and operators, and of what holds values and waits for them: contexts, stores, policies, positions, picks, tasks.
#![tactic(auto)]

#[cfg(test)]
mod ops;
#[cfg(test)]
mod retire;
#[cfg(test)]
mod schedule;
#[cfg(test)]
mod search;
#[cfg(test)]
mod store;
#[cfg(test)]
mod tags;
#[cfg(test)]
mod tasks;
#[cfg(test)]
mod told;
#[cfg(test)]
mod value;
