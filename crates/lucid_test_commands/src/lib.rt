//! Tests alone, of the command and of what is said of its reports: worked rows over files and sinks in memory. Each is worked out by hand from the
//! rules of the language, of the command's words and of its explanations.
#![tactic(auto)]

#[cfg(test)]
mod commands;
#[cfg(test)]
mod explanations;
#[cfg(test)]
mod told;
