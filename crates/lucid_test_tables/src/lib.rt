//! Tests alone, of what sources mean: by the plain evaluator, and by tables beside it; of where rows of tables come from, and of texts of tables
//! and certificates.
#![tactic(auto)]

#[cfg(test)]
mod flat_texts;
#[cfg(test)]
mod origins;
#[cfg(test)]
mod runs;
#[cfg(test)]
mod table_value;
#[cfg(test)]
mod tables;
#[cfg(test)]
mod told;
#[cfg(test)]
mod values;
