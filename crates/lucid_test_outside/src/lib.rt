//! Tests alone, of what is read and written, inputs, words and made programs: what no clause says.
#![tactic(auto)]

#[cfg(test)]
mod inputs;
#[cfg(test)]
mod make;
#[cfg(test)]
mod ports;
#[cfg(test)]
mod real_places;
#[cfg(test)]
mod scripted;
#[cfg(test)]
mod told;
#[cfg(test)]
mod words;
