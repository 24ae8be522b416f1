//! What is said of refused sources and of the command's reports. Each text is written out by hand.

mod call;
mod errors;
mod hints;
mod hostile;
mod reports;
mod sources;
