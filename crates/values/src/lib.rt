//! Kinds of value: how a value is read from bytes and written into a lent slice, and the two kinds that are delivered.

#![tactic(auto)]

mod kinds;
mod levels;
mod output;
mod plans;
#[cfg(test)]
mod tests;
mod words;

pub use kinds::{Kind, kinds_are_lawful};
pub use levels::Level;
pub use output::put;
pub use plans::Plan;
pub use words::word_from;
