//! The book at its edges. Tests stand in a crate of their own, so that the book is not proved twice for them.

#![tactic(auto)]

#[cfg(test)]
mod tests;
