//! Policies: which finished job to forget next.

#![tactic(auto)]

mod overwritten;
mod piles;
mod plain;
mod spaced;

pub use piles::Pile;
pub use plain::{Clear, Never, Stale, Thorough};
pub use spaced::Spaced;
