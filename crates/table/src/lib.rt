//! Jobs at places: the arrays inside a book, changed where they stand.

#![tactic(auto)]

mod jobs;
mod settings;
mod slot_test;
mod tables;

pub use jobs::{Job, JobNumber};
pub use settings::{Setting, SettingSet, Settings};
pub use slot_test::SlotTest;
pub use tables::Table;

#[cfg(test)]
mod tests;
