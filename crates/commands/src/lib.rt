//! The stored form of commands: a letter with operands of fixed width, and behind a write the entries of its order.

#![tactic(auto)]

mod forms;
mod laws;
mod readers;
#[cfg(test)]
mod tests;
mod writers;

pub use forms::{Command, Order};
pub use laws::{commands_read_back, commands_write_back, streams_read_back, streams_write_back};
pub use readers::Reader;
