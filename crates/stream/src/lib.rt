//! Runs of command streams: what each command is answered, and the lines that say so.

#![tactic(auto)]

mod answers;
mod endings;
mod laws;
mod lines;
mod numerals;
mod output;
mod rooms;
mod runner;

pub use answers::Answer;
pub use endings::{Ended, Stop};
pub use laws::{lines_tell_apart, whole_streams_are_their_commands};
pub use rooms::lines_room;
pub use runner::run;
