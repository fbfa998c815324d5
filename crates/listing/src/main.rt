//! Prints the commands of a stream of levels, a line for each, and what is wrong with the stream if anything is.

#![tactic(auto)]

mod lines;
mod streams;

use std::io;
use std::io::{Read, Write};
use streams::listed;

fn main(rt: HostRuntime) -> io::Result<()> {
    let mut bytes = Vec::new(rt.alloc());
    rt.stdin().read_to_end(&mut bytes)?;
    let text = listed(rt.alloc(), bytes.as_slice())?;
    rt.stdout().write_all(text.as_bytes())
}
