//! Answers a stream of plans: reads it from standard input, runs it on a new book, and prints the lines.

#![tactic(auto)]

use cabinet::plan_answers;
use std::io::{Read, Write};

// The program `levels` differs in the call alone: what could serve both would only read and print, and promise nothing.
fn main(rt: HostRuntime) -> anyhow::Result<()> {
    let mut bytes = Vec::new(rt.alloc());
    rt.stdin().read_to_end(&mut bytes)?;
    let text = plan_answers(rt.alloc(), bytes.as_slice())?;
    rt.stdout().write_all(text.as_slice())?;
    Ok(())
}
