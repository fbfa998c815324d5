//! Answers the stored collection of streams, kind by kind and stream by stream. The gate holds what is printed to what a
//! second program answered.

#![tactic(auto)]

mod parts;

use cabinet::{Unanswered, level_answers, plan_answers};
use parts::Parts;
use std::alloc::Global;
use std::fs;
use std::io::Write;

/// Prints the name of a kind, and for each stream of its collection a line with the stream's number and the answer lines.
fn answer_all<A: Fn(Global, &[u8]) -> Result<Vec<u8>, Unanswered>>(
    rt: &HostRuntime,
    kind: &str,
    file: &str,
    answers: A,
) -> anyhow::Result<()>
    requires { A.IsAlwaysCallable answers }
{
    println!(rt; "{kind}")?;
    let collection = fs::read(rt, file)?;
    for (number, stream) in (1usize..).zip(Parts(collection.as_slice())) {
        println!(rt; "stream {number}")?;
        rt.stdout()
            .write_all(answers(rt.alloc(), stream)?.as_slice())?;
    }
    Ok(())
}

fn main(rt: HostRuntime) -> anyhow::Result<()> {
    answer_all(
        &rt,
        "levels",
        "levels.streams",
        |heap, stream| level_answers(heap, stream),
    )?;
    answer_all(
        &rt,
        "plans",
        "plans.streams",
        |heap, stream| plan_answers(heap, stream),
    )
}
