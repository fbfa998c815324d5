//! Shows a book at work: a long job reads six settings, short jobs read, write and finish around it until places run
//! short and finished jobs are forgotten, and then the long job writes. The first time it is cut off, since a job that
//! must come after it wrote what it writes; the second time nothing stands in its way.

#![tactic(auto)]

mod steps;

use book::Book;
use policies::{Clear, Pile, Thorough};
use std::io;
use steps::Stage;
use table::JobNumber;
use values::Level;

// How many settings there are, and how many jobs may be active at once.
const SETTINGS: usize = 8;

const LIMIT: usize = 3;

// A job begins and reads the first six settings.
fn long_job(rt: HostRuntime, stage: &mut Stage) -> io::Result<Option<JobNumber>> {
    let Some(job) = stage.begin(rt)? else {
        return Ok(None);
    };
    for setting in 0..6 {
        stage.read(rt, job, setting)?;
    }
    Ok(Some(job))
}

fn main(rt: HostRuntime) -> io::Result<()> {
    // `let .. else` here and below, and no `?`: where a step has no value the program ends, and that is no `io::Error`.
    let Some(full) = Level::new(1000) else {
        return Ok(());
    };
    let Ok(book) = Book::open::<Level>(SETTINGS, LIMIT) else {
        return Ok(());
    };
    let policy = Pile {
        first: Clear,
        second: Thorough,
    };
    let mut stage = Stage {
        book,
        row: [full; SETTINGS],
        policy,
    };
    let Some(first) = long_job(rt, &mut stage)? else {
        return Ok(());
    };
    for turn in 0..70u8 {
        stage.short_job(rt, turn % 8, (turn % 8 + 1) % 8)?;
    }
    stage.write(rt, first, 7, 300)?;
    let Some(second) = long_job(rt, &mut stage)? else {
        return Ok(());
    };
    for _ in 0..5 {
        stage.short_job(rt, 6, 7)?;
    }
    stage.write(rt, second, 3, 300)?;
    let held = stage.held();
    println!(rt; "{held} jobs are held")
}
