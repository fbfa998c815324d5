ghost use Rattle.book.specs.View.{view, Apart, Clean, Given, Acyclic, Unwritten, Within, Sized};

use table::{JobNumber, Table};

mod forgetting;
mod jobs;
mod opening;
mod queries;
mod steps;
mod sweeps;

pub use jobs::Jobs;

/// A book of jobs.
#[derive(Drop)]
pub struct Book {
    settings: u8,
    limit: u8,
    last: JobNumber,
    table: Table,
    // No two places hold jobs of one number, and arrows lead from and to places that hold jobs.
    ghost apart: { Apart table },
    ghost clean: { Clean table },
    // What the book that the table shows keeps.
    ghost given: { Given (view settings limit last table) },
    ghost acyclic: { Acyclic (view settings limit last table) },
    ghost unwritten: { Unwritten (view settings limit last table) },
    ghost within: { Within (view settings limit last table) },
    ghost sized: { Sized (view settings limit last table) },
}
