ghost use Rattle.std.specs.Prelude.{◌≡◌, length};

use crate::Job;
use graph::Matrix;

mod changes;
mod queries;

/// The job that each place holds, and the arrows between places.
// Arrays of 64 places, named by their indexes: a book needs fixed memory and no heap.
#[derive(Clone, Copy)]
pub struct Table {
    jobs: [Option<Job>; 64],
    arrows: Matrix,
    ghost sized: { length jobs ≡ 64 },
}
