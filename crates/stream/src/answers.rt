use book::JobNumber;
use model::{Fault, Refusal};

/// What a command of a stream is answered, or the fault that stands in its place.
#[derive(Clone, Copy, PartialEq, Eq, Debug)]
pub enum Answer<K> {
    /// The number of the job that began.
    Begin(Result<JobNumber, Refusal>),
    /// The value that was read.
    Read(Result<K, Refusal>),
    /// The order was written.
    Write(Result<(), Refusal>),
    /// The job was withdrawn.
    Withdraw(Result<(), Refusal>),
    /// How many jobs were forgotten.
    Sweep(usize),
    /// The stream is at fault here.
    Fault(Fault),
}
