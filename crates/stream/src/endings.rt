use model::Fault;

/// What ends a run before the end of its stream.
#[derive(Clone, Copy, PartialEq, Eq, Debug)]
pub enum Stop {
    /// The stream is at fault.
    Fault(Fault),
    /// The output has too little room for the next line.
    NoRoom,
}

/// How a run ended.
#[derive(Clone, Copy, PartialEq, Eq, Debug)]
pub struct Ended {
    /// How many bytes of lines stand in the output.
    // The output is lent by the caller, and nothing here may allocate.
    pub length: usize,
    /// What ended the run, unless it came to the end of the stream.
    pub stop: Option<Stop>,
}
