/// The entries of a write as they stand in the stream: the part that holds them, and the offset where it begins.
#[derive(Clone, Copy, PartialEq, Eq, Debug)]
pub struct Order<'a> {
    pub bytes: &'a [u8],
    pub offset: usize,
}

/// A command of a stream. Jobs and settings are named by their numbers.
#[derive(Clone, Copy, PartialEq, Eq, Debug)]
pub enum Command<'a> {
    /// A job begins.
    Begin,
    /// A job reads a setting.
    Read { job: u16, setting: u8 },
    /// A job writes the settings of an order and is then finished.
    Write { job: u16, order: Order<'a> },
    /// A job is withdrawn.
    Withdraw { job: u16 },
    /// Finished jobs are forgotten where that is safe.
    Sweep,
}
