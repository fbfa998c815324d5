ghost use Rattle.std.specs.Prelude.{◌≡◌, Some};
ghost use Rattle.model.specs.Refusals.{fault_number, fault_offset, fault_text};

use std::error::Error;
use std::fmt;

/// What is wrong with a stream of commands. The number and the offset of each stand in one definition, `fault_says`.
#[derive(Clone, Copy, PartialEq, Eq, Debug)]
pub enum Fault {
    /// The stream has more than 65,535 bytes.
    TooLong,
    /// No command letter stands at this offset.
    NoLetter(usize),
    /// The stream ends inside the command that begins at this offset.
    CutShort(usize),
}

impl Fault {
    /// The number by which the fault is known outside.
    // A call and not `From`, as the number of a refusal.
    pub fn number(self) -> u8
        ensures { result ≡ fault_number self }
    {
        match self {
            Fault::TooLong => 15,
            Fault::NoLetter(_) => 16,
            Fault::CutShort(_) => 17,
        }
    }

    /// The offset of the first byte of what is at fault.
    pub fn offset(self) -> usize
        ensures { result ≡ fault_offset self }
    {
        match self {
            Fault::TooLong => 0,
            Fault::NoLetter(at) | Fault::CutShort(at) => at,
        }
    }
}

/// The number, and behind a space the offset.
impl fmt::Display for Fault {
    ghost output = { λ f. Some (fault_text f) };

    fn fmt<W: fmt::Write>(&self, f: &mut fmt::Formatter<W>) -> fmt::Result {
        let number = self.number();
        let offset = self.offset();
        write!(f, "{number} {offset}")
    }
}

impl Error for Fault {}
