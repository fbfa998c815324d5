ghost use Rattle.std.specs.Prelude.{◌≡◌, ◌+◌, length, if◌then◌else◌, Ok, Err, nat_le, decimal};
ghost use Rattle.model.specs.declared.refusals.Refusal.TheVariants.{NoRoom};
ghost use Rattle.stream.specs.Lines.{hex, line_room};
ghost use Rattle.stream.specs.Puts.{Puts};

use crate::numerals::hex_digit;
use model::Refusal;
use values::put;

/// The room that a line must find.
pub(crate) const LINE_ROOM: usize = 32;

/// What lines are written into, one piece behind another.
#[derive(Drop)]
pub(crate) struct Output<'a> {
    /// The bytes of the output.
    pub bytes: &'a mut [u8],
    /// How many bytes stand in it, from its start.
    pub at: usize,
}

impl Output<'_> {
    /// Refuses where the output has too little room for a line.
    pub fn check_room(&self) -> Result<(), Refusal>
        ensures { result ≡ (if nat_le (self.now.at + line_room) (length self.now.bytes.now) then Ok tt else Err NoRoom) }
    {
        if self.at > self.bytes.len() || self.bytes.len() - self.at < LINE_ROOM {
            return Err(Refusal::NoRoom);
        }
        Ok(())
    }

    /// Puts bytes.
    pub fn put(&mut self, bytes: &[u8]) -> Result<(), Refusal>
        ensures { Puts bytes.now self.old result self.new }
    {
        self.at = put(bytes, self.bytes, self.at)?;
        Ok(())
    }

    /// Puts a number in decimal, without leading zeros.
    pub fn decimal(&mut self, n: usize) -> Result<(), Refusal>
        ensures { Puts (decimal n) self.old result self.new }
    {
        if n < 10 {
            return self.put(&[b'0' + n as u8]);
        }
        self.decimal(n / 10)?;
        self.put(&[b'0' + (n % 10) as u8])
    }

    /// Puts bytes in hexadecimal, two lower-case digits each.
    pub fn hex(&mut self, bytes: &[u8]) -> Result<(), Refusal>
        ensures { Puts (hex bytes.now) self.old result self.new }
    {
        for byte in bytes {
            self.put(&[hex_digit(byte / 16), hex_digit(byte % 16)])?;
        }
        Ok(())
    }
}
