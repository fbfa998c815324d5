ghost use Rattle.std.specs.Prelude.{◌≡◌, ℕ, List, [], ◌∷◌, ◌++◌};
ghost use Rattle.values.specs.Output.{put_answer, put_out};
ghost use Rattle.values.specs.Words.{word};
ghost use Rattle.commands.specs.Calls.{call_of, write_letter};
ghost use Rattle.commands.specs.Writing.{entries_if_formed, write_answer, write_out};

use crate::{Command, Order};
use model::Refusal;
use values::{Kind, put};

/// The most entries that an order may have.
const MOST_ENTRIES: usize = 64;

impl Order<'_> {
    /// How many entries the order has, if it is well-formed: whole entries, at most 64, each with its letter.
    pub fn entries<K: Kind>(self) -> Option<u8>
        ensures { result ≡ entries_if_formed K.Kind.kind.width self.entry.bytes.now }
    {
        let mut entries = self.bytes.chunks_exact(K::WIDTH + 2);
        let count = entries.len();
        if count > MOST_ENTRIES || !entries.remainder().is_empty() {
            return None;
        }
        if !entries.all(|entry| matches!(entry, [b'V', ..])) {
            return None;
        }
        Some(count as u8)
    }
}

// Writes the head of a write and then its order. Output and offset stay two parameters, as at `put`.
fn put_write(job: u16, count: u8, order: &[u8], out: &mut [u8], at: usize) -> Result<usize, Refusal>
    ensures answer { result ≡ put_answer (write_letter ∷ word job ++ (count ∷ order.now)) out.old at }
    ensures out { out.new ≡ put_out (write_letter ∷ word job ++ (count ∷ order.now)) out.old at }
{
    if at > out.len() || out.len() - at < 4 || out.len() - at - 4 < order.len() {
        return Err(Refusal::NoRoom);
    }
    let [high, low] = job.to_be_bytes();
    let at = put(&[b'W', high, low, count], out, at)?;
    put(order, out, at)
}

impl Command<'_> {
    /// Writes the command from an offset, and answers the offset behind it. A write whose order is not well-formed
    /// is refused first, then a lack of room; a refusal writes nothing.
    // Output and offset stay two parameters, since each caller lends a slice of its own and says where to write in it.
    pub fn write<K: Kind>(&self, out: &mut [u8], at: usize) -> Result<usize, Refusal>
        ensures answer { result ≡ write_answer K.Kind.kind.width (call_of self.now) out.old at }
        ensures out { out.new ≡ write_out K.Kind.kind.width (call_of self.now) out.old at }
    {
        match *self {
            Command::Begin => put(&[b'B'], out, at),
            Command::Read { job, setting } => {
                let [high, low] = job.to_be_bytes();
                put(&[b'R', high, low, setting], out, at)
            }
            Command::Write { job, order } => {
                let count = order.entries::<K>().ok_or(Refusal::OrderForm)?;
                put_write(job, count, order.bytes, out, at)
            }
            Command::Withdraw { job } => {
                let [high, low] = job.to_be_bytes();
                put(&[b'X', high, low], out, at)
            }
            Command::Sweep => put(&[b'S'], out, at),
        }
    }
}
