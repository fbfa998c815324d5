ghost use Rattle.std.specs.Prelude.{◌≡◌};
ghost use Rattle.values.specs.Output.{put_answer, put_out};

use model::Refusal;

/// Copies the bytes into the output from an offset, and answers the offset behind them. Without room nothing is written.
pub fn put(bytes: &[u8], out: &mut [u8], at: usize) -> Result<usize, Refusal>
    ensures answer { result ≡ put_answer bytes.now out.old at }
    ensures out { out.new ≡ put_out bytes.now out.old at }
{
    // Output and offset stay two parameters, since each caller lends a slice of its own and says where to write in it.
    if at > out.len() || out.len() - at < bytes.len() {
        return Err(Refusal::NoRoom);
    }
    let end = at + bytes.len();
    out[at..end].copy_from_slice(bytes);
    Ok(end)
}
