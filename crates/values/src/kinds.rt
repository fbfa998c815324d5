ghost use Rattle.std.specs.Prelude.{◌≡◌, ℕ, ◌≤◌, List, length, Some};
ghost use Rattle.model.specs.Kinds.{Kind as Meaning};
ghost use Rattle.values.specs.Output.{put_answer, put_out};

use model::Refusal;

/// A kind of value: how many bytes a value has, how it is read from them and how it is written.
///
/// The ghost record `kind` says what an implementation means, and carries the laws that `kinds_are_lawful` names, but for the
/// law `is_width`, which ties `WIDTH` to it.
pub trait Kind: Copy {
    /// How many bytes a value has.
    const WIDTH: usize;

    ghost WIDTH: { ℕ };

    ghost kind: { Meaning Self };

    /// `WIDTH`, as a call.
    // It says nothing more; a public call stays.
    fn value_bytes() -> usize
        ensures { result ≡ kind.width }
    {
        Self::WIDTH
    }

    /// The value that the bytes are, or none where they are refused.
    fn read(bytes: &[u8]) -> Option<Self>
        ensures { result ≡ kind.reading bytes.now };

    /// Writes the value from an offset, and answers the offset behind it. Without room nothing is written.
    // Output and offset stay two parameters, since each caller lends a slice of its own and says where to write in it.
    fn write(self, out: &mut [u8], at: usize) -> Result<usize, Refusal>
        ensures answer { result ≡ put_answer (kind.writing self) out.old at }
        ensures out { out.new ≡ put_out (kind.writing self) out.old at };

    ghost is_width: { WIDTH ≡ kind.width };
}

/// What holds of every kind: `WIDTH` is the width that it means, values have 1 to 8 bytes, a value that is written reads
/// back as itself, and bytes that are accepted are the ones that their value writes.
pub fn kinds_are_lawful<K: Kind>()
    ensures width { K.WIDTH ≡ K.Kind.kind.width }
    ensures narrow { (1 ≤ K.Kind.kind.width) × (K.Kind.kind.width ≤ 8) }
    ensures sized { (v : K) → length (K.Kind.kind.writing v) ≡ K.Kind.kind.width }
    ensures reads_back { (v : K) → K.Kind.kind.reading (K.Kind.kind.writing v) ≡ Some v }
    ensures writes_back { (bytes : List ℕ) (v : K) → K.Kind.kind.reading bytes ≡ Some v → K.Kind.kind.writing v ≡ bytes }
{}
