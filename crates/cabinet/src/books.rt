ghost use Rattle.cabinet.specs.Lines.{Responds};

use crate::Unanswered;
use book::{Book, Policy};
use std::alloc::Global;
use stream::{lines_room, run};
use values::Kind;

/// How many settings the book has.
pub(crate) const SETTINGS: usize = 15;

/// How many jobs may be active at once.
const LIMIT: usize = 4;

/// The lines of a stream that is run on a new book and a row, under a policy.
pub(crate) fn answers<K: Kind, P: Policy>(
    heap: Global,
    row: &mut [K],
    policy: &mut P,
    input: &[u8],
) -> Result<Vec<u8>, Unanswered>
    ensures { Responds K.Kind.kind P.Policy.does row.old policy.old input.now (λ text. text.items) result }
{
    let mut book = Book::open::<K>(SETTINGS, LIMIT).map_err(|_| Unanswered::NoBook)?;
    let mut out = vec![in heap; 0u8; lines_room(input.len())]?;
    let ended = run(input, &mut book, row, policy, out.as_mut_slice());
    out.truncate(ended.length);
    Ok(out)
}
