ghost use Rattle.values.specs.Levels.{level_kind};
ghost use Rattle.cabinet.specs.Lines.{Responds};
ghost use Rattle.cabinet.specs.Programs.{level_policy, level_row, level_count};

use crate::Unanswered;
use crate::books::{SETTINGS, answers};
use policies::{Clear, Pile, Thorough};
use std::alloc::Global;
use values::Level;

/// The level of every setting at first.
const FIRST_LEVEL: u16 = 1000;

/// The answer lines of a stream of levels: run on a new book with every level at 1000, under the pile of clear and
/// thorough. It fails only for want of memory.
pub fn level_answers(heap: Global, input: &[u8]) -> Result<Vec<u8>, Unanswered>
    ensures { Responds level_kind level_policy level_row level_count input.now (λ text. text.items) result }
{
    let full = Level::new(FIRST_LEVEL).ok_or(Unanswered::NoBook)?;
    let mut policy = Pile {
        first: Clear,
        second: Thorough,
    };
    answers(heap, &mut [full; SETTINGS], &mut policy, input)
}
