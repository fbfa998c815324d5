ghost use Rattle.values.specs.Plans.{plan_kind};
ghost use Rattle.cabinet.specs.Lines.{Responds};
ghost use Rattle.cabinet.specs.Programs.{plan_policy, plan_row, plan_count};

use crate::Unanswered;
use crate::books::{SETTINGS, answers};
use policies::{Pile, Spaced, Stale, Thorough};
use std::alloc::Global;
use values::{Level, Plan};

/// The plan of every setting at first: the minutes on and off, and the level.
const FIRST_ON: u16 = 360;

const FIRST_OFF: u16 = 1080;

const FIRST_LEVEL: u16 = 1000;

/// One of so many questions is passed on to thorough.
const SPACING: u8 = 3;

/// The answer lines of a stream of plans: run on a new book with every plan at 360, 1080, 1000, under the pile of stale and
/// a policy that passes every third question on to thorough. It fails only for want of memory.
pub fn plan_answers(heap: Global, input: &[u8]) -> Result<Vec<u8>, Unanswered>
    ensures { Responds plan_kind plan_policy plan_row plan_count input.now (λ text. text.items) result }
{
    let level = Level::new(FIRST_LEVEL).ok_or(Unanswered::NoBook)?;
    let plan = Plan::new(FIRST_ON, FIRST_OFF, level).ok_or(Unanswered::NoBook)?;
    let spaced = Spaced::new(SPACING, Thorough).map_err(|_| Unanswered::NoBook)?;
    let mut policy = Pile {
        first: Stale,
        second: spaced,
    };
    answers(heap, &mut [plan; SETTINGS], &mut policy, input)
}
