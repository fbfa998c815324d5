//! What the two programs do: they run a stream of commands on a new book of 15 settings, with at most 4 active jobs, and
//! answer it by lines.

#![tactic(auto)]

mod books;
mod levels;
mod plans;
mod unanswered;

pub use levels::level_answers;
pub use plans::plan_answers;
pub use unanswered::Unanswered;
