//! The book of jobs as mathematics: what each call answers and changes, what holds of every run of calls, and the
//! refusals and stream faults with their numbers. The definitions and the laws stand in `specs/`, the proofs in
//! `proofs/`; `docs/BOOK.md` and `docs/LAWS.md` say both in plain words.
//!
//! The functions below compute nothing: each has a law as its contract, so that the crate is proved only if the
//! law is.

#![tactic(auto)]

ghost use Rattle.model.specs.Possible.{EveryPathIsAWalk};
ghost use Rattle.model.specs.Policies.{Lawful, never, clear, stale, thorough_one, EveryPileIsLawful, EverySpacedPolicyIsLawful, EverySpacedPolicyIsExact, ActingAsALawfulPolicyIsLawful};
ghost use Rattle.model.specs.Sweeps.{EverySweepIsExact};
ghost use Rattle.model.specs.Begin.{EveryBeginIsExact};
ghost use Rattle.model.specs.Blocker.{EveryBlockerIsExact};
ghost use Rattle.model.specs.Laws.{EveryRunIsSound, EveryCallUnderAPolicy, EveryCallKeepsPossible};
ghost use Rattle.model.specs.Worked.{WorkedExamplesHold};

mod faults;
mod refusals;

pub use faults::Fault;
pub use refusals::Refusal;

/// Whatever calls are made on an opened book and a row, for every kind of value: the book can exist and agrees with
/// the log of the calls; a step is cut off exactly when it closes a circle of conflicts; the finished jobs, run
/// singly in any order that keeps their conflicts, read and leave the same values, and such an order exists; and
/// after a begin refused for want of room under a thorough policy every finished job held is needed.
pub fn every_run_is_sound<V>()
    ensures { EveryRunIsSound V }
{}

/// A begin and a sweep under any lawful policy, with any count, are steps of a run; each does exactly what its
/// policy answers.
pub fn calls_under_a_policy_are_steps_of_a_run<V, S>()
    ensures { EveryCallUnderAPolicy V S }
{}

/// A begin under a lawful policy sweeps only when it must, forgets nothing when it is refused, and else gives the
/// next number to a new job.
pub fn every_begin_is_exact<S>()
    ensures { EveryBeginIsExact S }
{}

/// A sweep under a lawful policy asks until the policy answers none, and forgets each answer, which may be forgotten
/// at that moment; under a thorough policy it leaves no job that may be forgotten.
pub fn every_sweep_is_exact<S>()
    ensures { EverySweepIsExact S }
{}

/// A read, a write and a withdrawal lead from a book that can exist to one.
pub fn every_call_keeps_a_possible_book<V>()
    ensures { EveryCallKeepsPossible V }
{}

/// The tests for a path and for a tight path answer exactly whether a walk over the book's arrows leads there.
pub fn every_path_is_a_walk()
    ensures { EveryPathIsAWalk }
{}

/// The blocker of a finished job is the smallest pair of an active job and a setting at which it lacks a stand-in;
/// there is none exactly when the job may be forgotten.
pub fn every_blocker_is_exact()
    ensures { EveryBlockerIsExact }
{}

/// The four policies that count nothing are lawful.
pub fn plain_policies_are_lawful()
    ensures never { Lawful never }
    ensures clear { Lawful clear }
    ensures stale { Lawful stale }
    ensures thorough { Lawful thorough_one }
{}

/// A pile of two lawful policies is lawful.
pub fn every_pile_is_lawful<S, R>()
    ensures { EveryPileIsLawful S R }
{}

/// A lawful policy that is asked only every so many questions is lawful.
pub fn every_spaced_policy_is_lawful<S>()
    ensures { EverySpacedPolicyIsLawful S }
{}

/// A spaced policy answers none to the first k - 1 of every k questions and passes the k-th on.
pub fn every_spaced_policy_is_exact<S>()
    ensures { EverySpacedPolicyIsExact S }
{}

/// A policy that does what a lawful one does, whatever else its count holds, is lawful.
pub fn acting_as_a_lawful_policy_is_lawful<C, S>()
    ensures { ActingAsALawfulPolicyIsLawful C S }
{}

/// The scripts of the table of worked examples get the answers that stand in it.
// Some of them stand in the larger table of `worked` too: a theorem that is relied on stays where it is.
pub fn worked_examples_hold()
    ensures { WorkedExamplesHold }
{}
