//! Worked books: one table of scripts of calls with the answer of each, proved by computing with the definitions that
//! the contracts of the calls cite.

#![tactic(auto)]

ghost use Rattle.worked.specs.Table.{WorkedBooksHold};

/// Every call of every script of the table gets the answer that stands beside it. The function computes nothing; its
/// contract is the theorem.
pub fn worked_books_hold()
    ensures { WorkedBooksHold }
{}
