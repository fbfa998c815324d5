//! The book of jobs: which jobs are held, what each has read and written, and which must come before which.

#![tactic(auto)]

mod books;
mod orders;
mod policy;

pub use books::{Book, Jobs};
pub use policy::Policy;
pub use table::JobNumber;
