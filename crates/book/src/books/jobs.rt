ghost use Rattle.std.specs.Prelude.{◌≡◌, nat_lt};
ghost use Rattle.std.specs.Iterator.{YieldsFirst, item_count};
ghost use Rattle.model.specs.Lists.{first_of};
ghost use Rattle.book.specs.Listed.{listed, left};

use super::Book;
use table::JobNumber;

// Which jobs an iterator goes over.
#[derive(Clone, Copy)]
enum Among {
    Held,
    Finished,
}

/// The numbers of held jobs of a book, or of its finished jobs alone, in rising order.
#[derive(Drop)]
pub struct Jobs<'a> {
    book: &'a Book,
    among: Among,
    after: JobNumber,
}

impl Jobs<'_> {
    // The number that comes next.
    fn peek(&self) -> Option<JobNumber>
        ensures { result ≡ first_of (nat_lt self.now.after) (listed self.now) }
    {
        match self.among {
            Among::Held => self.book.next_held(self.after),
            Among::Finished => self.book.next_finished(self.after),
        }
    }
}

impl Iterator for Jobs<'_> {
    type Item = JobNumber;

    ghost next_gives = { YieldsFirst left };

    ghost remaining = { item_count left };

    fn next(&mut self) -> Option<JobNumber> {
        self.after = self.peek()?;
        Some(self.after)
    }
}

mod lists;
