ghost use Rattle.std.specs.Prelude.{◌≡◌};
ghost use Rattle.model.specs.Policies.{overwritten};
ghost use Rattle.book.specs.State.{model};
ghost use Rattle.policies.specs.Covered.{covered};

use book::Book;
use table::JobNumber;

// Whether the job did not touch the setting, or a finished job at the head of one of its arrows wrote it.
fn is_covered(book: &Book, job: JobNumber, setting: u8) -> bool
    ensures { result ≡ covered (model book.now) job setting }
{
    !book.has_touched(job, setting)
        || book.finished_jobs().any(|later| book.joins(job, later)
            && book.has_written(later, setting))
}

/// Whether each setting that the job touched was written by a finished job at the head of one of its arrows.
pub(crate) fn is_overwritten(book: &Book, job: JobNumber) -> bool
    ensures { result ≡ overwritten (model book.now) job }
{
    (0..book.settings()).all(|setting| is_covered(book, job, setting))
}
