use book::Book;
use commands::Order;
use model::Refusal;
use policies::{Clear, Pile, Thorough};
use std::io;
use table::JobNumber;
use values::{Kind, Level};

/// A book with its row, and the policy that it is swept under.
#[derive(Drop)]
pub struct Stage {
    pub book: Book,
    pub row: [Level; 8],
    pub policy: Pile<Clear, Thorough>,
}

// The order of one entry.
fn entry(setting: u8, level: Level) -> [u8; 4] {
    let [high, low] = level.value().to_be_bytes();
    [b'V', setting, high, low]
}

// Says that a step was refused. The number alone is printed, and not the entry that `Display` would add.
fn refused(rt: HostRuntime, job: JobNumber, refusal: Refusal) -> io::Result<()> {
    let number = refusal.number();
    println!(rt; "job {job} is refused by {number}")
}

impl Stage {
    /// How many jobs the book holds.
    pub fn held(&self) -> usize {
        self.book.held_jobs().count()
    }

    /// A job begins. None where the begin is refused, which is printed.
    // An `Option`, and not the refusal by `?`: `main` answers an `io::Error`, whose own text is printed where the output cannot
    // be written, and a refusal is none.
    pub fn begin(&mut self, rt: HostRuntime) -> io::Result<Option<JobNumber>> {
        let before = self.held();
        match self.book.begin(&mut self.policy) {
            Ok(job) => {
                let kept = self.held().saturating_sub(1);
                if kept < before {
                    println!(rt; "{before} jobs are held: all but {kept} are forgotten")?;
                }
                println!(rt; "job {job} begins")?;
                Ok(Some(job))
            }
            Err(refusal) => {
                let number = refusal.number();
                println!(rt; "a begin is refused by {number}")?;
                Ok(None)
            }
        }
    }

    /// A job reads a setting.
    pub fn read(&mut self, rt: HostRuntime, job: JobNumber, setting: u8) -> io::Result<()> {
        match self.book.read(&self.row, job, setting) {
            Ok(level) => {
                let value = level.value();
                println!(rt; "job {job} reads setting {setting}: {value}")
            }
            Err(refusal) => refused(rt, job, refusal),
        }
    }

    /// A job writes a setting, and is finished.
    pub fn write(
        &mut self,
        rt: HostRuntime,
        job: JobNumber,
        setting: u8,
        value: u16,
    ) -> io::Result<()> {
        let Some(level) = Level::new(value) else {
            return Ok(());
        };
        let bytes = entry(setting, level);
        let order = Order {
            bytes: &bytes,
            offset: 0,
        };
        match self.book.write(&mut self.row, job, order) {
            Ok(()) => println!(rt; "job {job} writes setting {setting}: {value}"),
            Err(refusal) => refused(rt, job, refusal),
        }
    }

    /// A short job reads one setting and writes another.
    pub fn short_job(&mut self, rt: HostRuntime, read: u8, written: u8) -> io::Result<()> {
        let Some(job) = self.begin(rt)? else {
            return Ok(());
        };
        self.read(rt, job, read)?;
        self.write(rt, job, written, job % 1000)
    }
}
