ghost use Rattle.std.specs.Prelude.{◌≡◌, Some};
ghost use Rattle.model.specs.Refusals.{number_of, entry_of, refusal_text};

use std::error::Error;
use std::fmt;

/// Why a call was refused. The number of each stands in one definition, `refusal_says`.
#[derive(Clone, Copy, PartialEq, Eq, Debug)]
pub enum Refusal {
    /// A book has 1 to 64 settings.
    SettingsRange,
    /// A book lets 1 to 32 jobs be active at once.
    LimitRange,
    /// The row has not one value for each setting.
    RowLength,
    /// As many jobs are active as may be.
    ActiveLimit,
    /// The last job number has been given.
    NumbersSpent,
    /// Every place holds a job, even after a sweep.
    BookFull,
    /// No active job has the number.
    NotActive,
    /// There is no such setting.
    NoSetting,
    /// The order is not whole entries, has more than 64 of them, or has one without its letter.
    OrderForm,
    /// This entry of the order, counted from 1, names no setting.
    EntrySetting(u8),
    /// This entry names a setting that an earlier one names.
    EntryRepeated(u8),
    /// The bytes of this entry are not those of a value.
    EntryValue(u8),
    /// The step would close a circle of conflicts; its job is cut off.
    Circle,
    /// No held finished job has the number.
    NotFinished,
    /// A policy cannot be asked at every 0th question.
    SpacingZero,
    /// The output has too little room.
    NoRoom,
}

impl Refusal {
    /// The number by which the refusal is known outside.
    // A call and not `From`: `u8::from(refusal)` would not say which number it is.
    pub fn number(self) -> u8
        ensures { result ≡ number_of self }
    {
        match self {
            Refusal::SettingsRange => 1,
            Refusal::LimitRange => 2,
            Refusal::RowLength => 3,
            Refusal::ActiveLimit => 4,
            Refusal::NumbersSpent => 5,
            Refusal::BookFull => 6,
            Refusal::NotActive => 7,
            Refusal::NoSetting | Refusal::EntrySetting(_) => 8,
            Refusal::OrderForm => 9,
            Refusal::EntryRepeated(_) => 10,
            Refusal::EntryValue(_) => 11,
            Refusal::Circle => 12,
            Refusal::NotFinished => 13,
            Refusal::SpacingZero => 14,
            Refusal::NoRoom => 18,
        }
    }

    /// The entry of the order that is at fault, counted from 1, where the refusal names one.
    pub fn entry(self) -> Option<u8>
        ensures { result ≡ entry_of self }
    {
        match self {
            Refusal::EntrySetting(entry)
            | Refusal::EntryRepeated(entry)
            | Refusal::EntryValue(entry) => Some(entry),
            _ => None,
        }
    }
}

/// The number, and behind a space the entry of the order, where the refusal names one.
impl fmt::Display for Refusal {
    ghost output = { λ r. Some (refusal_text r) };

    fn fmt<W: fmt::Write>(&self, f: &mut fmt::Formatter<W>) -> fmt::Result {
        let number = self.number();
        match self.entry() {
            Some(entry) => write!(f, "{number} {entry}"),
            None => write!(f, "{number}"),
        }
    }
}

impl Error for Refusal {}
