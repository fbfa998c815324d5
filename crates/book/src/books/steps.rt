ghost use Rattle.std.specs.Prelude.{◌≡◌, ◌<◌, ◌≤◌, false, MatchOption, MatchResult};
ghost use Rattle.model.specs.declared.refusals.Refusal.TheVariants.{NotActive};
ghost use Rattle.model.specs.Book.{is_active};
ghost use Rattle.model.specs.Calls.{read_answer, read_book, write_answer, write_book, write_row, withdraw_answer, withdraw_book};
ghost use Rattle.book.specs.Entries.{Accepted, Refused};
ghost use Rattle.book.specs.State.{model, ActiveAt};

use super::Book;
use crate::orders::{put_entries, taken_apart};
use commands::Order;
use graph::{Place, reached};
use model::Refusal;
use table::{JobNumber, Setting, SettingSet};
use values::Kind;

impl Book {
    // The place of an active job.
    fn active_place(&self, job: JobNumber) -> Result<Place, Refusal>
        ensures { MatchResult result (λ p. ActiveAt self.now job p.index) (λ e. (e ≡ NotActive) × (is_active (model self.now) job ≡ false)) }
    {
        let (place, _) = self
            .find(job)
            .filter(|(_, found)| !found.finished)
            .ok_or(Refusal::NotActive)?;
        Ok(place)
    }

    // The setting of an index, where the book has it.
    fn setting(&self, index: u8) -> Option<Setting>
        ensures { MatchOption result (self.now.settings ≤ index) (λ s. (s.index ≡ index) × (index < self.now.settings)) }
    {
        // `Setting::new` of the index, filtered by a test of the index, says no more.
        if index < self.settings {
            Setting::new(index)
        } else {
            None
        }
    }

    /// An active job reads a setting of a row. A read that would close a circle is not made: its job leaves the book
    /// with all its arrows.
    pub fn read<V: Copy>(&mut self, row: &[V], job: JobNumber, setting: u8) -> Result<V, Refusal>
        ensures answers { result ≡ read_answer (model self.old) row.now job setting }
        ensures leaves { model self.new ≡ read_book (model self.old) row.now job setting }
    {
        if row.len() != usize::from(self.settings) {
            return Err(Refusal::RowLength);
        }
        let place = self.active_place(job)?;
        let read = self.setting(setting).ok_or(Refusal::NoSetting)?;
        let value = row[usize::from(setting)];
        let mut from = self.table.writers(read);
        from.remove(place);
        if reached(self.table.arrows(), place).shares(from) {
            self.table.remove(place);
            return Err(Refusal::Circle);
        }
        self.table.note_read(place, read, from);
        Ok(value)
    }

    // The settings that the entries of an order name, or why the order is refused: its form first, then each entry in
    // turn for its setting, a repetition and its value.
    fn named_settings<K: Kind>(&self, order: Order) -> Result<SettingSet, Refusal>
        ensures { MatchResult result (Accepted K.Kind.kind self.now.settings order.entry.bytes.now) (Refused K.Kind.kind self.now.settings order.entry.bytes.now) }
    {
        order.entries::<K>().ok_or(Refusal::OrderForm)?;
        let mut named = SettingSet::empty();
        for (i, entry) in order.bytes.chunks_exact(K::WIDTH + 2).enumerate() {
            let (index, value) = taken_apart::<K>(entry);
            let number = i as u8 + 1;
            let setting = self.setting(index).ok_or(Refusal::EntrySetting(number))?;
            if named.contains(setting) {
                return Err(Refusal::EntryRepeated(number));
            }
            value.ok_or(Refusal::EntryValue(number))?;
            named.insert(setting);
        }
        Ok(named)
    }

    /// An active job writes an order into a row, and is then finished. A write that would close a circle is not made:
    /// its job leaves the book with all its arrows.
    pub fn write<K: Kind>(
        &mut self,
        row: &mut [K],
        job: JobNumber,
        order: Order,
    ) -> Result<(), Refusal>
        ensures answers { result ≡ write_answer K.Kind.kind (model self.old) row.old job order.entry.bytes.now }
        ensures leaves { model self.new ≡ write_book K.Kind.kind (model self.old) row.old job order.entry.bytes.now }
        ensures fills { row.new ≡ write_row K.Kind.kind (model self.old) row.old job order.entry.bytes.now }
    {
        if row.len() != usize::from(self.settings) {
            return Err(Refusal::RowLength);
        }
        let place = self.active_place(job)?;
        let written = self.named_settings::<K>(order)?;
        let mut from = self.table.touchers(written);
        from.remove(place);
        if reached(self.table.arrows(), place).shares(from) {
            self.table.remove(place);
            return Err(Refusal::Circle);
        }
        self.table.finish(place, written, from);
        put_entries(order, row);
        Ok(())
    }

    /// An active job leaves the book with all its arrows.
    pub fn withdraw(&mut self, job: JobNumber) -> Result<(), Refusal>
        ensures answers { result ≡ withdraw_answer (model self.old) job }
        ensures leaves { model self.new ≡ withdraw_book (model self.old) job }
    {
        let leaving = self.active_place(job)?;
        self.table.remove(leaving);
        Ok(())
    }
}
