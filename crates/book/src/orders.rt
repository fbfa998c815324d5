ghost use Rattle.std.specs.Prelude.{◌≡◌, ◌≤◌, length, drop, slice_index};
ghost use Rattle.model.specs.Calls.{put_all};
ghost use Rattle.book.specs.Entries.{all_valued};

use commands::Order;
use values::Kind;

/// An entry taken apart: the setting that it names, and its value, if its bytes are one.
pub(crate) fn taken_apart<K: Kind>(entry: &[u8]) -> (u8, Option<K>)
    requires { 2 ≤ length entry.now }
    ensures { result ≡ (slice_index entry.now 1, K.Kind.kind.reading (drop 2 entry.now)) }
{
    let [_, setting, value @ ..] = entry else {
        unreachable!()
    };
    (*setting, K::read(value))
}

/// Writes the values of an order into a row, each at the setting that its entry names.
pub(crate) fn put_entries<K: Kind>(order: Order, row: &mut [K])
    ensures { row.new ≡ put_all row.old (all_valued K.Kind.kind order.entry.bytes.now) }
{
    for entry in order.bytes.chunks_exact(K::WIDTH + 2) {
        let (setting, value) = taken_apart::<K>(entry);
        let setting = usize::from(setting);
        if let Some(value) = value {
            if setting < row.len() {
                row[setting] = value;
            }
        }
    }
}
