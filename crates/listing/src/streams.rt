ghost use Rattle.std.specs.Prelude.{IfOk, string_bytes};
ghost use Rattle.listing.specs.Streams.{Lists, ListsCommands};

use crate::lines::{command_line, fault_line};
use commands::Reader;
use std::alloc::{AllocError, Global};
use values::Level;

/// The lines of a stream: one for each command, numbered from 1, and one for the fault that ends it early.
/// Where memory fails, that is the answer, and nothing else has changed.
pub fn listed(heap: Global, bytes: &[u8]) -> Result<String, AllocError>
    ensures lines { IfOk result (λ text. Lists 1 0 bytes.now (string_bytes text)) }
    ensures commands { IfOk result (λ text. ListsCommands bytes.now (string_bytes text)) }
{
    let mut text = String::new(heap);
    let mut reader = Reader::<Level>::new(bytes);
    // Not by `zip`: the line of a fault needs the number that follows that of the last command.
    let mut n: usize = 1;
    while let Some(command) = reader.next() {
        text.push_str(command_line(heap, n, command)?.as_str())?;
        n += 1;
    }
    if let Some(fault) = reader.fault() {
        text.push_str(fault_line(heap, n, fault)?.as_str())?;
    }
    Ok(text)
}
