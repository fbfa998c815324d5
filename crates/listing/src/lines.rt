ghost use Rattle.std.specs.Prelude.{◌≡◌, IfOk, string_bytes};
ghost use Rattle.commands.specs.Calls.{call_of};
ghost use Rattle.model.specs.Orders.{entry_count};
ghost use Rattle.listing.specs.Lines.{width, value_words, between, entries_words, order_words, command_words, fault_words};

use commands::{Command, Order};
use model::Fault;
use std::alloc::{AllocError, Global};
use values::{Kind, Level};

/// How many bytes an entry of an order of levels has.
const ENTRY: usize = 4;

// The level that bytes are, or that they are none.
fn value_text(heap: Global, bytes: &[u8]) -> Result<String, AllocError>
    ensures { IfOk result (λ text. string_bytes text ≡ value_words bytes.now) }
{
    match Level::read(bytes) {
        Some(level) => format!(in heap; "{}", level.value()),
        None => format!(in heap; "no level"),
    }
}

// What stands before an entry.
fn separator(i: usize) -> &'static str
    ensures { result.now ≡ between i }
{
    if i == 0 { " " } else { ", " }
}

// The entries of an order.
fn entries_text(heap: Global, order: &[u8]) -> Result<String, AllocError>
    ensures { IfOk result (λ text. string_bytes text ≡ entries_words order.now (entry_count width order.now)) }
{
    let mut text = String::new(heap);
    for (i, entry) in order.chunks_exact(ENTRY).enumerate() {
        let before = separator(i);
        let [_, setting, value @ ..] = entry else {
            unreachable!()
        };
        let value = value_text(heap, value)?;
        text.push_str(format!(in heap; "{before}setting {setting} = {value}")?.as_str())?;
    }
    Ok(text)
}

// What a write writes.
fn order_text(heap: Global, order: Order) -> Result<String, AllocError>
    ensures { IfOk result (λ text. string_bytes text ≡ order_words order.entry.bytes.now) }
{
    match order.entries::<Level>() {
        Some(0) => format!(in heap; " nothing"),
        Some(_) => entries_text(heap, order.bytes),
        None => format!(in heap; " a malformed order of {} bytes", order.bytes.len()),
    }
}

/// The line of the n-th command of a stream.
pub fn command_line(heap: Global, n: usize, command: Command) -> Result<String, AllocError>
    ensures { IfOk result (λ text. string_bytes text ≡ command_words n (call_of command.entry)) }
{
    match command {
        Command::Begin => format!(in heap; "{n} B a job begins\n"),
        Command::Read { job, setting } => {
            format!(in heap; "{n} R job {job} reads setting {setting}\n")
        }
        Command::Write { job, order } => {
            let words = order_text(heap, order)?;
            format!(in heap; "{n} W job {job} writes{words}\n")
        }
        Command::Withdraw { job } => format!(in heap; "{n} X job {job} is withdrawn\n"),
        Command::Sweep => format!(in heap; "{n} S finished jobs are swept\n"),
    }
}

/// The line of a fault in the place of the n-th command.
pub fn fault_line(heap: Global, n: usize, fault: Fault) -> Result<String, AllocError>
    ensures { IfOk result (λ text. string_bytes text ≡ fault_words n fault) }
{
    format!(in heap; "{n} ? no {fault}\n")
}
