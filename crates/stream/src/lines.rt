ghost use Rattle.std.specs.Prelude.{◌≡◌, ◌+◌, ◌≤◌, length, Some, None};
ghost use Rattle.stream.specs.Puts.{Puts, SameOutput, Stand};
ghost use Rattle.stream.specs.Lines.{spaced_number, number_words, value_words, no_words, refusal_words, fault_words, letter_of, answer_words, line, line_room, Near, Brief};

use crate::Answer;
use crate::output::Output;
use model::{Fault, Refusal};
use values::Kind;

/// The most bytes that a value has.
const WIDEST: usize = 8;

// The letter of the command that was answered.
fn letter<K: Kind>(answer: Answer<K>) -> u8
    ensures { result ≡ letter_of answer }
{
    match answer {
        Answer::Begin(_) => b'B',
        Answer::Read(_) => b'R',
        Answer::Write(_) => b'W',
        Answer::Withdraw(_) => b'X',
        Answer::Sweep(_) => b'S',
        Answer::Fault(_) => b'?',
    }
}

// Not by `Display`: what `write!` promises holds only where it succeeds, and a line with room for it has to.
impl Output<'_> {
    // Puts a space and a number.
    fn spaced(&mut self, n: usize) -> Result<(), Refusal>
        ensures { Puts (spaced_number n) self.old result self.new }
    {
        self.put(b" ")?;
        self.decimal(n)
    }

    // Puts the words of a number that is given.
    fn number(&mut self, n: usize) -> Result<(), Refusal>
        ensures { Puts (number_words n) self.old result self.new }
    {
        self.put(b"ok")?;
        self.spaced(n)
    }

    // Puts the words of a value that was read.
    fn value<K: Kind>(&mut self, value: K) -> Result<(), Refusal>
        ensures { Puts (value_words K.Kind.kind value) self.old result self.new }
    {
        // As wide as the widest value: the length of an array cannot be the width of a kind.
        let mut bytes = [0; WIDEST];
        let width = value.write(&mut bytes, 0)?;
        self.put(b"ok ")?;
        self.hex(&bytes[0..width])
    }

    // Puts the words of a refusal or a fault that names nothing but its number.
    fn no(&mut self, n: u8) -> Result<(), Refusal>
        ensures { Puts (no_words n None) self.old result self.new }
    {
        self.put(b"no")?;
        self.spaced(usize::from(n))
    }

    // Puts the words of one that names an entry or an offset too.
    fn no_at(&mut self, n: u8, named: usize) -> Result<(), Refusal>
        ensures { Puts (no_words n (Some named)) self.old result self.new }
    {
        self.no(n)?;
        self.spaced(named)
    }

    // Puts the words of a refusal.
    fn refusal(&mut self, refusal: Refusal) -> Result<(), Refusal>
        ensures brief { length (refusal_words refusal) ≤ 23 }
        ensures puts { Puts (refusal_words refusal) self.old result self.new }
    {
        match refusal.entry() {
            Some(entry) => self.no_at(refusal.number(), usize::from(entry)),
            None => self.no(refusal.number()),
        }
    }

    // Puts the words of a fault.
    fn fault(&mut self, fault: Fault) -> Result<(), Refusal>
        ensures { Puts (fault_words fault) self.old result self.new }
    {
        self.no_at(fault.number(), fault.offset())
    }

    // Puts the words of an answer.
    fn words<K: Kind>(&mut self, answer: Answer<K>) -> Result<(), Refusal>
        ensures brief { Brief K.Kind.kind answer }
        ensures puts { Puts (answer_words K.Kind.kind answer) self.old result self.new }
    {
        match answer {
            Answer::Begin(Ok(job)) => self.number(usize::from(job)),
            Answer::Read(Ok(value)) => self.value(value),
            Answer::Write(Ok(())) | Answer::Withdraw(Ok(())) => self.put(b"ok"),
            Answer::Sweep(count) => self.number(count),
            Answer::Begin(Err(refusal))
            | Answer::Read(Err(refusal))
            | Answer::Write(Err(refusal))
            | Answer::Withdraw(Err(refusal)) => self.refusal(refusal),
            Answer::Fault(fault) => self.fault(fault),
        }
    }

    /// Puts the line of the n-th command, as it was answered, where the output has room for a line.
    pub(crate) fn line<K: Kind>(&mut self, n: u16, answer: Answer<K>) -> Result<(), Refusal>
        requires near { Near answer }
        requires room { self.old.at + line_room ≤ length self.old.bytes.now }
        ensures same { SameOutput self.old self.new }
        ensures stand { Stand (line K.Kind.kind n answer) self.old result self.new }
        ensures fits { length (line K.Kind.kind n answer) ≤ line_room }
    {
        self.decimal(usize::from(n))?;
        self.put(&[b' ', letter(answer), b' '])?;
        self.words(answer)?;
        self.put(b"\n")
    }
}
