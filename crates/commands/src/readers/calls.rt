ghost use Rattle.std.specs.Prelude.{◌≡◌, ℕ, ◌+◌, length};
ghost use Rattle.std.specs.Iterator.{at_most};
ghost use Rattle.commands.specs.Reading.{next_at, fault_met, Takes};
ghost use Rattle.commands.specs.Looks.{found, found_offset};

use super::Reader;
use crate::{Command, Order};
use model::Fault;
use std::marker::PhantomData;
use values::{Kind, word_from};

/// The most bytes that a stream may have.
const LONGEST: usize = 65_535;

impl<'a, K: Kind> Reader<'a, K> {
    /// A reader at the start of a stream.
    pub fn new(bytes: &'a [u8]) -> Reader<'a, K>
        ensures rest { result.rest.now ≡ bytes.now }
        ensures at { result.at ≡ 0 }
    {
        Reader {
            rest: bytes,
            at: 0,
            kind: PhantomData,
        }
    }

    /// A reader of commands on values of another kind, where this one stands.
    pub fn of_kind<L: Kind>(self) -> Reader<'a, L>
        ensures rest { result.rest.now ≡ self.entry.rest.now }
        ensures at { result.at ≡ self.entry.at }
    {
        Reader {
            rest: self.rest,
            at: self.at,
            kind: PhantomData,
        }
    }

    /// What is wrong with the stream where the reader stands, if anything is.
    pub fn fault(&self) -> Option<Fault>
        ensures { result ≡ fault_met (next_at K.Kind.kind.width self.now.at self.now.rest.now) }
    {
        self.look().err()
    }

    // What stands next, a command with the bytes behind it or the end, with the reader left where it is.
    fn look(&self) -> Result<Option<(Command<'a>, &'a [u8])>, Fault>
        ensures order { found_offset result (self.now.at + 4) ≡ self.now.at + 4 }
        ensures next { found result ≡ next_at K.Kind.kind.width self.now.at self.now.rest.now }
    {
        if self.at + self.rest.len() > LONGEST {
            return Err(Fault::TooLong);
        }
        match self.rest {
            [] => Ok(None),
            [b'B', rest @ ..] => Ok(Some((Command::Begin, rest))),
            [b'R', high, low, setting, rest @ ..] => {
                let job = word_from(*high, *low);
                let setting = *setting;
                Ok(Some((Command::Read { job, setting }, rest)))
            }
            [b'W', high, low, count, rest @ ..] => {
                let job = word_from(*high, *low);
                let size = usize::from(*count) * (K::WIDTH + 2);
                if rest.len() < size {
                    return Err(Fault::CutShort(self.at));
                }
                let order = Order {
                    bytes: &rest[..size],
                    offset: self.at + 4,
                };
                Ok(Some((Command::Write { job, order }, &rest[size..])))
            }
            [b'X', high, low, rest @ ..] => {
                let job = word_from(*high, *low);
                Ok(Some((Command::Withdraw { job }, rest)))
            }
            [b'S', rest @ ..] => Ok(Some((Command::Sweep, rest))),
            [b'R' | b'W' | b'X', ..] => Err(Fault::CutShort(self.at)),
            [_, ..] => Err(Fault::NoLetter(self.at)),
        }
    }
}

impl<'a, K: Kind> Iterator for Reader<'a, K> {
    type Item = Command<'a>;

    ghost next_gives = { λ s r t. Takes K.Kind.kind.width s.at s.rest.now r t.at t.rest.now };

    ghost remaining = { λ s. at_most (length s.rest.now) };

    /// The next command, with the reader then behind it. None at the end of the stream, or where it is at fault.
    fn next(&mut self) -> Option<Command<'a>> {
        let (command, rest) = self.look().ok().flatten()?;
        self.at += self.rest.len() - rest.len();
        self.rest = rest;
        Some(command)
    }
}
