ghost use Rattle.std.specs.Prelude.{◌≡◌, ◌<◌, length, Some, MatchResult};
ghost use Rattle.model.specs.declared.faults.Fault.{Fault as Flaw};
ghost use Rattle.model.specs.Refusals.{fault_offset};
ghost use Rattle.book.specs.State.{model};
ghost use Rattle.commands.specs.Calls.{call_of};
ghost use Rattle.stream.specs.States.{state, Carries};
ghost use Rattle.stream.specs.Held.{held, SameHeld};
ghost use Rattle.stream.specs.Puts.{SameOutput};
ghost use Rattle.stream.specs.Steps.{Answered, Unanswered, Told, Untold, Finishes};
ghost use Rattle.stream.specs.Streams.{ran, Runs};
ghost use Rattle.stream.specs.Laws.{Follows};

use crate::output::Output;
use crate::{Answer, Ended, Stop};
use book::{Book, Policy};
use commands::{Command, Reader};
use model::{Fault, Refusal};
use values::Kind;

// What the commands of a stream are carried out on.
#[derive(Drop)]
struct Runner<'b, 'r, 'p, K, P> {
    book: &'b mut Book,
    row: &'r mut [K],
    policy: &'p mut P,
}

impl<K: Kind, P: Policy> Runner<'_, '_, '_, K, P> {
    // Makes the call that a command asks for.
    fn carry_out(&mut self, command: Command) -> Answer<K>
        ensures same { SameHeld self.old self.new }
        ensures carries { Carries K.Kind.kind P.Policy.does (held self.old) (call_of command.entry) result (held self.new) }
    {
        match command {
            Command::Begin => Answer::Begin(self.book.begin(self.policy)),
            Command::Read { job, setting } => {
                // Lent before the book is: the check has no rule for the other order.
                let row = &mut *self.row;
                Answer::Read(self.book.read(row, job, setting))
            }
            Command::Write { job, order } => Answer::Write(self.book.write(self.row, job, order)),
            Command::Withdraw { job } => Answer::Withdraw(self.book.withdraw(job)),
            Command::Sweep => Answer::Sweep(self.book.sweep(self.policy)),
        }
    }

    // Carries out the n-th command and writes its line, if there is room for one; else does nothing.
    fn answer(&mut self, n: u16, command: Command, output: &mut Output<'_>) -> Result<(), Refusal>
        ensures same { SameHeld self.old self.new }
        ensures same_output { SameOutput output.old output.new }
        ensures answers { MatchResult result (λ _. Answered K.Kind.kind P.Policy.does n (call_of command.entry) (held self.old) (held self.new) output.old output.new) (λ _. Unanswered (held self.old) (held self.new) output.old output.new) }
    {
        output.check_room()?;
        let answer = self.carry_out(command);
        output.line(n, answer)
    }
}

impl Output<'_> {
    // Writes the line of a fault in the place of the n-th command, if there is room for one; else does nothing.
    fn fault_line<K: Kind>(&mut self, n: u16, fault: Fault) -> Result<(), Refusal>
        requires { fault_offset fault < 65536 }
        ensures same { SameOutput self.old self.new }
        ensures tells { MatchResult result (λ _. Told K.Kind.kind n fault self.old self.new) (λ _. Untold self.old self.new) }
    {
        self.check_room()?;
        self.line::<K>(n, Answer::Fault(fault))
    }

    // Ends a run where no command stands: at the end of the stream, or at the fault that was met.
    fn finish<K: Kind>(&mut self, n: u16, met: Option<Fault>) -> Option<Stop>
        requires { (f : Flaw) → met ≡ Some f → fault_offset f < 65536 }
        ensures same { SameOutput self.old self.new }
        ensures finishes { Finishes K.Kind.kind n met self.old self.new result }
    {
        let fault = met?;
        match self.fault_line::<K>(n, fault) {
            Ok(()) => Some(Stop::Fault(fault)),
            Err(_) => Some(Stop::NoRoom),
        }
    }
}

/// Runs a stream: makes the call of each command on the book, the row and the policy, and writes a line for each into the
/// output, from its start. The run ends with the stream, with the line of a fault, or where there is too little room for
/// the next line; then nothing of that command is done.
pub fn run<K: Kind, P: Policy>(
    input: &[u8],
    book: &mut Book,
    row: &mut [K],
    policy: &mut P,
    out: &mut [u8],
) -> Ended
    ensures runs { Runs K.Kind.kind P.Policy.does input.now (state (model book.old) row.old policy.old) (state (model book.new) row.new policy.new) out.old out.new result }
    ensures follows { Follows K.Kind.kind P.Policy.does input.now (state (model book.old) row.old policy.old) (ran K.Kind.kind P.Policy.does (length out.old) (state (model book.old) row.old policy.old) input.now).0.calls (state (model book.new) row.new policy.new) result.stop }
{
    let mut reader = Reader::<K>::new(input);
    let mut runner = Runner { book, row, policy };
    let mut output = Output { bytes: out, at: 0 };
    // A command has one byte at least, so that a stream has no more commands than bytes. Each is taken by `let .. else`, a rule
    // of the project, since what stands there instead ends the run.
    for place in 1..=u16::MAX {
        let Some(command) = reader.next() else {
            let stop = output.finish::<K>(place, reader.fault());
            return Ended {
                length: output.at,
                stop,
            };
        };
        if runner.answer(place, command, &mut output).is_err() {
            return Ended {
                length: output.at,
                stop: Some(Stop::NoRoom),
            };
        }
    }
    Ended {
        length: output.at,
        stop: None,
    }
}
