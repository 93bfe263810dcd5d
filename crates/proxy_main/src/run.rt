// A script read to its end, piece by piece, and its answers written.
ghost use Rattle.std.specs.Prelude.{◌≡◌, ◌≤◌, ◌<◌, ℕ, List, Some, length, IfOk, IfErr, OnOk, OnErr, IsErrOf};
ghost use Rattle.kp_edge.specs.Counts.{BothCounted, Counted, HasCause};

use crate::output::write_all;
use crate::replay::Replay;
use crate::stop::Stop;
use conn_rules::Connection;
use kp_edge::{Failed, Sink, Source};

// The most bytes of a script.
const SCRIPT_LIMIT: u64 = 1_073_741_824;

// From how many bytes on the answers that wait are written before more lines are answered.
const MANY: usize = 65_536;

impl<C: Connection, L> Replay<C, L> {
    ghost use Rattle.proxy_main.specs.Written.{Flushes, WaitsOrWritten, TakesAll, TakeStops, Turns, ReadsOnce, ReadsAll};
    ghost use Rattle.proxy_main.specs.Scripts.{ReadSoFar};
    ghost use Rattle.proxy_main.specs.Output.{AppendsFront};

    // Reads the input to its end.
    pub(crate) fn read_all<I: Source, O: Sink>(
        &mut self,
        buffer: &mut [u8],
        input: &mut I,
        out: &mut O,
    ) -> Result<(), Stop>
        requires { 0 < length buffer.old }
        ensures so_far { (script : List ℕ) → I.coming input.old ≡ Some script → ReadSoFar (length buffer.old) script (I.coming input.new) }
        ensures read { ReadsAll C.meaning C.stands (length buffer.old) self.old (I.coming input.old) (O.taken out.old) self.new (I.coming input.new) (O.taken out.new) result }
        ensures faults { BothCounted (IsErrOf result Stop.Input) (IsErrOf result Stop.Output) (I.faults input.old) (I.faults input.new) (O.faults out.old) (O.faults out.new) }
    {
        let mut left = SCRIPT_LIMIT;
        loop {
            match self.turn(buffer, left, input, out) {
                Ok(0) => {
                    return match self.finish() {
                        Ok(()) => Ok(()),
                        Err(stop) => Err(Stop::from(stop)),
                    };
                }
                Ok(count) => left -= count,
                Err(stop) => return Err(stop),
            }
        }
    }

    // One read, where so many bytes may still come: its bytes are taken, and their number is told. It is 0 at the end.
    fn turn<I: Source, O: Sink>(
        &mut self,
        buffer: &mut [u8],
        left: u64,
        input: &mut I,
        out: &mut O,
    ) -> Result<u64, Stop>
        requires { 0 < length buffer.old }
        ensures bound { IfOk result (λ count. count ≤ left) }
        ensures once { ReadsOnce (length buffer.old) (I.coming input.old) (I.coming input.new) result }
        ensures turn { Turns C.meaning C.stands (length buffer.old) self.old (I.coming input.old) (O.taken out.old) left self.new (I.coming input.new) (O.taken out.new) result }
        ensures faults { BothCounted (IsErrOf result Stop.Input) (IsErrOf result Stop.Output) (I.faults input.old) (I.faults input.new) (O.faults out.old) (O.faults out.new) }
    {
        match self.flush(out) {
            Ok(()) => {}
            Err(Failed) => return Err(Stop::Output),
        }
        let count = match input.read(buffer) {
            Ok(count) => count,
            Err(Failed) => return Err(Stop::Input),
        };
        if count as u64 > left {
            return match self.take_all(buffer.split_at(left as usize).0, out) {
                Ok(()) => Err(Stop::TooLong),
                Err(stop) => Err(stop),
            };
        }
        match self.take_all(buffer.split_at(count).0, out) {
            Ok(()) => Ok(count as u64),
            Err(stop) => Err(stop),
        }
    }

    // Takes all the bytes, and writes the answers wherever they are many.
    fn take_all<O: Sink>(&mut self, bytes: &[u8], out: &mut O) -> Result<(), Stop>
        ensures ok { OnOk result (TakesAll C.meaning C.stands self.old (O.taken out.old) bytes.now self.new (O.taken out.new)) }
        ensures err { IfErr result (TakeStops C.meaning C.stands self.old (O.taken out.old) bytes.now self.new (O.taken out.new)) }
        ensures faults { Counted (IsErrOf result Stop.Output) (O.faults out.old) (O.faults out.new) }
        ensures not_input { IsErrOf result Stop.Input → ⊥ }
    {
        let mut rest = bytes;
        while !rest.is_empty() {
            let taken = match self.advance(rest) {
                Ok(taken) => taken,
                Err(stop) => return Err(Stop::from(stop)),
            };
            rest = rest.split_at(taken).1;
            match self.flush_many(out) {
                Ok(()) => {}
                Err(Failed) => return Err(Stop::Output),
            }
        }
        Ok(())
    }

    // Writes the answers that wait, where they are many.
    fn flush_many<O: Sink>(&mut self, out: &mut O) -> Result<(), Failed>
        ensures ok { OnOk result (WaitsOrWritten C.meaning C.stands self.old (O.taken out.old) self.new (O.taken out.new)) }
        ensures err { OnErr result (AppendsFront (O.taken out.old) self.old.answers (O.taken out.new)) }
        ensures cause { HasCause (O.faults out.old) (O.faults out.new) result }
    {
        if self.answers.len() < MANY {
            return Ok(());
        }
        self.flush(out)
    }

    // Writes the answers that wait.
    pub(crate) fn flush<O: Sink>(&mut self, out: &mut O) -> Result<(), Failed>
        ensures steps { self.new.steps ≡ self.old.steps }
        ensures ok { OnOk result (Flushes self.old (O.taken out.old) self.new (O.taken out.new)) }
        ensures err { OnErr result (AppendsFront (O.taken out.old) self.old.answers (O.taken out.new)) }
        ensures cause { HasCause (O.faults out.old) (O.faults out.new) result }
    {
        match write_all(out, self.answers.as_slice()) {
            Ok(()) => {
                self.answers.clear();
                Ok(())
            }
            Err(Failed) => Err(Failed),
        }
    }
}
