// What is written behind the answers, and the status.
ghost use Rattle.std.specs.Prelude.{◌≡◌, ◌+◌, Ok, IsErrOf};
ghost use Rattle.kp_edge.specs.Counts.{Counted};

use crate::replay::Replay;
use crate::status::Status;
use crate::stop::Stop;
use conn_rules::Connection;
use kp_edge::{Failed, Sink};

impl<C: Connection, L> Replay<C, L> {
    ghost use Rattle.proxy_main.specs.Replayed.{IsStatusOfReplay};
    ghost use Rattle.proxy_main.specs.Written.{Concludes, WritesOut, Refuses};
    ghost use Rattle.proxy_main.specs.Scripts.{bad_line_text, too_long_text};

    // Writes what waits, and behind it why the script was refused, if it was.
    pub(crate) fn conclude<O: Sink>(&mut self, read: Result<(), Stop>, out: &mut O) -> Status
        ensures concludes { Concludes self.old read (O.taken out.old) (O.taken out.new) result }
        ensures steps { self.new.steps ≡ self.old.steps }
        ensures statuses { IsStatusOfReplay result }
        ensures done { result ≡ Status.Done → read ≡ Ok tt }
        ensures input_fault { IsErrOf read Stop.Input → result ≡ Status.InputFault }
        ensures only_input { result ≡ Status.InputFault → IsErrOf read Stop.Input }
        ensures output_fault { IsErrOf read Stop.Output → (result ≡ Status.OutputFault) × (O.faults out.new ≡ O.faults out.old) }
        ensures faults { ¬ IsErrOf read Stop.Output → Counted (result ≡ Status.OutputFault) (O.faults out.old) (O.faults out.new) }
    {
        match read {
            Ok(()) => self.write_out(Status::Done, out),
            Err(Stop::BadLine) => {
                let status = self.refuse_line();
                self.write_out(status, out)
            }
            Err(Stop::TooLong) => {
                let status = self.refuse_script();
                self.write_out(status, out)
            }
            Err(Stop::Input) => Status::InputFault,
            Err(Stop::Output) => Status::OutputFault,
            Err(Stop::NoMemory) => self.write_out(Status::NoMemory, out),
        }
    }

    // Writes what waits, with this status unless a write fails.
    fn write_out<O: Sink>(&mut self, status: Status, out: &mut O) -> Status
        ensures steps { self.new.steps ≡ self.old.steps }
        ensures written { WritesOut self.old.answers status (O.taken out.old) (O.taken out.new) result }
        ensures not_input { result ≡ Status.InputFault → status ≡ Status.InputFault }
        ensures faults { ¬ (status ≡ Status.OutputFault) → Counted (result ≡ Status.OutputFault) (O.faults out.old) (O.faults out.new) }
    {
        match self.flush(out) {
            Ok(()) => status,
            Err(Failed) => Status::OutputFault,
        }
    }

    // Puts behind the answers which line says nothing.
    fn refuse_line(&mut self) -> Status
        ensures refused { Refuses self.old.answers (bad_line_text (self.old.lines + 1)) self.new.answers result }
        ensures steps { self.new.steps ≡ self.old.steps }
    {
        let Some(number) = self.lines.checked_add(1) else {
            return Status::NoMemory;
        };
        match format!(in self.alloc; "bad line {number}\n") {
            Ok(text) => self.put(text.as_bytes()),
            Err(_) => Status::NoMemory,
        }
    }

    // Puts behind the answers that the script is too long.
    fn refuse_script(&mut self) -> Status
        ensures refused { Refuses self.old.answers too_long_text self.new.answers result }
        ensures steps { self.new.steps ≡ self.old.steps }
    {
        self.put(b"too-long\n")
    }

    fn put(&mut self, text: &[u8]) -> Status
        ensures refused { Refuses self.old.answers text.now self.new.answers result }
        ensures steps { self.new.steps ≡ self.old.steps }
    {
        match self.answers.put_all(text) {
            Ok(()) => Status::Refused,
            Err(_) => Status::NoMemory,
        }
    }
}
