// A whole script, replayed over a connection.
ghost use Rattle.std.specs.Prelude.{◌≡◌, ℕ, List, [], Some};
ghost use Rattle.kp_edge.specs.Counts.{BothCounted};
ghost use Rattle.conn_rules.specs.Meaning.{Meaning, Lasting};
ghost use Rattle.conn_rules.specs.State.{opening};
ghost use Rattle.proxy_main.specs.Output.{Appends};
ghost use Rattle.proxy_main.specs.Scripts.{ReadSoFar, piece_limit};
ghost use Rattle.proxy_main.specs.Replayed.{Replays, IsStatusOfReplay};

use crate::replay::Replay;
use crate::status::Status;
use conn_rules::Connection;
use kp_edge::{Sink, Source, Steps};
use std::alloc::Global;
use std::mem;

// How many bytes of a script are read at a time, at most.
const PIECE: usize = 65_536;

// Runs the script on the input over this connection, to which nothing came yet. Its steps are counted in `steps`.
pub(crate) fn replay<C: Connection, I: Source, O: Sink, L>(
    alloc: Global,
    connection: C,
    input: &mut I,
    out: &mut O,
    steps: &mut Steps<L>,
) -> Status
    ensures text { (M : Meaning) → Lasting M → C.meaning connection ≡ M → C.stands connection opening → (script : List ℕ) → I.coming input.old ≡ Some script
        → (written : List ℕ) × Appends (O.taken out.old) written (O.taken out.new) × Replays M script (I.coming input.new) written steps.old steps.new result }
    ensures statuses { IsStatusOfReplay result }
    ensures so_far { (script : List ℕ) → I.coming input.old ≡ Some script → ReadSoFar piece_limit script (I.coming input.new) }
    ensures read { (M : Meaning) → Lasting M → C.meaning connection ≡ M → C.stands connection opening → result ≡ Status.Done → (script : List ℕ) → I.coming input.old ≡ Some script → I.coming input.new ≡ Some [] }
    ensures faults { BothCounted (result ≡ Status.InputFault) (result ≡ Status.OutputFault) (I.faults input.old) (I.faults input.new) (O.faults out.old) (O.faults out.new) }
{
    let mut buffer = match vec![in alloc; 0u8; PIECE] {
        Ok(buffer) => buffer,
        Err(_) => return Status::NoMemory,
    };
    let counted = mem::replace(steps, Steps::new());
    let mut replay = Replay::new(alloc, connection, counted);
    let read = replay.read_all(buffer.as_mut_slice(), input, out);
    let status = replay.conclude(read, out);
    mem::swap(steps, &mut replay.steps);
    status
}
