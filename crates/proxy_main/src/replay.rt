ghost use Rattle.std.specs.Prelude.{◌≡◌, ◌++◌, ◌+◌, ◌<◌, ◌≤◌, [], ◌∷◌, length, take, IfOk, OnOk, OnErr, IsErrOf};
ghost use Rattle.proxy_main.specs.Scripts.{line_limit};

use crate::lines::{LINE_LIMIT, put_answer, read};
use crate::perform::perform;
use crate::stop::LineStop;
use conn_rules::Connection;
use kp_edge::{NoMemory, Steps};
use memchr::memchr;
use session::Station;
use std::alloc::Global;
use std::mem;
use wire_types::Writer;

// A script on its way: a connection, and the bytes of a line that hasn't ended.
#[derive(Drop)]
pub(crate) struct Replay<C, L> {
    pub(crate) alloc: Global,
    pub(crate) station: Station<C>,
    // The steps of its requests, on top of those that were counted before.
    pub(crate) steps: Steps<L>,
    // The answers that wait to be written.
    pub(crate) answers: Writer,
    // What came of a line that hasn't ended: as much as a line may have, and one byte more.
    pub(crate) partial: Vec<u8>,
    // How many lines were answered.
    pub(crate) lines: u64,
}

impl<C: Connection, L> Replay<C, L> {
    ghost use Rattle.conn_rules.specs.Meaning.{Meaning, Lasting};
    ghost use Rattle.conn_rules.specs.State.{opening};
    ghost use Rattle.proxy_main.specs.Scripts.{IsBad};
    ghost use Rattle.proxy_main.specs.Progress.{HasRead, AnswersLine, Advances, Stumbles, EndsLine, EndsBadly, Finishes, FinishesBadly};

    pub(crate) fn new(alloc: Global, connection: C, steps: Steps<L>) -> Replay<C, L>
        ensures start { (M : Meaning) → Lasting M → C.meaning connection ≡ M → C.stands connection opening → HasRead C.meaning C.stands M steps result [] [] }
        ensures pending { result.answers ≡ [] }
    {
        Replay {
            alloc,
            station: Station::new(alloc, connection),
            steps,
            answers: Writer::new(alloc),
            partial: Vec::new(alloc),
            lines: 0,
        }
    }

    // Takes the bytes up to the end of the first line, or all where none ends.
    pub(crate) fn advance(&mut self, bytes: &[u8]) -> Result<usize, LineStop>
        requires { 0 < length bytes.now }
        ensures bound { IfOk result (λ n. (0 < n) × (n ≤ length bytes.now)) }
        ensures ok { IfOk result (λ n. Advances C.meaning C.stands self.old (take n bytes.now) self.new) }
        ensures bad { IsErrOf result LineStop.BadLine → Stumbles C.meaning C.stands self.old bytes.now self.new }
        ensures err { OnErr result (self.new.answers ≡ self.old.answers) }
    {
        match memchr(b'\n', bytes) {
            Some(end) => match self.end_line(bytes.split_at(end).0) {
                Ok(()) => Ok(end + 1),
                Err(stop) => Err(stop),
            },
            None => {
                keep(&mut self.partial, bytes)?;
                Ok(bytes.len())
            }
        }
    }

    // Answers the last line, where it isn't empty.
    pub(crate) fn finish(&mut self) -> Result<(), LineStop>
        ensures ok { OnOk result (Finishes C.meaning C.stands self.old self.new) }
        ensures bad { IsErrOf result LineStop.BadLine → FinishesBadly C.meaning C.stands self.old self.new }
        ensures err { OnErr result (self.new.answers ≡ self.old.answers) }
    {
        if self.partial.is_empty() {
            return Ok(());
        }
        let line = mem::replace(&mut self.partial, Vec::new(self.alloc));
        self.answer(line.as_slice())
    }

    // A line ends with this piece.
    fn end_line(&mut self, piece: &[u8]) -> Result<(), LineStop>
        ensures ok { OnOk result (EndsLine C.meaning C.stands self.old piece.now self.new) }
        ensures bad { IsErrOf result LineStop.BadLine → EndsBadly C.meaning C.stands self.old piece.now self.new }
        ensures err { OnErr result (self.new.answers ≡ self.old.answers) }
    {
        if self.partial.is_empty() {
            return self.answer(piece);
        }
        keep(&mut self.partial, piece)?;
        let line = mem::replace(&mut self.partial, Vec::new(self.alloc));
        self.answer(line.as_slice())
    }

    // Answers one line.
    fn answer(&mut self, line: &[u8]) -> Result<(), LineStop>
        ensures ok { OnOk result (AnswersLine C.meaning C.stands self.old line.now self.new) }
        ensures within { OnOk result (length line.now ≤ line_limit) }
        ensures bad { IsErrOf result LineStop.BadLine → IsBad line.now }
        ensures same { IsErrOf result LineStop.BadLine → self.new ≡ self.old }
        ensures err { OnErr result (self.new.answers ≡ self.old.answers) }
        ensures partial { self.new.partial.items ≡ self.old.partial.items }
    {
        let line = read(self.alloc, line)?;
        let Some(lines) = self.lines.checked_add(1) else {
            return Err(LineStop::NoMemory);
        };
        let answer = perform(&mut self.station, line, &mut self.steps)?;
        put_answer(&mut self.answers, &answer)?;
        self.lines = lines;
        Ok(())
    }
}

// Keeps the piece of a line, as far as it tells how long the line is.
fn keep(partial: &mut Vec<u8>, piece: &[u8]) -> Result<(), NoMemory>
    ensures ok { OnOk result (length partial.old.items ≤ line_limit + 1
        → partial.new.items ≡ take (line_limit + 1) (partial.old.items ++ piece.now)) }
{
    let room = (LINE_LIMIT + 1).saturating_sub(partial.len());
    let kept = room.min(piece.len());
    partial.extend_from_slice(piece.split_at(kept).0)?;
    Ok(())
}
