// One line of a script as text, and its answer as text.
ghost use Rattle.std.specs.Prelude.{◌≡◌, ◌≤◌, ◌++◌, [], ◌∷◌, length, take, true, false, IfOk, OnOk, OnErr, IsErrOf};
ghost use Rattle.transcript.specs.Answers.{answer_text};
ghost use Rattle.proxy_main.specs.Scripts.{IsLineText, IsBad, line_limit};

use crate::stop::LineStop;
use kp_edge::NoMemory;
use std::alloc::Global;
use transcript::{Answer, Line, LineFault, print, read_line};
use wire_types::Writer;

// The most bytes of a line without its byte 10.
pub(crate) const LINE_LIMIT: usize = 268_435_456;

// The line that a text is.
pub(crate) fn read(alloc: Global, text: &[u8]) -> Result<Line, LineStop>
    ensures ok { IfOk result (λ line. IsLineText text.now line) }
    ensures bad { IsErrOf result LineStop.BadLine → IsBad text.now }
    ensures no_memory { IsErrOf result LineStop.NoMemory → length text.now ≤ line_limit }
{
    if text.len() > LINE_LIMIT {
        return Err(LineStop::BadLine);
    }
    match read_line(alloc, text) {
        Ok(line) => Ok(line),
        Err(LineFault::BadLine) => Err(LineStop::BadLine),
        Err(LineFault::NoMemory) => Err(LineStop::NoMemory),
    }
}

// Appends the answer and its byte 10, or nothing.
pub(crate) fn put_answer(text: &mut Writer, answer: &Answer) -> Result<(), NoMemory>
    ensures ok { OnOk result (text.new ≡ text.old ++ (answer_text answer.now ++ 10 ∷ [])) }
    ensures err { OnErr result (text.new ≡ text.old) }
{
    let start = text.len();
    match put_line(text, answer) {
        Ok(()) => Ok(()),
        Err(NoMemory) => {
            text.truncate(start);
            Err(NoMemory)
        }
    }
}

// The same, but for want of memory a front of it may stand there.
fn put_line(text: &mut Writer, answer: &Answer) -> Result<(), NoMemory>
    ensures ok { OnOk result (text.new ≡ text.old ++ (answer_text answer.now ++ 10 ∷ [])) }
    ensures err { OnErr result (take (length text.old) text.new ≡ text.old) }
{
    match print(answer, text) {
        Ok(()) => {}
        Err(NoMemory) => return Err(NoMemory),
    }
    match text.put_all(b"\n") {
        Ok(()) => Ok(()),
        Err(_) => Err(NoMemory),
    }
}
