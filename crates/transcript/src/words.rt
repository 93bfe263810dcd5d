ghost use Rattle.std.specs.Prelude.{◌≡◌, ◌+◌, ◌≤◌, ◌↔◌, [], ◌++◌, length, IsOk, OnErr};
ghost use Rattle.transcript.specs.declared.words.TheConstants.{ROOM};

use std::fmt;
use std::marker::Model;

/// Room for the words of any answer, but for its bytes.
const ROOM: usize = 160;

/// The words of an answer while they are written, on the stack.
#[derive(Drop)]
pub struct Words {
    bytes: [u8; ROOM],
    len: usize,
}

impl Model for Words {
    ghost use Rattle.std.specs.Prelude.{ℕ, List, ◌≤◌, take};
    ghost use Rattle.transcript.specs.declared.words.TheConstants.{ROOM};

    ghost Value = { List ℕ };

    ghost view = { λ w. take w.len w.bytes };

    ghost invariant = { λ w. w.len ≤ ROOM };
}

impl Words {
    pub fn new() -> Words
        ensures { result ≡ [] }
    {
        Words {
            bytes: [0; ROOM],
            len: 0,
        }
    }

    pub fn as_slice(&self) -> &[u8]
        ensures { result.now ≡ self.now }
    {
        &self.bytes[..self.len]
    }
}

impl fmt::Write for Words {
    ghost write_str_gives = { λ before text after. after ≡ before ++ text };

    fn write_str(&mut self, s: &str) -> fmt::Result
        ensures ok { IsOk result → self.new ≡ self.old ++ s.now }
        ensures fits { IsOk result ↔ (length self.old + length s.now ≤ ROOM) }
        ensures err { OnErr result (self.new ≡ self.old) }
    {
        let text = s.as_bytes();
        if text.len() > ROOM - self.len {
            return Err(fmt::Error);
        }
        let end = self.len + text.len();
        self.bytes[self.len..end].copy_from_slice(text);
        self.len = end;
        Ok(())
    }
}
