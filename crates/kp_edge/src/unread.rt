ghost use Rattle.std.specs.Prelude.{◌≡◌, length, min, take, drop};

use crate::Blob;
use std::marker::Model;

// Bytes that are given one after another. Contracts see what is still to come.
#[derive(Debug, Drop)]
pub(crate) struct Unread {
    bytes: Blob,
    at: usize,
}

impl Model for Unread {
    ghost use Rattle.std.specs.Prelude.{List, ℕ, ◌≤◌, length, drop};

    ghost Value = { List ℕ };

    ghost view = { λ s. drop s.at s.bytes };

    ghost invariant = { λ s. s.at ≤ length s.bytes };
}

impl Unread {
    pub(crate) fn new(bytes: Blob) -> Unread
        ensures { result ≡ bytes }
    {
        Unread { bytes, at: 0 }
    }

    // Puts as many of the next bytes at the front of the buffer as fit.
    pub(crate) fn give(&mut self, buf: &mut [u8]) -> usize
        ensures count { result ≡ min (length buf.old) (length self.old) }
        ensures front { take result buf.new ≡ take result self.old }
        ensures rest { drop result buf.new ≡ drop result buf.old }
        ensures coming { self.new ≡ drop result self.old }
    {
        let unread = &self.bytes.as_slice()[self.at..];
        let count = unread.len().min(buf.len());
        buf[..count].copy_from_slice(&unread[..count]);
        self.at += count;
        count
    }
}
