ghost use Rattle.std.specs.Prelude.{◌≡◌, ℕ, ◌+◌, ◌<◌, ◌≤◌, ◌^◌, ◌↔◌, ℤ, pos, [], ◌++◌, length, take, drop, Some, IfSome, IfNone, MatchBool, IsOk, IfOk, OnOk, OnErr};
ghost use Rattle.wire_types.specs.Numbers.{int32};
ghost use Rattle.framing.specs.Frames.{BeginsFrame, IsPartial, IsTail, bad_size, size_at, outside};
ghost use Rattle.framing.specs.Answers.{TakesFrame, IfFrame, UnlessFrame, IfBadSize};

use crate::next::Next;
use bytes::{Bytes, BytesMut};
use std::alloc::Global;
use std::marker::Model;
use wire_types::{NoMemory, Reader};

// A size is an INT32.
const SIZE: usize = 4;

// From this length on, a frame that is all of the rest keeps its place in memory.
const LARGE: usize = 64 * 1024;

/// Pieces of a stream in, frames out.
///
/// A piece is copied in once, and a frame is copied out at most once, so that feeding a stream and
/// taking its frames costs time linear in its bytes, however it is cut into pieces and whatever the
/// order of the calls. Memory is taken only for bytes that were fed, never for what a size says.
#[derive(Drop)]
pub struct Framer {
    alloc: Global,
    least: u32,
    most: u32,
    at: u64,
    rest: BytesMut,
}

impl Model for Framer {
    ghost use Rattle.framing.specs.Feed.{Feed};

    ghost Value = { Feed };

    ghost view = { λ framer. record {
      least = framer.least;
      most = framer.most;
      at = framer.at;
      rest = framer.rest.items;
    } };
}

impl Framer {
    /// A framer at the start of a stream whose frames have from `least` to `most` bytes, the four of
    /// the size not counted. It allocates nothing.
    pub fn new(alloc: Global, least: u32, most: u32) -> Framer
        ensures { result ≡ record { least = least; most = most; at = 0; rest = [] } }
    {
        Framer {
            alloc,
            least,
            most,
            at: 0,
            rest: BytesMut::new(alloc),
        }
    }

    /// How many bytes were fed that no frame holds which was given.
    pub fn rest(&self) -> u64
        ensures { result ≡ length self.now.rest }
    {
        self.rest.len() as u64
    }

    /// Whether a whole frame within the limits comes next. Else the rest is a tail of the stream so far. It takes
    /// no memory.
    pub fn has_frame(&self) -> bool
        ensures { MatchBool result (BeginsFrame self.now.least self.now.most self.now.rest)
            (IsTail self.now.least self.now.most self.now.rest) }
    {
        let Some(size) = self.size() else {
            return false;
        };
        let Some(length) = self.allowed(size) else {
            return false;
        };
        SIZE + length <= self.rest.len()
    }

    /// Takes the next piece of the stream.
    pub fn feed(&mut self, piece: &[u8]) -> Result<(), NoMemory>
        ensures ok { OnOk result
            (self.new ≡ record self.old { rest = self.old.rest ++ piece.now }) }
        ensures nothing { piece.now ≡ [] → IsOk result }
        ensures err { OnErr result (self.new ≡ self.old) }
    {
        self.rest.extend_from_slice(piece)?;
        Ok(())
    }

    /// Gives what comes next. A bad size is given ever after. `NoMemory` also stands for a place that
    /// would pass 2^64 - 1.
    pub fn next(&mut self) -> Result<Next, NoMemory>
        // A frame is given once, in its place.
        ensures frame { IfFrame result (λ frame. TakesFrame self.old frame self.new) }

        // Which other answer comes is told by the rest alone.
        ensures wait { (result ≡ Ok Next.Wait)
            ↔ IsPartial self.old.least self.old.most self.old.rest }
        ensures bad_size { IfBadSize result (λ at size. (at ≡ self.old.at)
            × (bad_size self.old.least self.old.most self.old.rest ≡ Some size)) }
        ensures each_bad_size { (size : ℤ)
            → bad_size self.old.least self.old.most self.old.rest ≡ Some size
            → result ≡ Ok (Next.BadSize self.old.at size) }

        // Memory is wanted for a frame alone.
        ensures no_memory { OnErr result (BeginsFrame self.old.least self.old.most self.old.rest) }
        ensures kept { UnlessFrame result (self.new ≡ self.old) }
    {
        let Some(size) = self.size() else {
            return Ok(Next::Wait);
        };
        let Some(length) = self.allowed(size) else {
            return Ok(Next::BadSize { at: self.at, size });
        };
        if self.rest.len() < SIZE + length {
            return Ok(Next::Wait);
        }
        Ok(Next::Frame(self.take(length)?))
    }

    // The size at the front, if it is whole.
    fn size(&self) -> Option<i32>
        ensures value { result ≡ size_at self.now.rest }
        ensures spelled { IfSome result
            (λ size. self.now.rest ≡ int32 size ++ drop 4 self.now.rest) }
    {
        Reader::new(self.rest.as_slice()).i32().ok()
    }

    // The size as a number of bytes, if it is within the limits.
    fn allowed(&self, size: i32) -> Option<usize>
        ensures allowed { IfSome result (λ length. (size ≡ pos length) × (length < 2 ^ 31)
            × (self.now.least ≤ length) × (length ≤ self.now.most)) }
        ensures outside { IfNone result
            (outside self.now.least self.now.most (Some size) ≡ Some size) }
    {
        let wide = i64::from(size);
        if wide < i64::from(self.least) || i64::from(self.most) < wide {
            return None;
        }
        Some(size as usize)
    }

    // Takes the size at the front and the frame behind it, which has `size` bytes.
    fn take(&mut self, size: usize) -> Result<Bytes, NoMemory>
        requires small { size < 2 ^ 31 }
        requires fed { 4 + size ≤ length self.old.rest }
        ensures frame { IfOk result (λ frame. frame ≡ take size (drop 4 self.old.rest)) }
        ensures ok { OnOk result (self.new ≡ record self.old {
          at = self.old.at + 4 + size;
          rest = drop (4 + size) self.old.rest;
        }) }
        ensures err { OnErr result (self.new ≡ self.old) }
    {
        let Some(at) = self.at.checked_add((SIZE + size) as u64) else {
            return Err(NoMemory);
        };
        let frame = self.take_front(size)?;
        self.at = at;
        Ok(frame)
    }

    // A large frame that is all of the rest takes the block with it. Another one is copied.
    fn take_front(&mut self, size: usize) -> Result<Bytes, NoMemory>
        requires small { size < 2 ^ 31 }
        requires fed { 4 + size ≤ length self.old.rest }
        ensures frame { IfOk result (λ frame. frame ≡ take size (drop 4 self.old.rest)) }
        ensures ok { OnOk result
            (self.new ≡ record self.old { rest = drop (4 + size) self.old.rest }) }
        ensures err { OnErr result (self.new ≡ self.old) }
    {
        let end = SIZE + size;
        if LARGE <= size && end == self.rest.len() {
            let mut frame = self.rest.freeze_to(end)?;
            frame.advance(SIZE);
            self.rest = BytesMut::new(self.alloc);
            return Ok(frame);
        }
        let frame = Bytes::copy_from_slice(self.alloc, &self.rest.as_slice()[SIZE..end])?;
        self.rest.advance(end);
        Ok(frame)
    }
}
