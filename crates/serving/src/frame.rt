// A frame as it goes out.
ghost use Rattle.std.specs.Prelude.{◌≡◌, ◌≤◌, ◌+◌, ◌-◌, ◌<◌, ◌^◌, ◌++◌, length, drop, IfOk};
ghost use Rattle.framing.specs.Frames.{sized};
ghost use Rattle.serving.specs.Frames.{IsWhole};

use bytes::Bytes;
use kp_edge::NoMemory;
use std::alloc::Global;

/// One frame behind its size, which an INT32 can say.
#[derive(Drop)]
pub struct WholeFrame {
    pub bytes: Bytes,
    pub ghost whole: { IsWhole bytes },
}

impl WholeFrame {
    /// The frame of these three parts, one after another. A size that INT32 can't hold is answered as want of memory.
    pub fn of_parts(
        alloc: Global,
        before: &[u8],
        id: [u8; 4],
        behind: &[u8],
    ) -> Result<WholeFrame, NoMemory>
        requires { length before.now + length behind.now < 2 ^ 64 - 8 }
        ensures { IfOk result (λ frame. frame.bytes ≡ sized (before.now ++ id ++ behind.now)) }
    {
        let Ok(size) = i32::try_from(before.len() + 4 + behind.len()) else {
            return Err(NoMemory);
        };
        let mut frame = Vec::with_capacity(alloc, before.len() + 8 + behind.len())?;
        frame.extend_from_slice(&size.to_be_bytes())?;
        frame.extend_from_slice(before)?;
        frame.extend_from_slice(&id)?;
        frame.extend_from_slice(behind)?;
        let bytes = Bytes::from_vec(frame)?;
        Ok(WholeFrame { bytes })
    }

    /// The frame of these two parts and of what stands behind the first twelve bytes of `draft`. It takes the place of
    /// the draft, so nothing behind those twelve is copied. A size that INT32 can't hold is answered as want of memory.
    pub(crate) fn of_draft(
        before: [u8; 4],
        id: [u8; 4],
        draft: Vec<u8>,
    ) -> Result<WholeFrame, NoMemory>
        requires { 12 ≤ length draft.items }
        ensures { IfOk result (λ frame. frame.bytes ≡ sized (before ++ id ++ drop 12 draft.items)) }
    {
        let Ok(size) = i32::try_from(draft.len() - 4) else {
            return Err(NoMemory);
        };
        let mut frame = draft;
        put_head(
            frame.as_mut_slice(),
            &head_of(size.to_be_bytes(), before, id),
        );
        let bytes = Bytes::from_vec(frame)?;
        Ok(WholeFrame { bytes })
    }
}

fn put_head(frame: &mut [u8], head: &[u8; 12])
    requires { 12 ≤ length frame.old }
    ensures { frame.new ≡ head.now ++ drop 12 frame.old }
{
    frame.split_at_mut(12).0.copy_from_slice(head);
}

fn head_of(size: [u8; 4], before: [u8; 4], id: [u8; 4]) -> [u8; 12]
    ensures { result ≡ size ++ before ++ id }
{
    [
        size[0], size[1], size[2], size[3], before[0], before[1], before[2], before[3], id[0],
        id[1], id[2], id[3],
    ]
}
