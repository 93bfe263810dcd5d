// What comes to both connections, and what the plain one answers.
use crate::samples::Sample;
use conn_core::{Fault, Look};
use kp_edge::End;

#[derive(Drop)]
pub enum Event {
    Take(Sample, [u8; 4]),
    // The broker's frame: its correlation id and its body. Whether the body is spelled as the due message wants.
    Answer {
        id: u32,
        body: Vec<u8>,
        whole: bool,
    },
    Complete {
        request: u64,
        index: u32,
        verdict: &'static [u8],
    },
    ClientEnd(u64),
    BrokerEnd(u64),
    Fails(Fault),
    Send,
    Emit,
    Pick,
    Look,
}

#[derive(Drop)]
pub enum Reply {
    Fine,
    // What came goes back.
    Back,
    // The same: so many are in flight and hold so many bytes.
    Full(u32, u64),
    Bytes(Vec<u8>),
    Nothing,
    Later,
    Over(End),
    Ticket(u64, u32),
    Looks(Look),
}
