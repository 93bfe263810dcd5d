// What may come to a connection, and what is answered.
use bytes::Bytes;
use kp_edge::{Blob, End, NoMemory};

/// What may come to a connection. Frames are without their size.
#[derive(Drop)]
pub enum Event {
    /// The client's next frame, of eight bytes or more.
    Take(Bytes),
    /// The broker's next frame, of four bytes or more.
    Answer(Bytes),
    /// A verdict for the hold that request `request` waits for with ask number `index`.
    Complete {
        request: u64,
        index: u32,
        verdict: Blob,
    },
    /// The client's stream ended with `rest` bytes of a frame.
    ClientEnd {
        rest: u64,
    },
    /// The broker's stream ended with `rest` bytes of a frame.
    BrokerEnd {
        rest: u64,
    },
    /// Something outside failed.
    Fault(Fault),
    /// The broker's writer asks for the next frame to send.
    Send,
    /// The client's writer asks for the next response.
    Emit,
    /// A completer asks for a hold.
    Pick,
    /// Somebody asks how the connection stands.
    Look,
}

/// What is answered to an event.
#[derive(Drop)]
pub enum Reply {
    Take(Result<(), TakeFault>),
    Answer(Result<(), AnswerFault>),
    Complete(Result<(), CompleteFault>),
    /// To an end or a fault.
    Noted,
    /// The next frame for the broker, with its size.
    Send(Option<Bytes>),
    Emit(Emit),
    Pick(Option<Ticket>),
    Look(Look),
}

/// What failed outside of the connection.
#[derive(Clone, Copy, Debug, PartialEq, Eq)]
pub enum Fault {
    /// A read of the client's stream.
    ClientRead,
    /// A write towards the client.
    ClientWrite,
    /// A read of the broker's stream.
    BrokerRead,
    /// A write towards the broker.
    BrokerWrite,
    /// The client's stream has this size at this place, and it is outside the limits.
    ClientBadSize { at: u64, size: i32 },
    /// The same of the broker's stream.
    BrokerBadSize { at: u64, size: i32 },
    /// The outside authority, asked for this request's hold.
    Authority { request: u64 },
    /// A thread was refused.
    Thread,
    /// Memory ran out outside of the connection.
    NoMemory,
}

/// Why a client frame was not taken.
#[derive(Drop)]
pub enum TakeFault {
    /// The connection is ending. The frame comes back.
    Ending(Bytes),
    /// There is no room: `count` requests are in flight, whose frames have `held` bytes. The frame comes back.
    Full { count: u32, held: u64, frame: Bytes },
    NoMemory,
}

/// Why a broker frame was not taken.
#[derive(Drop)]
pub enum AnswerFault {
    /// The connection is over, or nothing more is read from the broker. The frame comes back.
    Dead(Bytes),
    NoMemory,
}

/// Why a verdict was not taken.
#[derive(Drop)]
pub enum CompleteFault {
    /// Nothing waits for it. The verdict comes back.
    NotWaiting(Blob),
    NoMemory,
}

/// What the client's writer is told.
#[derive(Drop)]
pub enum Emit {
    /// The next response, with its size.
    Bytes(Bytes),
    /// Nothing yet.
    Later,
    /// Nothing ever more, and why.
    Over(End),
}

/// A hold that waits for the outside authority: the request, the number of the ask, and what is asked.
#[derive(Drop)]
pub struct Ticket {
    pub request: u64,
    pub index: u32,
    pub key: Blob,
}

/// How a connection stands.
#[derive(Clone, Copy, Debug, PartialEq, Eq)]
pub struct Look {
    /// An emit step answered `Over`.
    pub over: bool,
    /// Nothing more is read from the broker or sent to it.
    pub dead: bool,
    /// Requests that were taken and not passed by an emit step.
    pub in_flight: u32,
    /// The sum of the sizes of their frames, in bytes.
    pub held: u64,
}
