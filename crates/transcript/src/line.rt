use kp_edge::{Blob, NoMemory};

/// One line of a script: what happens to a connection.
#[derive(Debug, Drop)]
pub enum Line {
    /// A piece of the client's stream.
    Client(Blob),
    /// A piece of the broker's stream.
    Broker(Blob),
    /// The client's stream ends.
    ClientEnd,
    /// The broker's stream ends.
    BrokerEnd,
    /// The next frame for the broker is taken.
    Send,
    /// The next response for the client is taken.
    Emit,
    /// The next hold is taken.
    Pick,
    /// The verdict for ask number `index` of a request.
    Done {
        request: u64,
        index: u32,
        verdict: Blob,
    },
    /// A read of the client's source fails.
    FaultClientRead,
    /// A write to the client's sink fails.
    FaultClientWrite,
    /// A read of the broker's source fails.
    FaultBrokerRead,
    /// A write to the broker's sink fails.
    FaultBrokerWrite,
    /// The authority fails at a request's hold.
    FaultAuthority {
        request: u64,
    },
}

/// Why a line wasn't read.
#[derive(Clone, Copy, Debug, PartialEq, Eq)]
pub enum LineFault {
    /// The text is outside the grammar.
    BadLine,
    NoMemory,
}

impl From<NoMemory> for LineFault {
    ghost use Rattle.std.specs.Prelude.{◌≡◌};
    ghost use Rattle.transcript.specs.declared.line.LineFault.TheVariants.{NoMemory};

    ghost from_gives = { λ _ fault. fault ≡ NoMemory };

    fn from(_refused: NoMemory) -> LineFault {
        LineFault::NoMemory
    }
}
