ghost use Rattle.std.specs.Prelude.{Some};

use std::fmt;

/// Why a connection ended.
///
/// The first group cuts the client's stream: the requests before the cut are still served. The second
/// is the death of the broker's side: what was answered before it still goes out. The third halts at
/// once. Requests are numbered from 0, as the client's frames were accepted.
#[derive(Clone, Copy, Debug, PartialEq, Eq)]
pub enum End {
    /// The client's stream ended at a frame's end.
    Ended,
    /// It ended with `rest` bytes of a frame.
    ClientTorn {
        rest: u64,
    },
    /// The client's frame at byte `at` of its stream has a size outside the limits.
    BadSize {
        at: u64,
        size: i32,
    },
    /// A request's header is no request header.
    BadHead {
        request: u64,
    },
    /// A request of an API or version that isn't served.
    UnsupportedApi {
        request: u64,
        key: i16,
        version: i16,
    },
    /// A request's body isn't spelled as its version is, at byte `at` of the body.
    BadBody {
        request: u64,
        key: i16,
        version: i16,
        at: u64,
    },
    /// A request's body has more array entries than the limit, at byte `at` of the body.
    TooManyEntries {
        request: u64,
        at: u64,
    },
    /// A read of the client's source failed.
    ClientReadFault,
    /// A filter shut the connection with a code.
    FilterShut {
        request: u64,
        filter: u32,
        code: u16,
    },
    /// A response names a node that the plan has no port for.
    NodeOutOfRange {
        request: u64,
        node: i32,
    },
    /// A name is too long with the tenant's prefix.
    NameTooLong {
        request: u64,
        length: u64,
    },
    /// A frame grew past the limit on frames that go out.
    GrownPast {
        request: u64,
        size: u64,
    },
    /// The filters asked the outside too often for one request.
    AskBudget {
        request: u64,
    },
    /// The body of an answer isn't spelled as its send asks, or has too many array entries.
    BrokerBadBody {
        request: u64,
        key: i16,
        version: i16,
    },
    /// The authority that was asked for a request failed.
    AuthorityFault {
        request: u64,
    },

    /// The broker's stream ended at a frame's end, while this many sends waited for an answer.
    BrokerEnd {
        waiting: u64,
    },
    /// It ended with `rest` bytes of a frame.
    BrokerTorn {
        rest: u64,
    },
    /// The broker's frame at byte `at` of its stream has a size outside the limits.
    BrokerBadSize {
        at: u64,
        size: i32,
    },
    /// A broker's frame came while no send waited for an answer.
    Unasked {
        found: i32,
    },
    /// A broker's frame has another correlation id than the send that is due.
    Mismatch {
        expected: i32,
        found: i32,
    },
    /// A read of the broker's source failed.
    BrokerReadFault,
    /// A write to the broker's sink failed.
    BrokerWriteFault,

    /// A write to the client's sink failed.
    ClientWriteFault,
    /// A thread wasn't to be had.
    ThreadRefused,
    /// Memory ran out.
    NoMemory,
}

impl fmt::Display for End {
    ghost use Rattle.kp_edge.specs.End.{end_text};

    ghost output = { λ end. Some (end_text end) };

    fn fmt<W: fmt::Write>(&self, f: &mut fmt::Formatter<W>) -> fmt::Result {
        match *self {
            End::Ended => write!(f, "ended"),
            End::ClientTorn { rest } => write!(f, "client-torn rest={rest}"),
            End::BadSize { at, size } => write!(f, "bad-size at={at} size={size}"),
            End::BadHead { request } => write!(f, "bad-head request={request}"),
            End::UnsupportedApi {
                request,
                key,
                version,
            } => write!(
                f,
                "unsupported request={request} key={key} version={version}"
            ),
            End::BadBody {
                request,
                key,
                version,
                at,
            } => write!(
                f,
                "bad-body request={request} key={key} version={version} at={at}"
            ),
            End::TooManyEntries { request, at } => write!(
                f,
                "too-many-entries request={request} at={at}"
            ),
            End::ClientReadFault => write!(f, "client-read-fault"),
            End::FilterShut {
                request,
                filter,
                code,
            } => write!(
                f,
                "filter-shut request={request} filter={filter} code={code}"
            ),
            End::NodeOutOfRange { request, node } => write!(
                f,
                "node-out-of-range request={request} node={node}"
            ),
            End::NameTooLong { request, length } => write!(
                f,
                "name-too-long request={request} length={length}"
            ),
            End::GrownPast { request, size } => write!(
                f,
                "grown-past request={request} size={size}"
            ),
            End::AskBudget { request } => write!(f, "ask-budget request={request}"),
            End::BrokerBadBody {
                request,
                key,
                version,
            } => write!(
                f,
                "broker-bad-body request={request} key={key} version={version}"
            ),
            End::AuthorityFault { request } => write!(f, "authority-fault request={request}"),
            End::BrokerEnd { waiting } => write!(f, "broker-end waiting={waiting}"),
            End::BrokerTorn { rest } => write!(f, "broker-torn rest={rest}"),
            End::BrokerBadSize { at, size } => write!(f, "broker-bad-size at={at} size={size}"),
            End::Unasked { found } => write!(f, "unasked found={found}"),
            End::Mismatch { expected, found } => write!(
                f,
                "mismatch expected={expected} found={found}"
            ),
            End::BrokerReadFault => write!(f, "broker-read-fault"),
            End::BrokerWriteFault => write!(f, "broker-write-fault"),
            End::ClientWriteFault => write!(f, "client-write-fault"),
            End::ThreadRefused => write!(f, "thread-refused"),
            End::NoMemory => write!(f, "no-memory"),
        }
    }
}
