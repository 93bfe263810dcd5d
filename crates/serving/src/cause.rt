// Why a connection ends at a request.
ghost use Rattle.std.specs.Prelude.{◌≡◌};
ghost use Rattle.serving.specs.Causes.{why_of};

use kp_edge::End;

/// Why a connection ends at a request, which waits for the request's number.
#[derive(Clone, Copy, Debug, PartialEq, Eq)]
pub enum Cause {
    /// See [`End::BadHead`].
    BadHead,
    /// See [`End::UnsupportedApi`].
    UnsupportedApi { key: i16, version: i16 },
    /// See [`End::BadBody`].
    BadBody { key: i16, version: i16, at: u64 },
    /// See [`End::TooManyEntries`].
    TooManyEntries { at: u64 },
    /// See [`End::FilterShut`].
    FilterShut { filter: u32, code: u16 },
    /// See [`End::NodeOutOfRange`].
    NodeOutOfRange { node: i32 },
    /// See [`End::NameTooLong`].
    NameTooLong { length: u64 },
    /// See [`End::GrownPast`].
    GrownPast { size: u64 },
    /// See [`End::AskBudget`].
    AskBudget,
    /// See [`End::BrokerBadBody`].
    BrokerBadBody { key: i16, version: i16 },
}

impl Cause {
    /// The end of the connection, for the request with this number.
    pub fn at(self, request: u64) -> End
        ensures { result ≡ why_of self request }
    {
        match self {
            Cause::BadHead => End::BadHead { request },
            Cause::UnsupportedApi { key, version } => End::UnsupportedApi {
                request,
                key,
                version,
            },
            Cause::BadBody { key, version, at } => End::BadBody {
                request,
                key,
                version,
                at,
            },
            Cause::TooManyEntries { at } => End::TooManyEntries { request, at },
            Cause::FilterShut { filter, code } => End::FilterShut {
                request,
                filter,
                code,
            },
            Cause::NodeOutOfRange { node } => End::NodeOutOfRange { request, node },
            Cause::NameTooLong { length } => End::NameTooLong { request, length },
            Cause::GrownPast { size } => End::GrownPast { request, size },
            Cause::AskBudget => End::AskBudget { request },
            Cause::BrokerBadBody { key, version } => End::BrokerBadBody {
                request,
                key,
                version,
            },
        }
    }
}
