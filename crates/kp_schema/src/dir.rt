//! The two directions of an API.

/// Which way a message goes.
#[derive(Clone, Copy, Debug, PartialEq, Eq)]
pub enum Dir {
    /// From a client to a broker.
    Request,
    /// From a broker to a client.
    Response,
}
