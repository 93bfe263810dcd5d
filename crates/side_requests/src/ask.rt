use kp_edge::Blob;
use tree_codec::Body;

/// What a request waits for.
#[derive(Drop)]
pub enum Ask {
    /// The broker's answer to this message. `main` says that it is the request itself on its way, and not one that
    /// a filter asks aside.
    Broker { request: Body, main: bool },
    /// An authority's verdict on this key, for the filter with this number. The filter nearest the client has 0.
    Hold { filter: u32, key: Blob },
}
