/// Whose a send is.
#[derive(Clone, Copy, Debug, PartialEq, Eq)]
pub struct Owner {
    /// The request that it serves.
    pub request: u64,
    /// It is that request itself on its way, and not one that a filter asks aside.
    pub main: bool,
    /// It gets no response, as a Produce with acks 0.
    pub silent: bool,
    /// The api key and the api version of the send, as they stand in its frame.
    pub before: [u8; 4],
}

/// Why a broker's frame belongs to no send.
#[derive(Clone, Copy, Debug, PartialEq, Eq)]
pub enum AnswerRefusal {
    /// No send waits for one.
    Unasked { found: i32 },
    /// The send that is due has another correlation id.
    Mismatch { expected: i32, found: i32 },
}

// A send that gets a response and has none yet, by its number.
#[derive(Clone, Copy)]
pub(crate) struct Numbered {
    pub(crate) number: u64,
    pub(crate) owner: Owner,
}
