/// A filter that waits for what its last move asked for.
#[derive(Drop)]
pub struct Suspended<P: Drop> {
    pub(crate) pending: P,
    /// Whether its request is the main one.
    pub(crate) main: bool,
    /// How many turns it may still have.
    pub(crate) unused: u8,
}
