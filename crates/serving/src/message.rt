ghost use Rattle.std.specs.Prelude.{◌≤◌, length};

/// A message for the broker, without its size and its correlation id.
#[derive(Drop)]
pub struct Message {
    /// What stands before the correlation id: the api key and the api version.
    pub before: [u8; 4],
    /// The broker's frame behind a head that isn't written yet: twelve bytes of any value, and then the client id and the
    /// body. The twelve are for the size, for `before` and for the correlation id, so that none of the others is copied.
    pub draft: Vec<u8>,
    /// It is the request itself on its way, and not one that is asked aside.
    pub main: bool,
    /// It gets a response.
    pub responds: bool,
    pub ghost has_head: { 12 ≤ length draft.items },
}
