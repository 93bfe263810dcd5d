use kp_schema::Dir;

/// Which message a body is of.
#[derive(Clone, Copy, Drop)]
pub(crate) struct Message {
    pub key: i16,
    pub version: i16,
    pub dir: Dir,
}
