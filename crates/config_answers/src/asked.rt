/// What is asked of a configuration.
#[derive(Clone, Copy, Debug, PartialEq, Eq)]
pub enum Asked {
    /// How many clusters it has.
    Check,
    /// Which port leads where.
    Plan,
}
