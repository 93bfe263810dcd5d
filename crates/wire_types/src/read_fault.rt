/// Why an item was not read. `at` is the place where the item begins.
#[derive(Clone, Copy, Debug, PartialEq, Eq)]
pub enum ReadFault {
    /// The item needs more bytes than are left.
    Short { at: usize },
    /// The length, or the count, is below -1.
    BadLength { at: usize },
}
