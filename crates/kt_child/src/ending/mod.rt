//! The reads and the removal after a child has finished.

pub(crate) mod ends;
pub(crate) mod gathering;
pub(crate) mod parts;

/// A result of reading a whole file in parts.
#[derive(Clone, Copy)]
pub(crate) enum PartsResult {
    /// The file is missing.
    Missing,
    /// A read or an allocation failed, the file vanished after its first part, or a read before the
    /// end of the file returned no bytes.
    Unreadable,
    /// The file has more bytes than the limit of the read, so it was not read to its end.
    TooLong,
    /// The whole file was read.
    Complete,
}
