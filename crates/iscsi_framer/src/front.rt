//! What stands in front of the bytes of a connection.

/// What stands in front of the bytes of a connection.
#[derive(Clone, Copy)]
pub enum Front {
    /// Less than a frame.
    Part,
    /// A whole frame, and no byte after it.
    Alone,
    /// A whole frame, and bytes after it.
    Followed,
    /// A header that names too much data.
    TooLong,
}
