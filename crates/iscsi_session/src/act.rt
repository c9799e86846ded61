//! The result of executing a request.

/// What came of executing the next request.
#[derive(Clone, Copy)]
pub(crate) enum Act {
    /// There was none: every request that was taken has been executed.
    Idle,
    /// A request was executed.
    Taken,
    /// A request was executed that ends the session (RFC 7143 §11.14).
    Ended,
}
