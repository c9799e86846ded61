//! What an ABORT TASK finds.

/// What an ABORT TASK finds for the task that it refers to (RFC 7143 §11.6.1).
#[derive(Clone, Copy)]
pub enum Aborted {
    /// A command that is not finished.
    Live,
    /// No command, and the number that it refers to has not come.
    Missing,
    /// A number that was plugged.
    Plugged,
    /// None of these.
    Nothing,
}
