//! Why words give no command.

use thiserror::Error;

/// Why words give no command.
#[derive(Clone, Copy, Debug, PartialEq, Eq, Error)]
pub enum WordsFault {
    /// The words are no command, or a call for help.
    #[error("the words are no command")]
    Usage,
    /// An allocation failed.
    #[error("out of memory")]
    Memory,
}
