//! Why ports cannot be made.

ghost use Rattle.std.specs.Prelude.{◌≡◌, ◌≢◌};
ghost use Rattle.std.specs.IoError.{error_kind, raw_os_error};
ghost use Rattle.iscsi_ports.specs.declared.bind_fault.BindFault.TheVariants as faults;

use std::alloc::{AllocError, AllocFailed};
use std::io;
use std::io::ErrorKind;
use thiserror::Error;

/// Why nothing listens.
#[derive(Clone, Copy, Debug, PartialEq, Eq, Error)]
pub enum BindFault {
    /// The system does not let the address be listened on, and gives this number (errno(3)), or the text is no address
    /// with a port, which has none.
    #[error("the address cannot be listened on")]
    Socket { code: Option<i32> },
    /// An allocation failed.
    #[error("out of memory")]
    Memory,
}

impl From<AllocError> for BindFault {
    ghost from_gives = { λ _ fault. fault ≡ faults.Memory };

    fn from(_error: AllocError) -> BindFault {
        BindFault::Memory
    }
}

impl<T: Drop> From<AllocFailed<T>> for BindFault {
    ghost from_gives = { λ _ fault. fault ≡ faults.Memory };

    fn from(_error: AllocFailed<T>) -> BindFault {
        BindFault::Memory
    }
}

/// Returns the fault that an error of the system stands for.
pub(crate) fn bind_fault(error: &io::Error) -> BindFault
    ensures memory { error_kind error.now ≡ ErrorKind.OutOfMemory → result ≡ faults.Memory }
    ensures other { error_kind error.now ≢ ErrorKind.OutOfMemory → result ≡ faults.Socket (raw_os_error error.now) }
{
    match error.kind() {
        ErrorKind::OutOfMemory => BindFault::Memory,
        _ => BindFault::Socket {
            code: error.raw_os_error(),
        },
    }
}
