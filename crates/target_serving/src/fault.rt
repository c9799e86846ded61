//! How a run ends if it does not reach the end of its input or of its turns.

ghost use Rattle.std.specs.Prelude.{◌≡◌, Result};
ghost use Rattle.target_serving.specs.Fault.{status_of as exit_status, words_fault, config_fault, opening_fault, replay_fault, bind_fault};
ghost use Rattle.target_serving.specs.declared.fault.Fault.TheVariants.{OutOfMemory, Socket};

use command_line::WordsFault;
use iscsi_ports::BindFault;
use iscsi_serve::ServeFault;
use iscsi_target::Memory;
use std::alloc::{AllocError, AllocFailed};
use target_config::ConfigFault;
use target_replay::ReplayFault;
use target_units::OpenFault;
use thiserror::Error;

/// Why the run ended. Its text is its line on standard error.
#[derive(Debug, Drop, Error)]
pub enum Fault {
    /// The configuration cannot be used; `number` says why.
    #[error("targetd: configuration fault {number}")]
    Configuration { number: u8 },
    /// The words are no command.
    #[error("targetd: usage")]
    Usage,
    /// A line of the input, counted from 1, is malformed or breaks a condition.
    #[error("targetd: line {line} refused")]
    Refused { line: u64 },
    /// A unit of a target cannot be opened.
    #[error("targetd: device fault at {target} unit {lun}")]
    Device { target: String, lun: u8 },
    /// The program cannot listen on the address, or the sockets failed.
    #[error("targetd: socket fault")]
    Socket,
    /// Standard input failed, or had no end.
    #[error("targetd: stream fault")]
    Input,
    /// Standard output failed.
    #[error("targetd: stream fault")]
    Output,
    /// A standard stream was closed, and nothing can stand in for it.
    #[error("targetd: stream fault")]
    Streams,
    /// An allocation failed.
    #[error("targetd: out of memory")]
    OutOfMemory,
}

/// Returns the exit status of the program after a run that ended so.
pub fn status_of(ended: &Result<(), Fault>) -> u8
    ensures { result ≡ exit_status ended.now }
{
    match ended {
        Ok(()) => 0,
        Err(Fault::Configuration { .. }) => 1,
        Err(Fault::Usage | Fault::Refused { .. }) => 2,
        Err(Fault::Device { .. } | Fault::Socket) => 3,
        Err(Fault::Input | Fault::Output | Fault::Streams | Fault::OutOfMemory) => 3,
    }
}

impl From<AllocError> for Fault {
    ghost from_gives = { λ _ fault. fault ≡ OutOfMemory };

    fn from(_error: AllocError) -> Fault {
        Fault::OutOfMemory
    }
}

impl<T: Drop> From<AllocFailed<T>> for Fault {
    ghost from_gives = { λ _ fault. fault ≡ OutOfMemory };

    fn from(_error: AllocFailed<T>) -> Fault {
        Fault::OutOfMemory
    }
}

impl From<Memory> for Fault {
    ghost from_gives = { λ _ fault. fault ≡ OutOfMemory };

    fn from(_error: Memory) -> Fault {
        Fault::OutOfMemory
    }
}

impl From<WordsFault> for Fault {
    ghost from_gives = { λ error fault. fault ≡ words_fault error };

    fn from(error: WordsFault) -> Fault {
        match error {
            WordsFault::Usage => Fault::Usage,
            WordsFault::Memory => Fault::OutOfMemory,
        }
    }
}

impl From<ConfigFault> for Fault {
    ghost from_gives = { λ error fault. fault ≡ config_fault error };

    fn from(error: ConfigFault) -> Fault {
        match error.number() {
            Some(number) => Fault::Configuration { number },
            None => Fault::OutOfMemory,
        }
    }
}

impl From<OpenFault> for Fault {
    ghost from_gives = { λ error fault. fault ≡ opening_fault error };

    fn from(error: OpenFault) -> Fault {
        match error {
            OpenFault::Device { target, lun, .. } => Fault::Device { target, lun },
            OpenFault::Memory => Fault::OutOfMemory,
        }
    }
}

impl From<ReplayFault> for Fault {
    ghost from_gives = { λ error fault. fault ≡ replay_fault error };

    fn from(error: ReplayFault) -> Fault {
        match error {
            ReplayFault::Refused { line } => Fault::Refused { line },
            ReplayFault::Input => Fault::Input,
            ReplayFault::Output => Fault::Output,
            ReplayFault::OutOfMemory => Fault::OutOfMemory,
        }
    }
}

impl From<BindFault> for Fault {
    ghost from_gives = { λ error fault. fault ≡ bind_fault error };

    fn from(error: BindFault) -> Fault {
        match error {
            BindFault::Socket { .. } => Fault::Socket,
            BindFault::Memory => Fault::OutOfMemory,
        }
    }
}

impl From<ServeFault> for Fault {
    ghost from_gives = { λ _ fault. fault ≡ Socket };

    fn from(_error: ServeFault) -> Fault {
        Fault::Socket
    }
}
