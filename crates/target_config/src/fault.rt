//! Why a configuration cannot be used.

ghost use Rattle.std.specs.Prelude.{◌≡◌};
ghost use Rattle.toml.specs.Errors.{IsMemory};
ghost use Rattle.target_config.specs.Fault.{number_of};
ghost use Rattle.target_config.specs.declared.fault.ConfigFault.TheVariants.{NotToml, OutOfMemory};

use std::alloc::{AllocError, AllocFailed};
use thiserror::Error;

/// Why there is no configuration. If there are several faults, the one that comes first here is reported.
#[derive(Clone, Copy, Debug, PartialEq, Eq, Error)]
pub enum ConfigFault {
    /// The file cannot be read, or has more than 1 MiB.
    #[error("the file cannot be read, or has more than 1 MiB")]
    Unreadable,
    /// The file is not UTF-8, or not TOML.
    #[error("the file is not TOML")]
    NotToml,
    /// A field is missing, of the wrong type, or outside its range.
    #[error("a field is missing, of the wrong type, or outside its range")]
    Field,
    /// A limit is exceeded.
    #[error("a limit is passed")]
    Limit,
    /// A target's name, a LUN of one target, or a file comes twice.
    #[error("a name, a LUN or a file comes twice")]
    Twice,
    /// A target has no LUN 0.
    #[error("a target has no LUN 0")]
    NoLunZero,
    /// An allocation failed.
    #[error("out of memory")]
    OutOfMemory,
}

impl ConfigFault {
    /// Returns the number of the fault, 1 to 6. A failed allocation has none.
    pub fn number(self) -> Option<u8>
        ensures { result ≡ number_of self }
    {
        match self {
            ConfigFault::Unreadable => Some(1),
            ConfigFault::NotToml => Some(2),
            ConfigFault::Field => Some(3),
            ConfigFault::Limit => Some(4),
            ConfigFault::Twice => Some(5),
            ConfigFault::NoLunZero => Some(6),
            ConfigFault::OutOfMemory => None,
        }
    }
}

impl From<toml::de::Error> for ConfigFault {
    ghost from_gives = { λ error fault. (IsMemory error → fault ≡ OutOfMemory) × (¬ (IsMemory error) → fault ≡ NotToml) };

    fn from(error: toml::de::Error) -> ConfigFault {
        if error.is_memory() {
            ConfigFault::OutOfMemory
        } else {
            ConfigFault::NotToml
        }
    }
}

impl From<AllocError> for ConfigFault {
    ghost from_gives = { λ _ fault. fault ≡ OutOfMemory };

    fn from(_error: AllocError) -> ConfigFault {
        ConfigFault::OutOfMemory
    }
}

impl<T: Drop> From<AllocFailed<T>> for ConfigFault {
    ghost from_gives = { λ _ fault. fault ≡ OutOfMemory };

    fn from(_error: AllocFailed<T>) -> ConfigFault {
        ConfigFault::OutOfMemory
    }
}
