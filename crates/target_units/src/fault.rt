//! Why units are not opened.

ghost use Rattle.std.specs.Prelude.{◌≡◌};
ghost use Rattle.target_units.specs.declared.fault.UnitFault.TheVariants.{Memory as NoUnit};
ghost use Rattle.target_units.specs.declared.fault.OpenFault.TheVariants.{Memory as NoTarget};

use crate::cause::DeviceCause;
use std::alloc::AllocFailed;
use target_limits::Memory;
use thiserror::Error;

/// Why a unit of one target is not opened.
#[derive(Clone, Copy, Debug, PartialEq, Eq, Error)]
pub(crate) enum UnitFault {
    /// Its file cannot be read and written, or is no disk, or no tape of its capacity.
    #[error("unit {lun} cannot be opened")]
    Device { lun: u8, cause: DeviceCause },
    /// An allocation failed.
    #[error("out of memory")]
    Memory,
}

/// Why the units of a configuration are not opened.
#[derive(Debug, Drop, Error)]
pub enum OpenFault {
    /// A unit of a target: its file cannot be read and written, or is no disk, or no tape of its capacity.
    #[error("unit {lun} of {target} cannot be opened")]
    Device {
        target: String,
        lun: u8,
        cause: DeviceCause,
    },
    /// An allocation failed.
    #[error("out of memory")]
    Memory,
}

impl From<Memory> for UnitFault {
    ghost from_gives = { λ _ why. why ≡ NoUnit };

    fn from(_error: Memory) -> UnitFault {
        UnitFault::Memory
    }
}

impl<T: Drop> From<AllocFailed<T>> for UnitFault {
    ghost from_gives = { λ _ why. why ≡ NoUnit };

    fn from(_error: AllocFailed<T>) -> UnitFault {
        UnitFault::Memory
    }
}

impl<T: Drop> From<AllocFailed<T>> for OpenFault {
    ghost from_gives = { λ _ why. why ≡ NoTarget };

    fn from(_error: AllocFailed<T>) -> OpenFault {
        OpenFault::Memory
    }
}
