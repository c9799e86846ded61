//! Why the data of a command is not accepted.

ghost use Rattle.std.specs.Prelude.{◌≡◌};
ghost use Rattle.iscsi_transfer.specs.declared.fault.DataFault.TheVariants.{Memory};

use std::alloc::AllocError;
use thiserror::Error;

/// What is wrong with a SCSI Command's immediate data or with a Data-Out. Each fault has a number. The order of the tests
/// is another: [`WriteData::fault_of`](crate::WriteData::fault_of) has it.
#[derive(Clone, Copy, Debug, PartialEq, Eq, Error)]
pub enum DataFault {
    /// 1: immediate data of a command that takes none, or while ImmediateData is No (RFC 7143 §13.11).
    #[error("immediate data that was not agreed")]
    ImmediateData = 1,
    /// 2: a command announces unsolicited Data-Outs while InitialR2T is Yes (RFC 7143 §13.10).
    #[error("unsolicited data that was not agreed")]
    UnsolicitedData = 2,
    /// 3: the Buffer Offset is not the length of the data that has come (RFC 7143 §11.7.6).
    #[error("a wrong Buffer Offset")]
    BufferOffset = 3,
    /// 4: the DataSN is not the number of Data-Outs of the sequence that have come (RFC 7143 §11.7.5).
    #[error("a wrong DataSN")]
    DataSn = 4,
    /// 5: more data than FirstBurstLength, the expected length or the R2T allows.
    #[error("too much data")]
    TooMuch = 5,
    /// 6: the Target Transfer Tag is that of no open sequence (RFC 7143 §11.7.4).
    #[error("a wrong Target Transfer Tag")]
    TransferTag = 6,
    /// 7: F is not set at the end of what an R2T asked for, or is set before it (RFC 7143 §11.7.1).
    #[error("a wrong F bit")]
    Final = 7,
    /// 8: an allocation failed. Nothing has changed.
    #[error("out of memory")]
    Memory = 8,
}

impl DataFault {
    ghost use Rattle.iscsi_transfer.specs.Fault.{fault_number};

    /// Returns the fault's number.
    pub fn number(&self) -> u8
        ensures { result ≡ fault_number self.now }
    {
        *self as u8
    }
}

impl From<AllocError> for DataFault {
    ghost from_gives = { λ _ e. e ≡ Memory };

    fn from(_error: AllocError) -> DataFault {
        DataFault::Memory
    }
}
