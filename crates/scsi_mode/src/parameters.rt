//! The mode parameters of a unit.

ghost use Rattle.std.specs.Prelude.{◌≡◌};
ghost use Rattle.scsi_mode.specs.ModePages.{write_protect, block_length_of, differ};
ghost use Rattle.scsi_mode.specs.ModeData.{device_parameter};

use media_block::BLOCK_LENGTH;

/// The mode parameters of a unit.
#[derive(Clone, Copy, PartialEq, Eq)]
pub enum Parameters {
    Disk {
        block_count: u64,
        /// SWP: writes are refused (SPC-4 "Control mode page").
        write_protect: bool,
    },
    Tape {
        /// The number of bytes of each block of a READ or WRITE with FIXED, 0 if there is none (SSC-4 "Mode parameter
        /// block descriptor").
        block_length: u32,
    },
}

impl Parameters {
    /// Returns SWP. A tape's is never set.
    pub fn write_protect(self) -> bool
        ensures { result ≡ write_protect self }
    {
        match self {
            Parameters::Disk { write_protect, .. } => write_protect,
            Parameters::Tape { .. } => false,
        }
    }

    /// Returns BLOCK LENGTH, in bytes.
    pub fn block_length(self) -> u32
        ensures { result ≡ block_length_of self }
    {
        match self {
            Parameters::Disk { .. } => BLOCK_LENGTH as u32,
            Parameters::Tape { block_length } => block_length,
        }
    }

    /// Returns whether a parameter differs.
    pub fn differs(self, other: Parameters) -> bool
        ensures { result ≡ differ self other }
    {
        self != other
    }

    /// Returns DEVICE-SPECIFIC PARAMETER, in the header: DPOFUA (SBC-3 "Mode parameter header") or buffered mode 1
    /// (SSC-4 "Mode parameter header"), with WP.
    pub(crate) fn device_parameter(self) -> u8
        ensures { result ≡ device_parameter self }
    {
        if self.write_protect() { 0x90 } else { 0x10 }
    }
}
