//! The fields of a SCSI Data-Out (RFC 7143 §11.7).

ghost use Rattle.std.specs.Prelude.{◌≡◌};

use crate::header::Header;
use byteorder::{BigEndian, ByteOrder};

impl Header {
    ghost use Rattle.iscsi_pdu.specs.DataOut.{target_transfer_tag, data_sn, buffer_offset};

    /// Returns the Target Transfer Tag: that of the R2T that asked for the data, or FFFFFFFFh if the data is
    /// unsolicited.
    pub fn target_transfer_tag(&self) -> u32
        ensures { result ≡ target_transfer_tag self.now }
    {
        BigEndian::read_u32(&self.bytes[20..])
    }

    /// Returns DataSN: the number of the Data-Out in its sequence, counted from 0.
    pub fn data_sn(&self) -> u32
        ensures { result ≡ data_sn self.now }
    {
        BigEndian::read_u32(&self.bytes[36..])
    }

    /// Returns Buffer Offset: the place in the command's data where this data begins, in bytes.
    pub fn buffer_offset(&self) -> u32
        ensures { result ≡ buffer_offset self.now }
    {
        BigEndian::read_u32(&self.bytes[40..])
    }
}
