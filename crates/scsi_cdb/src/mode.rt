//! What MODE SENSE and MODE SELECT request.

/// Which header stands before mode parameters (SPC-4 "Mode parameter header formats").
#[derive(Clone, Copy)]
pub enum ParameterHeader {
    /// The one of 4 bytes, of MODE SENSE (6) and MODE SELECT (6).
    Six,
    /// The one of 8 bytes, of MODE SENSE (10) and MODE SELECT (10).
    Ten,
}

/// Which values of mode pages are requested (SPC-4 "MODE SENSE (6) command", PC). There are no saved ones.
#[derive(Clone, Copy)]
pub enum PageControl {
    /// 00b
    Current,
    /// 01b: a mask of the bits that can be changed.
    Changeable,
    /// 10b
    Default,
}

/// The fields of MODE SENSE (SPC-4 "MODE SENSE (6) command", "MODE SENSE (10) command").
#[derive(Clone, Copy)]
pub struct ModeSenseFields {
    pub header: ParameterHeader,
    /// Whether the block descriptor is requested too: DBD is 0.
    pub block_descriptor: bool,
    pub control: PageControl,
    /// The page code, 00h to 3Fh.
    pub page: u8,
    pub allocation_length: u32,
}

/// The fields of MODE SELECT (SPC-4 "MODE SELECT (6) command", "MODE SELECT (10) command").
#[derive(Clone, Copy)]
pub struct ModeSelectFields {
    pub header: ParameterHeader,
    /// The number of bytes of the parameter list.
    pub list_length: u32,
}
