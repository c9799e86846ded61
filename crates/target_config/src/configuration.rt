//! The configuration of the program.

use crate::block_count::BlockCount;

/// A target portal and its targets.
#[derive(Drop)]
pub struct Configuration {
    /// The address that initiators connect to: 1 to 253 bytes.
    pub listen: String,
    /// The destination of the log, if there is one: the path of a file, or `-` for standard error.
    pub log: Option<String>,
    /// At most 8.
    pub targets: Vec<TargetConfiguration>,
}

/// A target and its logical units.
#[derive(Drop)]
pub struct TargetConfiguration {
    /// Its iSCSI name: 1 to 223 bytes.
    pub name: String,
    /// 1 to 16, one of them with LUN 0.
    pub units: Vec<UnitConfiguration>,
}

/// A logical unit.
#[derive(Drop)]
pub struct UnitConfiguration {
    /// 0 to 255.
    pub lun: i64,
    /// 1 to 32 printable ASCII bytes.
    pub serial: String,
    pub medium: MediumConfiguration,
}

/// What a logical unit keeps its data on.
#[derive(Drop)]
pub enum MediumConfiguration {
    /// A disk in memory, of zero blocks.
    MemoryDisk(BlockCount),
    /// A disk in the file at this path.
    FileDisk(String),
    /// A tape in memory that holds at most `capacity` bytes, and that warns after `early` of them.
    MemoryTape {
        capacity: u64,
        early: u64,
    },
    /// A tape in the file at this path, with this capacity and early warning mark.
    FileTape {
        path: String,
        capacity: u64,
        early: u64,
    },
}
