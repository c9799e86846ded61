//! A disk with its mode parameters, and the blocks that a command of it names.

ghost use Rattle.std.specs.Prelude.{◌≡◌};
ghost use Rattle.scsi_disk.specs.DiskCommands.{range_named};

use media_block::Disk;
use media_store::Store;
use scsi_cdb::{AnyRange, DiskCommand};

/// A disk with its mode parameters.
#[derive(Drop)]
pub struct DiskDevice<S: Store> {
    pub disk: Disk<S>,
    /// Whether no write of it has failed since it was opened.
    pub is_ready: bool,
    /// SWP: writes are refused (SPC-4 "Control mode page").
    pub write_protect: bool,
}

/// Returns the blocks that a command names.
pub fn range_named(command: &DiskCommand) -> Option<AnyRange>
    ensures { result ≡ range_named command.now }
{
    let (first, count) = match command {
        DiskCommand::ReadCapacity10 | DiskCommand::ReadCapacity16 { .. } => return None,
        DiskCommand::Verify(range) | DiskCommand::SynchronizeCache(range) => {
            (range.first(), range.count())
        }
        DiskCommand::Read(range)
        | DiskCommand::VerifyData(range)
        | DiskCommand::Write { range, .. } => (range.first(), range.count()),
        DiskCommand::WriteSame(range) => (range.first(), range.count()),
        DiskCommand::CompareAndWrite { range, .. } => (range.first(), range.count()),
    };
    Some(AnyRange::new(first, count))
}
