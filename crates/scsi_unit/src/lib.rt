//! Logical units: what a SCSI command does to a disk or a tape, and what it returns to its initiator.
//!
//! ```text
//! command --> Units --> Unit --> medium --> Done: status, sense, data
//!             by LUN    checks
//! ```
//!
//! The checks are made in this order, and the first that fails determines the answer:
//!
//! 1. the LUN names a unit;
//! 2. the unit has the operation;
//! 3. no unit attention is pending for the nexus;
//! 4. no reservation forbids the operation;
//! 5. the medium is ready;
//! 6. the fields of the command descriptor block are valid;
//! 7. the unit has the range of blocks;
//! 8. the data is long enough;
//! 9. the unit is not write protected;
//! 10. the medium does not fail.
//!
//! INQUIRY, REPORT LUNS and REQUEST SENSE skip check 3. INQUIRY and REQUEST SENSE skip check 1 too.
//!
//! A command does exactly what `perform` defines, to the unit and in its answer. This holds provided that the unit's
//! store is honest after it and did not fail in it. It also holds for any command that does not touch the medium, and
//! for any command over a store that is honest and steady. Otherwise there are four outcomes (`CameOut`):
//!
//! - The command came out as defined.
//! - The store is not honest. On a disk the command did what follows from what the store showed, on a tape what is
//!   defined, but for the bytes of records.
//! - A read failed. The command reports UNRECOVERED READ ERROR and changes nothing.
//! - A write or a sync failed. The command reports WRITE ERROR. The content of the blocks of its range is not defined;
//!   of a tape the items before the position remain. The unit is not ready until it is opened again
//!   ([`laws::failed_units_stay_failed`]).
//!
//! A fault is reported only if the store's count of failures rose. The other units are as before.
//!
//! The store is synced after SYNCHRONIZE CACHE with GOOD, and after WRITE or COMPARE AND WRITE with GOOD that wrote a
//! block with FUA.
//!
//! If an allocation fails, nothing changes. The data of a WRITE to a disk goes to `media_block` as it lies; other commands join
//! it first.
#![tactic(auto)]

mod device;
mod identity;
mod joined;
pub mod laws;
mod lun;
mod modes;
mod performing;
mod persistent_reserve;
mod refusal;
mod serial;
mod tape_commands;
mod unit;
mod units;

pub use lun::Lun;
pub use serial::Serial;
pub use target_limits::Memory;
pub use unit::Unit;
pub use units::Units;
