//! Command descriptor blocks: 16 bytes read as a command (SPC-4 "Operation code").
//!
//! A unit reads them in two steps. What it checks between them, such as its unit attentions, depends on the operation
//! alone:
//!
//! - [`Row::of`] returns the row of the table of operations for byte 0, if there is one, and [`Operation::is_for`] whether
//!   units of a kind have the operation; [`Row::for_kind`] does both.
//! - [`Operation::command`] returns the command with its fields, or why a field is refused. The meaning of those of
//!   READ (6) and WRITE (6) depends on the block length that the tape has then.
//!
//! [`Cdb::read`] does both. These operations exist so far. A row also has a class for reservations ([`class`]):
//!
//! ```text
//! code  disk  tape  passes an attention, a missing unit; what it needs
//! 00h   yes   yes                                        ready    TEST UNIT READY
//! 01h         yes                                        ready    REWIND
//! 03h   yes   yes   attention            missing unit             REQUEST SENSE
//! 05h         yes                                                 READ BLOCK LIMITS
//! 08h         yes                                        ready    READ (6)
//! 0Ah         yes                                        ready    WRITE (6)
//! 10h         yes                                        ready    WRITE FILEMARKS (6)
//! 11h         yes                                        ready    SPACE (6)
//! 12h   yes   yes   attention            missing unit             INQUIRY
//! 15h   yes   yes                                                 MODE SELECT (6)
//! 19h         yes                                        ready    ERASE (6)
//! 1Ah   yes   yes                                                 MODE SENSE (6)
//! 1Bh         yes                                        working  LOAD UNLOAD
//! 25h   yes                                                       READ CAPACITY (10)
//! 28h   yes                                              ready    READ (10)
//! 2Ah   yes                                              ready    WRITE (10)
//! 2Bh         yes                                        ready    LOCATE (10)
//! 2Fh   yes                                              ready    VERIFY (10)
//! 34h         yes                                        ready    READ POSITION
//! 35h   yes                                              ready    SYNCHRONIZE CACHE (10)
//! 41h   yes                                              ready    WRITE SAME (10)
//! 55h   yes   yes                                                 MODE SELECT (10)
//! 5Ah   yes   yes                                                 MODE SENSE (10)
//! 5Eh   yes   yes                                                 PERSISTENT RESERVE IN
//! 5Fh   yes   yes                                                 PERSISTENT RESERVE OUT
//! 88h   yes                                              ready    READ (16)
//! 89h   yes                                              ready    COMPARE AND WRITE
//! 8Ah   yes                                              ready    WRITE (16)
//! 8Fh   yes                                              ready    VERIFY (16)
//! 91h   yes                                              ready    SYNCHRONIZE CACHE (16)
//! 93h   yes                                              ready    WRITE SAME (16)
//! 9Eh   yes                                                       SERVICE ACTION IN (16): READ CAPACITY (16)
//! A0h   yes   yes   attention                                     REPORT LUNS
//! ```
//!
//! A command carries its limits in its types:
//!
//! - [`BlockRange`], at most 2048 blocks: READ, WRITE, VERIFY with data
//! - [`ComparedRange`], at most 128 blocks: COMPARE AND WRITE
//! - [`SameRange`], 1 to 32768 blocks: WRITE SAME
//! - [`AnyRange`]: VERIFY without data, SYNCHRONIZE CACHE
//! - [`RecordLength`], at most 1048576 bytes: a record that is written
//! - [`FixedBlocks`], at most 1048576 bytes in all: blocks of a tape's block length
#![tactic(auto)]

mod block_range;
mod cdb;
mod command;
mod fault;
mod fields;
mod fixed_blocks;
mod mode;
mod operation;
mod persistent_reserve;
mod record_length;
mod report_luns;
mod tape;

pub use block_range::{
    AnyRange, BlockRange, ComparedRange, LimitedRange, MOST_BLOCKS, MOST_COMPARED, MOST_SAME,
    SameRange,
};
pub use cdb::Cdb;
pub use command::{Command, DiskCommand, UnitCommand};
pub use fault::FieldFault;
pub use fixed_blocks::FixedBlocks;
pub use mode::{ModeSelectFields, ModeSenseFields, PageControl, ParameterHeader};
pub use operation::{
    DiskOperation, Kind, Need, Operation, ReservationClass, Row, TapeOperation, UnitOperation,
    class,
};
pub use persistent_reserve::{ReadAction, ReserveInFields, ReserveOutFields, ServiceAction};
pub use record_length::{MOST_RECORD, RecordLength};
pub use report_luns::{ReportLunsFields, SelectReport};
pub use tape::{Distance, IncorrectLength, SpaceCode, TapeCommand};
