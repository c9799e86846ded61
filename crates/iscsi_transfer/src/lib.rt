//! The data of one command between a target and an initiator (RFC 7143 §11.7). Data for the initiator is sent in
//! Data-Ins. Data from it comes with the command, in unsolicited Data-Outs, and in Data-Outs that R2Ts ask for.
//!
//! ```text
//! 10240 bytes, MaxBurstLength 8192, MaxRecvDataSegmentLength 4096:
//!
//! |-------- first burst --------|- second -|
//! | 0 to 4095    | 4096 to 8191 | 8192 ..  |     three Data-In PDUs, DataSN 0, 1, 2
//!                             F          F
//! ```
//!
//! ```text
//! a write of 2048 blocks, FirstBurstLength 65536, MaxBurstLength 262144:
//!
//! | immediate | Data-Outs | R2T 0          | R2T 1           | R2T 2           | R2T 3            |
//! | 0 ..      | 8192 ..   | 65536 ..       | 327680 ..       | 589824 ..       | 851968 .. 1048575|
//!                       F                F                 F                 F                  F
//! ```
//!
//! Promised, and proved:
//!
//! - [`data_ins`] cuts the data at the multiples of MaxBurstLength, and each burst at the multiples of
//!   MaxRecvDataSegmentLength from its start. F is set on the last piece of each burst.
//! - [`piece_count`] returns how many pieces there are. [`piece_at`] computes each from its number, so that no list of
//!   them has to be kept.
//! - Joined, the pieces are the data ([`laws::pieces_are_the_data`]).
//! - A [`WriteData`] collects a command's data. For every past of it (`specs/Payload.antt`), it reports the payload so
//!   far, and the first fault of the command and of each Data-Out ([`DataFault`]).
//! - It asks once for each byte after the unsolicited data, and for no other ([`laws::each_byte_is_asked_for_once`]).
//! - No more than MaxOutstandingR2T R2Ts are open at a time ([`laws::few_are_open`]; if that is one,
//!   [`laws::one_is_open_at_a_time`]).
//! - When a sequence ends, an R2T is due or open exactly if the payload is not whole ([`laws::whole_or_asked_for`]).
//! - A [`StagedData`] stages the data of a Data-Out while its PDU arrives. Accepted, it is what the whole Data-Out would be
//!   ([`StagedData::staged_out`]); if its command is removed, nothing of it is left ([`StagedData::unstage`]).
//! - The data stays in the buffers in which it came ([`data_parts::Parts`]). Only [`WriteData::start`], [`WriteData::begin`],
//!   [`WriteData::data_out`], [`WriteData::accept`], [`StagedData::stage`], [`StagedData::staged_out`] and [`data_ins`]
//!   allocate memory. For a command that takes
//!   no data, [`WriteData::start`] allocates none.
#![tactic(auto)]

mod data_in;
mod fault;
pub mod laws;
mod progress;
mod staged_data;
mod write_data;

pub use data_in::{Piece, data_ins, piece_at, piece_count};
pub use fault::DataFault;
pub use progress::{Ask, MOST_OPEN, Progress};
pub use staged_data::StagedData;
pub use write_data::{WriteData, command_fault};
