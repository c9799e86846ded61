//! Persistent reservations (SPC-4 "Persistent reservations"): the registrations of a logical unit, its reservation, and
//! what that forbids others. A cluster uses them to fence a failed node.
//!
//! ```text
//! registrations, in order            reservation              generation
//! nexus A   key A1h                  by A                     2
//! nexus B   key B2h                  type 5: Write Exclusive, Registrants Only
//!
//!                            reading     writing
//! A, which holds it          allowed     allowed
//! B, which is registered     allowed     allowed
//! any other nexus            allowed     a conflict
//! ```
//!
//! They belong to a nexus, identified by the name of its initiator and its ISID, so they outlive its sessions.
//!
//! A [`Table`] behaves as defined:
//!
//! - [`Table::persistent_reserve_out`] (PERSISTENT RESERVE OUT) changes the table and answers as `out_of` defines.
//! - [`Table::read_in`] (PERSISTENT RESERVE IN) returns exactly the bytes of `data_of`.
//! - [`Table::allows`] is `is_allowed`, the table of conflicts.
//! - If an allocation fails, nothing changes.
//! - A table has at most 64 registrations.
//!
//! A nexus is registered at most once. The holder of a reservation may do everything. A holder that another nexus
//! preempts by its key can no longer write ([`laws::reservations_hold`]).
#![tactic(auto)]

pub mod laws;
mod news;
mod outcome;
mod parameter_list;
mod read_in;
mod request;
mod table;

pub use outcome::{Due, Ended, Outcome};
pub use scsi_conflict::ReservationType;
pub use table::Table;
