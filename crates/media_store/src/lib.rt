//! Stores: where the bytes of a medium are kept.
//!
//! A store is a list of bytes that is read, written, cut and synced, and whose calls may fail. The
//! trait [`Store`] says what each call does to these bytes. What it says of bytes that were read is said
//! where the store is honest after the call: every answer so far agreed with the content.
//!
//! - [`MemStore`] keeps the bytes in memory. It is always honest, and calls succeed within its content and up to the
//!   length that it was made for. It alone lends its bytes.
//! - [`FileStore`] keeps them in a file. Each call of the system is noted with its answer ([`FileCalls`]),
//!   so its content is what the file held when it was opened ([`Start`]), after these calls; it is
//!   honest exactly as long as the answers agree with that, and synced if a sync succeeded after all that changed the
//!   file, and none failed before. It fails only if a call of the system did that no signal interrupted, and counts its
//!   failures from these notes. After a sync that failed, no other is made until the file is opened again. A file that
//!   is not opened or not locked has a note of that ([`UnopenedFile`]).
//! - [`FailStore`] is another store that fails from some call on, and is as honest as that store.
//! - [`LyingStore`] is another store that gives wrong bytes once.
//!
//! Promised of every store: a call that fails raises the count of failures by one, and no other does.
//! A failed write changes nothing outside its range, a failed read nothing at all. If a store is `atomic`, as one in
//! memory is, no failed call changes a byte, but a write of several slices may stop between two.
#![tactic(auto)]

mod again;
mod fail;
mod fault;
mod file;
mod file_calls;
mod interruption;
mod lying;
mod memory;
mod slices;
mod start;
mod store;
mod system_file;
mod unwritten;
mod whole;

pub use fail::{Call, FailStore};
pub use fault::StoreFault;
pub use file::FileStore;
pub use file_calls::FileCalls;
pub use lying::LyingStore;
pub use memory::MemStore;
pub use start::{Start, Unknown};
pub use store::Store;
pub use system_file::{SystemFile, UnopenedFile};
pub use unwritten::Unwritten;
