//! What an iSCSI target is, in plain definitions, and what follows from them. There is next to no code here: the crates
//! above say by these definitions what their functions do, and prove it by these lemmas.
//!
//! ```text
//!   World      what came on each connection and what was answered, as lists; the units           specs/World.antt
//!     ^
//!     │ Stands: the machine is what is remembered of the World                                   specs/Stands.antt
//!     v
//!   Machine    the bytes that are kept, the phase and the waiting bytes of each connection       specs/Machine.antt
//! ```
//!
//! - [`Phase`] and [`Starved`] are the two types of the code that the definitions name.
//! - `specs/Serving.antt` and `specs/SessionCalls.antt` say what the calls of a target do to a Machine, so that it
//!   stands where the World does.
//! - `specs/Laws.antt`, `specs/Moment.antt` and `specs/Isolation.antt` state what holds of every history. The lemmas
//!   prove it, and `iscsi_target` has it as its laws.
//! - The files `specs/Examples*.antt` are histories whose answers are worked out.
#![tactic(auto)]

mod fault;
mod phase;

pub use fault::Starved;
pub use phase::Phase;
