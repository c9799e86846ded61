//! What a persistent reservation forbids a nexus, by its type and by who is registered (SPC-4 "Persistent reservations").
//!
//! ```text
//! registrations              reservation
//! nexus A   key A1h          by A
//! nexus B   key B2h          type 5: Write Exclusive, Registrants Only
//!
//!                            reading     writing
//! A, which holds it          allowed     allowed
//! B, which is registered     allowed     allowed
//! any other nexus            allowed     a conflict
//! ```
//!
//! Registrations are [`Row`]s, a [`Reservation`] has its type and who made it. [`allows`] is `is_allowed_by`, the
//! table of conflicts. The other functions find, change and remove registrations, exactly as defined.
#![tactic(auto)]

mod allowed;
mod conflict;
mod registration;
mod reservation_type;

pub use allowed::allows;
pub use conflict::Who;
pub use registration::{Reservation, Row, has_key, own_key, set_key, take_out};
pub use reservation_type::ReservationType;
