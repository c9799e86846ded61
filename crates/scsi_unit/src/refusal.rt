//! Why a unit refuses a command before it is carried out.

use scsi_sense::{Attention, Sense};

/// Why a command is refused.
#[derive(Clone, Copy)]
pub(crate) enum Refusal {
    /// With this sense data.
    Refused(Sense),
    /// A unit attention is reported in its place (SAM-5 "Unit attention condition"), and is then cleared.
    Told(Attention),
    /// A reservation forbids it (SPC-4 "Persistent reservations").
    Conflict,
}
