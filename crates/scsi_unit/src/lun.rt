//! Logical unit numbers.

ghost use Rattle.std.specs.Prelude.{◌≡◌};
ghost use Rattle.scsi_unit.specs.Lun.{lun_number};

use std::marker::Model;

/// The number of a logical unit of a target.
#[derive(Clone, Copy)]
pub struct Lun {
    number: u8,
}

impl Model for Lun {
    ghost use Rattle.std.specs.Prelude.{ℕ, refl};

    ghost Value = { ℕ };

    ghost view = { λ lun. lun.number };

    ghost inverse = { λ number. record { number = number } };

    ghost inverse_ok = { λ lun is. refl };
}

impl Lun {
    /// Creates the LUN of the unit with this number.
    pub fn new(number: u8) -> Lun
        ensures { result ≡ number }
    {
        Lun { number }
    }

    /// Returns the number.
    pub fn number(self) -> u8
        ensures { result ≡ self }
    {
        self.number
    }

    /// Returns the number in a LUN field: byte 1, if all other bytes are zero (SAM-5 "Single level LUN structure").
    #[tactic(auto, unfolding(crate::specs::Lun::lun_number))]
    pub fn read(field: [u8; 8]) -> Option<Lun>
        ensures { result ≡ lun_number field }
    {
        match field {
            [0, number, 0, 0, 0, 0, 0, 0] => Some(Lun { number }),
            _ => None,
        }
    }
}
