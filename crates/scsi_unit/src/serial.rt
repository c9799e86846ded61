//! Serial numbers.

ghost use Rattle.std.specs.Prelude.{◌≡◌, ◌≤◌, length, string_bytes};
ghost use Rattle.scsi_inquiry.specs.ProductData.{most_serial};

use std::marker::Model;

/// The serial number of a logical unit, as its vital product data reports it: at most 32 bytes.
#[derive(Drop)]
pub struct Serial {
    text: String,
}

impl Model for Serial {
    ghost use Rattle.std.specs.Prelude.{List, ℕ, ◌≤◌, length, string_bytes};
    ghost use Rattle.scsi_inquiry.specs.ProductData.{most_serial};

    ghost Value = { List ℕ };

    ghost view = { λ serial. string_bytes serial.text };

    ghost invariant = { λ serial. length (string_bytes serial.text) ≤ most_serial };
}

impl Serial {
    /// Creates a serial number from its text.
    pub fn new(text: String) -> Serial
        requires { length (string_bytes text) ≤ most_serial }
        ensures { result ≡ string_bytes text }
    {
        Serial { text }
    }

    /// Returns its bytes.
    pub(crate) fn as_bytes(&self) -> &[u8]
        ensures value { result.now ≡ self.now }
        ensures short { length result.now ≤ most_serial }
    {
        self.text.as_bytes()
    }
}
