//! Sense data.

ghost use Rattle.std.specs.Prelude.{◌≡◌, if◌then◌else◌};
ghost use Rattle.scsi_sense.specs.Sense.{plain_sense, sense_bytes};

use crate::condition::Condition;

/// Why a command ended with CHECK CONDITION (SPC-4 "Sense data").
#[derive(Clone, Copy)]
pub struct Sense {
    pub condition: Condition,
    /// A filemark was read or spaced over.
    pub filemark: bool,
    /// EOM: the end of the medium, or its early mark, was reached.
    pub end_of_medium: bool,
    /// ILI: the length of the logical block differs from the length requested.
    pub incorrect_length: bool,
    /// A number whose meaning the condition gives; VALID is set if there is one.
    pub information: Option<u32>,
}

impl Sense {
    /// Returns the sense data of a condition, with no bit set and no information.
    pub fn new(condition: Condition) -> Sense
        ensures { result ≡ plain_sense condition }
    {
        Sense {
            condition,
            filemark: false,
            end_of_medium: false,
            incorrect_length: false,
            information: None,
        }
    }

    /// Returns the 18 bytes of the fixed format (SPC-4 "Fixed format sense data").
    pub fn bytes(&self) -> [u8; 18]
        ensures { result ≡ sense_bytes self.now }
    {
        let flags = flag(self.filemark, 0x80)
            | flag(self.end_of_medium, 0x40)
            | flag(self.incorrect_length, 0x20);
        let response_code = if self.information.is_some() {
            0xf0
        } else {
            0x70
        };
        let information = self.information.unwrap_or(0).to_be_bytes();
        let code = self.condition.code().to_be_bytes();
        [
            response_code,
            0,
            flags | self.condition.key(),
            information[0],
            information[1],
            information[2],
            information[3],
            0x0a,
            0,
            0,
            0,
            0,
            code[0],
            code[1],
            0,
            0,
            0,
            0,
        ]
    }
}

/// Returns `mask` if the bit is set, else 0.
fn flag(is_set: bool, mask: u8) -> u8
    ensures { result ≡ (if is_set then mask else 0) }
{
    if is_set { mask } else { 0 }
}
