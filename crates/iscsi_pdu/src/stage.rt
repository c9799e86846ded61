//! The stages of a login.

ghost use Rattle.std.specs.Prelude.{◌≡◌};

/// A stage of the login phase, or the full feature phase after it (RFC 7143 §6.3 and §11.12.3).
#[derive(Clone, Copy)]
pub enum Stage {
    /// 0
    SecurityNegotiation = 0,
    /// 1
    OperationalNegotiation = 1,
    /// 3
    FullFeaturePhase = 3,
}

impl Stage {
    ghost use Rattle.iscsi_pdu.specs.Stage.{stage_number, stage_of};

    /// Returns the number of the stage in CSG and NSG.
    pub fn number(self) -> u8
        ensures { result ≡ stage_number self }
    {
        self as u8
    }

    /// Returns the stage with this number, if it has one.
    pub(crate) fn of_number(number: u8) -> Option<Stage>
        ensures { result ≡ stage_of number }
    {
        match number {
            0 => Some(Stage::SecurityNegotiation),
            1 => Some(Stage::OperationalNegotiation),
            3 => Some(Stage::FullFeaturePhase),
            _ => None,
        }
    }
}
