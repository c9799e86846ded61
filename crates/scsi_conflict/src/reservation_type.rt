//! Types of persistent reservations.

ghost use Rattle.std.specs.Prelude.{◌≡◌};
ghost use Rattle.scsi_conflict.specs.ReservationType.{type_code, type_of, is_same_type, is_of_all, is_of_registrants};

/// The type of a reservation of the logical unit (SPC-4 "Persistent reservations type").
#[derive(Clone, Copy)]
pub enum ReservationType {
    /// 1h
    WriteExclusive = 0x1,
    /// 3h
    ExclusiveAccess = 0x3,
    /// 5h
    WriteExclusiveRegistrantsOnly = 0x5,
    /// 6h
    ExclusiveAccessRegistrantsOnly = 0x6,
    /// 7h
    WriteExclusiveAllRegistrants = 0x7,
    /// 8h
    ExclusiveAccessAllRegistrants = 0x8,
}

impl ReservationType {
    /// Returns the type that SCOPE and TYPE name: the scope is the logical unit.
    pub fn of(scope: u8, code: u8) -> Option<ReservationType>
        ensures { result ≡ type_of scope code }
    {
        match (scope, code) {
            (0x0, 0x1) => Some(ReservationType::WriteExclusive),
            (0x0, 0x3) => Some(ReservationType::ExclusiveAccess),
            (0x0, 0x5) => Some(ReservationType::WriteExclusiveRegistrantsOnly),
            (0x0, 0x6) => Some(ReservationType::ExclusiveAccessRegistrantsOnly),
            (0x0, 0x7) => Some(ReservationType::WriteExclusiveAllRegistrants),
            (0x0, 0x8) => Some(ReservationType::ExclusiveAccessAllRegistrants),
            _ => None,
        }
    }

    /// Returns its TYPE.
    pub fn code(self) -> u8
        ensures { result ≡ type_code self }
    {
        self as u8
    }

    /// Returns whether both are the same type.
    pub fn is_same(self, other: ReservationType) -> bool
        ensures { result ≡ is_same_type self other }
    {
        self.code() == other.code()
    }

    /// Returns whether every registrant holds a reservation of this type (All Registrants).
    pub fn is_of_all(self) -> bool
        ensures { result ≡ is_of_all self }
    {
        matches!(
            self,
            ReservationType::WriteExclusiveAllRegistrants
                | ReservationType::ExclusiveAccessAllRegistrants
        )
    }

    /// Returns whether it gives rights to every registrant (Registrants Only, All Registrants). They get a unit
    /// attention when it is released.
    pub fn is_of_registrants(self) -> bool
        ensures { result ≡ is_of_registrants self }
    {
        !matches!(
            self,
            ReservationType::WriteExclusive | ReservationType::ExclusiveAccess
        )
    }
}
