//! Conditions: sense keys, each with its additional sense codes.

ghost use Rattle.std.specs.Prelude.{◌≡◌};
ghost use Rattle.scsi_sense.specs.Codes.{attention_number, key_of, code_of};

/// A unit attention condition (SAM-5 "Unit attention condition"), by SPC-4's names ("Sense key and
/// additional sense code definitions").
#[derive(Clone, Copy, Default)]
pub enum Attention {
    #[default]
    PowerOnOrReset = 0x2900,
    NotReadyToReadyChange = 0x2800,
    BusDeviceResetFunctionOccurred = 0x2903,
    ModeParametersChanged = 0x2a01,
    ReservationsPreempted = 0x2a03,
    ReservationsReleased = 0x2a04,
    RegistrationsPreempted = 0x2a05,
    CommandsClearedByAnotherInitiator = 0x2f00,
}

impl Attention {
    /// Returns the additional sense code in the high byte and its qualifier in the low one: `2900h` is 29h/00h.
    pub fn number(self) -> u16
        ensures { result ≡ attention_number self }
    {
        self as u16
    }
}

/// What happened: an additional sense code, under its one sense key, by SPC-4's names ("Sense key and additional sense
/// code definitions").
#[derive(Clone, Copy)]
pub enum Condition {
    NoAdditionalSenseInformation,
    FilemarkDetected,
    /// The early mark was passed.
    EndOfMediumDetected,
    BeginningOfMediumDetected,
    MediumNotPresent,
    WriteError,
    UnrecoveredReadError,
    InternalTargetFailure,
    ParameterListLengthError,
    InvalidCommandOperationCode,
    LogicalBlockAddressOutOfRange,
    InvalidFieldInCdb,
    LogicalUnitNotSupported,
    InvalidFieldInParameterList,
    InvalidReleaseOfPersistentReservation,
    SavingParametersNotSupported,
    InsufficientRegistrationResources,
    UnitAttention(Attention),
    WriteProtected,
    EndOfDataDetected,
    /// The medium has no room.
    VolumeOverflow,
    MiscompareDuringVerifyOperation,
}

impl Condition {
    /// Returns its sense key, the low four bits of byte 2.
    pub fn key(self) -> u8
        ensures { result ≡ key_of self }
    {
        self.numbers().0
    }

    /// Returns its additional sense code in the high byte, and the qualifier in the low one.
    pub fn code(self) -> u16
        ensures { result ≡ code_of self }
    {
        self.numbers().1
    }

    /// Returns its sense key and code.
    fn numbers(self) -> (u8, u16)
        ensures key { result.0 ≡ key_of self }
        ensures code { result.1 ≡ code_of self }
    {
        match self {
            Condition::NoAdditionalSenseInformation => (0x0, 0x0000),
            Condition::FilemarkDetected => (0x0, 0x0001),
            Condition::EndOfMediumDetected => (0x0, 0x0002),
            Condition::BeginningOfMediumDetected => (0x0, 0x0004),
            Condition::MediumNotPresent => (0x2, 0x3a00),
            Condition::WriteError => (0x3, 0x0c00),
            Condition::UnrecoveredReadError => (0x3, 0x1100),
            Condition::InternalTargetFailure => (0x4, 0x4400),
            Condition::ParameterListLengthError => (0x5, 0x1a00),
            Condition::InvalidCommandOperationCode => (0x5, 0x2000),
            Condition::LogicalBlockAddressOutOfRange => (0x5, 0x2100),
            Condition::InvalidFieldInCdb => (0x5, 0x2400),
            Condition::LogicalUnitNotSupported => (0x5, 0x2500),
            Condition::InvalidFieldInParameterList => (0x5, 0x2600),
            Condition::InvalidReleaseOfPersistentReservation => (0x5, 0x2604),
            Condition::SavingParametersNotSupported => (0x5, 0x3900),
            Condition::InsufficientRegistrationResources => (0x5, 0x5504),
            Condition::UnitAttention(attention) => (0x6, attention.number()),
            Condition::WriteProtected => (0x7, 0x2700),
            Condition::EndOfDataDetected => (0x8, 0x0005),
            Condition::VolumeOverflow => (0xd, 0x0002),
            Condition::MiscompareDuringVerifyOperation => (0xe, 0x1d00),
        }
    }
}
