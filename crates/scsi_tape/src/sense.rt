//! The sense data of a tape (SSC-4 "Sense data").

ghost use Rattle.std.specs.Prelude.{◌≡◌};
ghost use Rattle.scsi_sense.specs.Done.{check_condition};
ghost use Rattle.scsi_tape.specs.TapeSense.{filemark as filemark_sense, end_of_data as end_of_data_sense, beginning as beginning_sense};
ghost use Rattle.scsi_tape.specs.TapeSense.{early_warning as early_sense, overflow as overflow_sense, incorrect_length as length_sense};
ghost use Rattle.scsi_tape.specs.TapeSense.{unrecovered_read};

use scsi_sense::{Condition, Done, Sense};
use std::alloc::Global;

/// Returns the sense data of a filemark that was read or spaced over, with what was left to do.
pub(crate) fn filemark(left: u32) -> Sense
    ensures { result ≡ filemark_sense left }
{
    let mut sense = Sense::new(Condition::FilemarkDetected);
    sense.filemark = true;
    sense.information = Some(left);
    sense
}

/// Returns the sense data of the end of data: nothing comes after the position. It carries what was left to do.
pub(crate) fn end_of_data(left: u32) -> Sense
    ensures { result ≡ end_of_data_sense left }
{
    let mut sense = Sense::new(Condition::EndOfDataDetected);
    sense.information = Some(left);
    sense
}

/// Returns the sense data of the beginning of the medium: nothing comes before the position. It carries what was left
/// to do.
pub(crate) fn beginning(left: u32) -> Sense
    ensures { result ≡ beginning_sense left }
{
    let mut sense = Sense::new(Condition::BeginningOfMediumDetected);
    sense.end_of_medium = true;
    sense.information = Some(left);
    sense
}

/// Returns the sense data of the early warning: everything was written, past the early warning mark.
pub(crate) fn early_warning() -> Sense
    ensures { result ≡ early_sense }
{
    let mut sense = Sense::new(Condition::EndOfMediumDetected);
    sense.end_of_medium = true;
    sense.information = Some(0);
    sense
}

/// Returns the sense data of a full medium, with the amount that was not written because there is no room for it.
pub(crate) fn overflow(count: u32) -> Sense
    ensures { result ≡ overflow_sense count }
{
    let mut sense = Sense::new(Condition::VolumeOverflow);
    sense.end_of_medium = true;
    sense.information = Some(count);
    sense
}

/// Returns the sense data of a record whose length differs from the length requested, with the difference.
pub(crate) fn incorrect_length(difference: u32) -> Sense
    ensures { result ≡ length_sense difference }
{
    let mut sense = Sense::new(Condition::NoAdditionalSenseInformation);
    sense.incorrect_length = true;
    sense.information = Some(difference);
    sense
}

/// Returns CHECK CONDITION with UNRECOVERED READ ERROR.
pub(crate) fn read_failed(alloc: Global) -> Done
    ensures { result ≡ check_condition unrecovered_read }
{
    Done::check_condition(alloc, Sense::new(Condition::UnrecoveredReadError))
}
