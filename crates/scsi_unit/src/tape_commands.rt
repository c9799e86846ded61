//! The commands to tapes.

ghost use Rattle.std.specs.Prelude.{◌≡◌, ◌≤◌, length, IfOk, OnErr};
ghost use Rattle.scsi_cdb.specs.declared.command.Command.TheVariants as to;
ghost use Rattle.scsi_tape.specs.Commands.{bytes_needed};
ghost use Rattle.scsi_tape.specs.CameOut.{IsTapeDone};
ghost use Rattle.scsi_sense.specs.declared.condition.Attention.TheVariants.{NotReadyToReadyChange};
ghost use Rattle.scsi_disk.specs.DiskCommands.{most_given};
ghost use Rattle.scsi_unit.specs.CameOut.{tape_came};
ghost use Rattle.scsi_unit.specs.Joined.{raised_for_others};
ghost use Rattle.scsi_unit.specs.TapeCommands.{loads as loads_tape, likely_room, tape_performed};
ghost use Rattle.scsi_unit.specs.Unit.{touch_by, IsPerformed};

use crate::device::Device;
use crate::unit::Unit;
use bytes::BytesMut;
use data_parts::Data;
use media_store::Store;
use scsi_cdb::{Cdb, TapeCommand};
use scsi_disk::{Buffers, give_back, take_like};
use scsi_sense::{Attention, Done, HEADROOM, Nexus, TAILROOM};
use scsi_tape::TapeUnit;
use std::alloc::Global;
use target_limits::Memory;

/// Returns the room for the data that a command requests, with that before it and after it. How much it returns is
/// known only once it was read.
fn likely_room(command: &TapeCommand) -> usize
    ensures { result ≡ likely_room command.now }
{
    let data = match command {
        TapeCommand::Read { length, .. } => *length as usize,
        TapeCommand::ReadFixed(blocks) => blocks.count() as usize * blocks.block_length() as usize,
        _ => return 0,
    };
    HEADROOM + data + TAILROOM
}

/// Carries out a command to a tape with the data that it needs. A buffer that was used before, if there is one, takes
/// the data that it returns. If an allocation fails, nothing changes.
fn carry_out<S: Store>(
    alloc: Global,
    used: &mut Buffers,
    tape: &mut TapeUnit<S>,
    command: TapeCommand,
    data: &[u8],
) -> Result<Done, Memory>
    requires { bytes_needed command ≤ length «data».now }
    ensures done { IfOk result (IsTapeDone command «data».now tape.old tape.new) }
    ensures given { IfOk result (λ done. length done.given ≤ most_given) }
    ensures err { OnErr result (tape.new ≡ tape.old) }
{
    let room = likely_room(&command);
    let mut buffer = take_like(alloc, used, room);
    let done = tape.carry_out(alloc, &mut buffer, command, data);
    give_back(used, buffer);
    done
}

/// Returns whether a command loads a tape that is not loaded.
fn loads(command: &TapeCommand, is_loaded: bool) -> bool
    ensures { result ≡ loads_tape command.now is_loaded }
{
    matches!(command, TapeCommand::LoadUnload { load: true }) && !is_loaded
}

impl<S: Store> Unit<S> {
    /// Establishes for all other nexuses that the medium may have changed. It allocates nothing.
    fn medium_changed(&mut self, nexus: &Nexus)
        ensures { self.new ≡ record self.old { joined = raised_for_others nexus.now NotReadyToReadyChange self.old.joined } }
    {
        let attention = Attention::NotReadyToReadyChange;
        self.joined.raise_for_others(nexus, attention);
    }

    /// Carries out a command to the unit as a tape. If it loads the tape, a unit attention is established for all other
    /// nexuses.
    pub(crate) fn carry_out_on_tape(
        &mut self,
        used: &mut Buffers,
        nexus: &Nexus,
        command: TapeCommand,
        data: &[u8],
    ) -> Result<Done, Memory>
        requires { bytes_needed command ≤ length «data».now }
        ensures done { IfOk result (IsPerformed (touch_by «data».now self.old.device (to.Tape command))
            (λ came. tape_performed (tape_came came) nexus.now «data».now self.old self.old.device command) self.old self.new) }
        ensures given { IfOk result (λ done. length done.given ≤ most_given) }
        ensures err { OnErr result (self.new ≡ self.old) }
    {
        let Device::Tape(tape) = &mut self.device else {
            return Ok(Done::check_condition(self.alloc, Cdb::no_operation()));
        };
        let loads = loads(&command, tape.is_loaded());
        let done = carry_out(self.alloc, used, tape, command, data)?;
        if loads {
            self.medium_changed(nexus);
        }
        Ok(done)
    }

    /// Carries out such a command with data in pieces, which are joined first. It stays a call, as `carry_out_joined` does.
    #[inline(never)]
    pub(crate) fn carry_out_joined_on_tape(
        &mut self,
        used: &mut Buffers,
        nexus: &Nexus,
        command: TapeCommand,
        data: &Data,
    ) -> Result<Done, Memory>
        requires { bytes_needed command ≤ length «data».now }
        ensures done { IfOk result (IsPerformed (touch_by «data».now self.old.device (to.Tape command))
            (λ came. tape_performed (tape_came came) nexus.now «data».now self.old self.old.device command) self.old self.new) }
        ensures given { IfOk result (λ done. length done.given ≤ most_given) }
        ensures err { OnErr result (self.new ≡ self.old) }
    {
        let mut room = Vec::new(self.alloc);
        let joined = data.joined(&mut room)?;
        self.carry_out_on_tape(used, nexus, command, joined)
    }
}
