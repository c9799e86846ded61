//! How a unit performs a command: the checks, and then the command.

ghost use Rattle.std.specs.Prelude.{◌≡◌, ◌≤◌, [], length, take, slice_index, IsTrue, IfOk, OnOk, OnErr};
ghost use Rattle.scsi_cdb.specs.Operation.{row_of};
ghost use Rattle.scsi_mode.specs.ParameterList.{selected};
ghost use Rattle.scsi_unit.specs.Device.{parameters_of, store_of};
ghost use Rattle.scsi_unit.specs.Checks.{judged, has_range, range_of, needed, data_sense, writes};
ghost use Rattle.scsi_disk.specs.DiskCommands.{bytes_needed, most_given};
ghost use Rattle.scsi_unit.specs.Unit.{mode_selected, unit_done, carried_out, refused_with, performed_as, touch_by, touch_at, IsPerformed};
ghost use Rattle.scsi_unit.specs.Joined.{told};
ghost use Rattle.scsi_unit.specs.Identity.{sense_outcome, pending_sense};

use crate::device::Device;
use crate::identity::{inquiry, report_luns, sense_data};
use crate::joined::{pending, tell};
use crate::modes::mode_sense;
use crate::persistent_reserve::reserve_in;
use crate::refusal::Refusal;
use crate::unit::Unit;
use bytes::BytesMut;
use data_parts::Data;
use media_block::BLOCK_LENGTH;
use media_store::Store;
use scsi_cdb::{Cdb, Command, DiskCommand, FieldFault, ModeSelectFields, Row, UnitCommand};
use scsi_disk::Buffers;
use scsi_mode::{ListFault, select};
use scsi_sense::{Attention, Condition, Done, Nexus, Sense};
use target_limits::Memory;

/// Returns the number of bytes of data that a command to a disk needs.
fn bytes_needed(command: &DiskCommand) -> usize
    ensures { result ≡ bytes_needed command.now }
{
    match command {
        DiskCommand::Write { range, .. } | DiskCommand::VerifyData(range) => {
            BLOCK_LENGTH * range.count() as usize
        }
        DiskCommand::WriteSame(_) => BLOCK_LENGTH,
        DiskCommand::CompareAndWrite { range, .. } => 2 * (BLOCK_LENGTH * range.count() as usize),
        DiskCommand::Read(_)
        | DiskCommand::ReadCapacity10
        | DiskCommand::ReadCapacity16 { .. }
        | DiskCommand::Verify(_)
        | DiskCommand::SynchronizeCache(_) => 0,
    }
}

/// Returns the number of bytes of data that a command needs.
fn needed(command: &Command) -> usize
    ensures { result ≡ needed command.now }
{
    match command {
        Command::Unit(UnitCommand::ModeSelect(fields)) => fields.list_length as usize,
        Command::Unit(UnitCommand::ReserveOut(fields)) => fields.list_length as usize,
        Command::Unit(_) => 0,
        Command::Disk(command) => bytes_needed(command),
        Command::Tape(command) => scsi_tape::bytes_needed(command),
    }
}

/// Returns the sense data of a command whose data is too short.
fn short_data(command: &Command) -> Sense
    ensures { result ≡ data_sense command.now }
{
    match command {
        Command::Unit(_) => ListFault::EndsEarly.sense(),
        Command::Disk(_) | Command::Tape(_) => FieldFault::InvalidField.sense(),
    }
}

/// Returns whether a command writes blocks.
fn writes(command: &Command) -> bool
    ensures { result ≡ writes command.now }
{
    matches!(
        command,
        Command::Disk(
            DiskCommand::Write { .. }
                | DiskCommand::WriteSame(_)
                | DiskCommand::CompareAndWrite { .. },
        )
    )
}

impl<S: Store> Unit<S> {
    /// Carries out REQUEST SENSE: returns the first pending attention as data, and clears it. The room for the data is
    /// made first, so that nothing changes if an allocation fails.
    fn request_sense(&mut self, nexus: &Nexus, allocation_length: u32) -> Result<Done, Memory>
        ensures ok { OnOk result (self.new ≡ record self.old { joined = (told nexus.now self.old.joined).0 }) }
        ensures done { IfOk result (λ done. done ≡ sense_outcome (pending_sense (told nexus.now self.old.joined).1) allocation_length) }
        ensures given { IfOk result (λ done. length done.given ≤ most_given) }
        ensures err { OnErr result (self.new ≡ self.old) }
    {
        let condition = match pending(&self.joined, nexus) {
            Some(attention) => Condition::UnitAttention(attention),
            None => Condition::NoAdditionalSenseInformation,
        };
        let done = sense_data(self.alloc, Sense::new(condition), allocation_length)?;
        let _ = tell(&mut self.joined, nexus);
        Ok(done)
    }

    /// Carries out MODE SELECT with this data, which has the parameter list. If a parameter changes, a unit attention
    /// is established for all other nexuses. It allocates nothing.
    fn mode_select(&mut self, nexus: &Nexus, fields: ModeSelectFields, data: &[u8]) -> Done
        requires { fields.list_length ≤ length «data».now }
        ensures selected { (self.new, result) ≡ mode_selected nexus.now self.old fields.list_length
            (selected (parameters_of self.old.device) fields.header (take fields.list_length «data».now)) }
        ensures store { store_of self.new.device ≡ store_of self.old.device }
        ensures given { result.given ≡ [] }
    {
        let before = self.device.parameters();
        let list = &data[..fields.list_length as usize];
        match select(before, fields.header, list) {
            Ok(parameters) => {
                if before.differs(parameters) {
                    let attention = Attention::ModeParametersChanged;
                    self.joined.raise_for_others(nexus, attention);
                }
                self.device.set_parameters(parameters);
                Done::good_taking(self.alloc, fields.list_length)
            }
            Err(fault) => Done::check_condition(self.alloc, fault.sense()),
        }
    }

    /// Carries out a command that units of every kind have. If an allocation fails, nothing changes.
    #[tactic(auto, unfolding(crate::specs::Unit::unit_done))]
    fn carry_out_of_any(
        &mut self,
        nexus: &Nexus,
        command: UnitCommand,
        data: &[u8],
    ) -> Result<Done, Memory>
        requires { needed (Command.Unit command) ≤ length «data».now }
        ensures done { IfOk result (λ done. (self.new, done) ≡ unit_done nexus.now «data».now self.old command) }
        ensures store { store_of self.new.device ≡ store_of self.old.device }
        ensures given { IfOk result (λ done. length done.given ≤ most_given) }
        ensures err { OnErr result (self.new ≡ self.old) }
    {
        match command {
            UnitCommand::TestUnitReady => Ok(Done::good(self.alloc)),
            UnitCommand::RequestSense { allocation_length } => {
                self.request_sense(nexus, allocation_length)
            }
            UnitCommand::Inquiry {
                page,
                allocation_length,
            } => {
                let serial = self.serial.as_bytes();
                inquiry(
                    self.alloc,
                    self.device.kind(),
                    serial,
                    page,
                    allocation_length,
                )
            }
            UnitCommand::ReportLuns(fields) => report_luns(
                self.alloc,
                &[self.lun.number()],
                fields,
            ),
            UnitCommand::ModeSense(fields) => mode_sense(
                self.alloc,
                self.device.parameters(),
                fields,
            ),
            UnitCommand::ModeSelect(fields) => Ok(self.mode_select(nexus, fields, data)),
            UnitCommand::ReserveIn(fields) => reserve_in(self.alloc, &self.reservations, fields),
            UnitCommand::ReserveOut(fields) => self.reserve_out(nexus, fields, data),
        }
    }

    /// Carries out such a command with data in pieces, which are joined first. It stays a call, since its values would lie
    /// on the stack of every command.
    #[inline(never)]
    fn carry_out_joined(
        &mut self,
        nexus: &Nexus,
        command: UnitCommand,
        data: &Data,
    ) -> Result<Done, Memory>
        requires { needed (Command.Unit command) ≤ length «data».now }
        ensures done { IfOk result (λ done. (self.new, done) ≡ unit_done nexus.now «data».now self.old command) }
        ensures store { store_of self.new.device ≡ store_of self.old.device }
        ensures given { IfOk result (λ done. length done.given ≤ most_given) }
        ensures err { OnErr result (self.new ≡ self.old) }
    {
        let mut room = Vec::new(self.alloc);
        let joined = data.joined(&mut room)?;
        self.carry_out_of_any(nexus, command, joined)
    }

    /// Carries out a command that no check refuses. If an allocation fails, nothing changes.
    fn carry_out(
        &mut self,
        used: &mut Buffers,
        nexus: &Nexus,
        command: Command,
        data: &Data,
    ) -> Result<Done, Memory>
        requires range { IsTrue (has_range self.old.device (range_of command)) }
        requires enough { needed command ≤ length «data».now }
        ensures done { IfOk result (IsPerformed (touch_by «data».now self.old.device command)
            (λ came. carried_out came nexus.now «data».now self.old command) self.old self.new) }
        ensures given { IfOk result (λ done. length done.given ≤ most_given) }
        ensures err { OnErr result (self.new ≡ self.old) }
    {
        match command {
            Command::Unit(command) => self.carry_out_joined(nexus, command, data),
            Command::Disk(command) => match &mut self.device {
                Device::Disk(disk) => disk.carry_out(self.alloc, used, command, data),
                Device::Tape(_) => Ok(Done::check_condition(self.alloc, Cdb::no_operation())),
            },
            Command::Tape(command) => self.carry_out_joined_on_tape(used, nexus, command, data),
        }
    }

    /// Returns the command that the bytes encode, or the first check that refuses it (own, after SPC-4). `row` is that of its
    /// operation code, and `attention` the first that is pending for the nexus.
    #[tactic(auto, unfolding(crate::specs::Checks::judged))]
    fn judge(
        &self,
        nexus: &Nexus,
        row: Option<Row>,
        attention: Option<Attention>,
        cdb: [u8; 16],
        data: &Data,
    ) -> Result<Command, Refusal>
        requires row { row ≡ row_of (slice_index cdb 0) }
        requires pending { attention ≡ (told nexus.now self.now.joined).1 }
        ensures judged { result ≡ judged nexus.now cdb «data».now self.now }
        ensures range { IfOk result (λ command. IsTrue (has_range self.now.device (range_of command))) }
        ensures needed { IfOk result (λ command. needed command ≤ length «data».now) }
    {
        let row = match row {
            Some(row) if row.operation.is_for(self.device.kind()) => row,
            _ => return Err(Refusal::Refused(Cdb::no_operation())),
        };
        if !row.passes_attention {
            if let Some(attention) = attention {
                return Err(Refusal::Told(attention));
            }
        }
        if !self.reservations.allows(nexus, row.reservation) {
            return Err(Refusal::Conflict);
        }
        if let Some(sense) = self.device.unready(row.needs) {
            return Err(Refusal::Refused(sense));
        }
        let command = match row.operation.command(cdb, self.device.fixed_length()) {
            Ok(command) => command,
            Err(fault) => return Err(Refusal::Refused(fault.sense())),
        };
        if !self.device.has_range(&command) {
            let condition = Condition::LogicalBlockAddressOutOfRange;
            return Err(Refusal::Refused(Sense::new(condition)));
        }
        if data.len() < needed(&command) {
            return Err(Refusal::Refused(short_data(&command)));
        }
        if writes(&command) && self.device.is_protected() {
            return Err(Refusal::Refused(Sense::new(Condition::WriteProtected)));
        }
        Ok(command)
    }

    /// Answers a command that is refused.
    fn refuse(&mut self, nexus: &Nexus, refusal: Refusal) -> Done
        ensures refused { (self.new, result) ≡ refused_with nexus.now self.old refusal }
        ensures store { store_of self.new.device ≡ store_of self.old.device }
        ensures given { result.given ≡ [] }
    {
        match refusal {
            Refusal::Refused(sense) => Done::check_condition(self.alloc, sense),
            Refusal::Conflict => Done::reservation_conflict(self.alloc),
            Refusal::Told(attention) => {
                let _ = tell(&mut self.joined, nexus);
                let sense = Sense::new(Condition::UnitAttention(attention));
                Done::check_condition(self.alloc, sense)
            }
        }
    }

    /// Performs a command on the unit with this data. `row` is that of its operation code. The data that it returns lies in
    /// a buffer of `used`, if there is one. If an allocation fails, nothing changes.
    #[tactic(auto, unfolding(crate::specs::Unit::performed_as, crate::specs::Unit::touch_at))]
    pub(crate) fn perform_with(
        &mut self,
        used: &mut Buffers,
        nexus: &Nexus,
        row: Option<Row>,
        cdb: [u8; 16],
        data: &Data,
    ) -> Result<Done, Memory>
        requires { row ≡ row_of (slice_index cdb 0) }
        ensures done { IfOk result (IsPerformed (touch_at nexus.now cdb «data».now self.old)
            (λ came. performed_as came nexus.now cdb «data».now self.old) self.old self.new) }
        ensures given { IfOk result (λ done. length done.given ≤ most_given) }
        ensures err { OnErr result (self.new ≡ self.old) }
    {
        let attention = self.joined.look_for(nexus);
        match self.judge(nexus, row, attention, cdb, data) {
            Ok(command) => self.carry_out(used, nexus, command, data),
            Err(refusal) => Ok(self.refuse(nexus, refusal)),
        }
    }
}
