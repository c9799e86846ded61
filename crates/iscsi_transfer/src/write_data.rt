//! The data of a SCSI Command on its way from the initiator.

ghost use Rattle.std.specs.Prelude.{◌≡◌, ◌^◌, ◌<◌, ◌≤◌, [], ◌∷◌, ◌⊎◌, length, true, IfOk, IfErr, OnOk, OnErr, Some, None};
ghost use Rattle.iscsi_pdu.specs.Frames.{Frame as FrameState};
ghost use Rattle.iscsi_transfer.specs.Payload.{Past, begun, accepted, asked as asked_in, announces, expected as expected_in};
ghost use Rattle.iscsi_transfer.specs.WriteData.{blank, remembered, command_fault as command_fault_in, fault_of as fault_in, with_data, with_asked, due_asks, first, is_due, is_asked, is_whole as is_whole_in, lacks_data};
ghost use Rattle.iscsi_transfer.specs.declared.fault.DataFault.TheVariants.{Memory};

use crate::fault::DataFault;
use crate::progress::{Ask, Progress, announces, expected};
use data_parts::{Data, Parts};
use iscsi_login::Values;
use iscsi_pdu::{Frame, Header};
use std::alloc::{AllocError, Global};
use std::marker::Model;

/// The data of one SCSI Command as it comes from the initiator (RFC 7143 §4.2.4.2): with the command, in unsolicited
/// Data-Outs, and in Data-Outs for R2Ts. Clauses see what it remembers of its past.
#[derive(Drop)]
pub struct WriteData {
    /// The data that has come.
    payload: Parts,
    progress: Progress,
}

impl Model for WriteData {
    ghost use Rattle.std.specs.Prelude.{◌≡◌, length, replicate};
    ghost use Rattle.iscsi_transfer.specs.WriteData.{WriteDataState};

    ghost Value = { WriteDataState };

    ghost view = { λ t. record t.progress { payload = t.payload } };

    ghost invariant = { λ t. t.progress.payload ≡ replicate (length t.payload) 0 };
}

/// Returns what is wrong with the immediate data of a SCSI Command, or with the Data-Outs that it announces: the first
/// of [`DataFault::ImmediateData`], [`DataFault::UnsolicitedData`] and [`DataFault::TooMuch`].
pub fn command_fault(command: &Frame, values: &Values) -> Option<DataFault>
    ensures { result ≡ command_fault_in values.now command.now }
{
    let limit = (values.first_burst_length as usize).min(expected(command));
    if !command.body.is_empty() && !(command.header.is_write() && values.immediate_data) {
        Some(DataFault::ImmediateData)
    } else if announces(command) && values.initial_r2t {
        Some(DataFault::UnsolicitedData)
    } else if limit < command.body.len() {
        Some(DataFault::TooMuch)
    } else {
        None
    }
}

/// Returns the data that came with a command. If none came, allocates no memory.
fn immediate(alloc: Global, body: Vec<u8>) -> Result<Parts, AllocError>
    ensures ok { IfOk result (λ parts. parts ≡ body.items) }
    ensures err { OnErr result (1 ≤ length body.items) }
{
    let mut parts = Parts::new(alloc);
    if body.is_empty() {
        return Ok(parts);
    }
    parts.push(body)?;
    Ok(parts)
}

impl WriteData {
    /// Starts the data of a SCSI Command that has just come. The immediate data stays in the buffer in which it came,
    /// and no room is made for what is to come.
    pub fn start(alloc: Global, command: Frame, values: &Values) -> Result<WriteData, DataFault>
        requires burst { 1 ≤ values.now.max_burst_length }
        requires outstanding { values.now.max_outstanding_r2t ≤ 4 }
        ensures stands { IfOk result (λ task. task ≡ remembered (begun values.now command)) }
        ensures lawful { OnOk result (command_fault_in values.now command ≡ None) }
        ensures fault { IfErr result (λ fault. (command_fault_in values.now command ≡ Some fault)
            ⊎ ((command_fault_in values.now command ≡ None) × (fault ≡ Memory) × (1 ≤ expected_in command))) }
    {
        if let Some(fault) = command_fault(&command, values) {
            return Err(fault);
        }
        let task = WriteData::begin(alloc, command, values)?;
        Ok(task)
    }

    /// Starts the data of a SCSI Command with which nothing is wrong ([`command_fault`]), as [`WriteData::start`] does.
    pub fn begin(alloc: Global, command: Frame, values: &Values) -> Result<WriteData, AllocError>
        requires burst { 1 ≤ values.now.max_burst_length }
        requires outstanding { values.now.max_outstanding_r2t ≤ 4 }
        requires lawful { command_fault_in values.now command ≡ None }
        ensures stands { IfOk result (λ task. task ≡ remembered (begun values.now command)) }
        ensures err { OnErr result (1 ≤ expected_in command) }
    {
        let progress = Progress::begun(&command, values);
        let payload = immediate(alloc, command.body)?;
        Ok(WriteData { payload, progress })
    }

    /// Returns whether the unsolicited data has ended, and more is wanted.
    pub fn lacks_data(&self) -> bool
        ensures { result ≡ lacks_data self.now }
    {
        self.progress.lacks_data()
    }

    /// Returns the first R2T that is due (RFC 7143 §11.8). The caller is to send it now, and then report its tag with
    /// [`WriteData::asked`]. R2Ts are due as soon as the unsolicited data has ended, and no more than MaxOutstandingR2T are
    /// open.
    pub fn due(&self) -> Option<Ask>
        ensures value { result ≡ first (due_asks self.now) }
        ensures few { length (due_asks self.now) ≤ 4 }
    {
        self.progress.due()
    }

    /// Returns whether an R2T is open: not all that it asked for has come.
    pub fn is_asked(&self) -> bool
        ensures { result ≡ is_asked self.now }
    {
        self.progress.is_asked()
    }

    /// Records that the first R2T that was due is sent, with this Target Transfer Tag.
    pub fn asked(&mut self, tag: u32)
        requires due { is_due self.old ≡ true }
        ensures same { self.new ≡ with_asked (tag ∷ []) self.old }
        ensures stands { (past : Past) → self.old ≡ remembered past → self.new ≡ remembered (asked_in (tag ∷ []) past) }
    {
        self.progress.asked(tag);
    }

    /// Returns what is wrong with a Data-Out of this command: the first of [`DataFault::TransferTag`],
    /// [`DataFault::DataSn`], [`DataFault::BufferOffset`], [`DataFault::TooMuch`] and [`DataFault::Final`].
    pub fn fault_of(&self, out: &Frame) -> Option<DataFault>
        ensures { result ≡ fault_in self.now out.now }
    {
        self.progress.fault_of(out)
    }

    /// Returns what is wrong with a Data-Out of this command, as [`WriteData::fault_of`] does, by its header and the
    /// number of bytes that it brings.
    pub fn fault_by(&self, header: &Header, size: usize) -> Option<DataFault>
        requires { size < 2 ^ 63 }
        ensures { (out : FrameState) → out.header ≡ header.now → length out.body ≡ size → result ≡ fault_in self.now out }
    {
        self.progress.fault_by(header, size)
    }

    /// Accepts a Data-Out of this command. Its data is appended to the payload, in the buffer in which it came. If
    /// something is wrong with it ([`WriteData::fault_of`]) or an allocation fails ([`DataFault::Memory`]), nothing changes.
    pub fn data_out(&mut self, out: Frame) -> Result<(), DataFault>
        ensures ok { OnOk result (self.new ≡ with_data self.old out) }
        ensures stands { OnOk result ((past : Past) → self.old ≡ remembered past → self.new ≡ remembered (accepted out past)) }
        ensures lawful { OnOk result (fault_in self.old out ≡ None) }
        ensures fault { IfErr result (λ fault. (fault_in self.old out ≡ Some fault) ⊎ ((fault_in self.old out ≡ None) × (fault ≡ Memory))) }
        ensures err { OnErr result (self.new ≡ self.old) }
    {
        if let Some(fault) = self.fault_of(&out) {
            return Err(fault);
        }
        self.accept(out)?;
        Ok(())
    }

    /// Accepts a Data-Out of this command with which nothing is wrong ([`WriteData::fault_of`]), as [`WriteData::data_out`]
    /// does. If an allocation fails, nothing changes.
    pub fn accept(&mut self, out: Frame) -> Result<(), AllocError>
        requires lawful { fault_in self.old out ≡ None }
        ensures ok { OnOk result (self.new ≡ with_data self.old out) }
        ensures err { OnErr result (self.new ≡ self.old) }
    {
        let Frame { header, body } = out;
        let size = body.len();
        self.payload.push(body)?;
        self.progress.accept_by(&header, size);
        Ok(())
    }

    /// Returns whether the payload is whole: no unsolicited Data-Out is to come, and nothing is to be asked for.
    pub fn is_whole(&self) -> bool
        ensures { result ≡ is_whole_in self.now }
    {
        self.progress.is_whole()
    }

    /// Returns how far its data has come. The data is thrown away, and its buffers are freed.
    pub fn into_progress(self) -> Progress
        ensures { result ≡ blank self }
    {
        self.progress
    }

    /// Returns the data that has come.
    pub fn payload(&self) -> Data<'_>
        ensures { result ≡ self.now.payload }
    {
        self.payload.data()
    }

    /// Returns the data that has come, with its buffers.
    pub fn into_payload(self) -> Parts
        ensures { result ≡ self.payload }
    {
        self.payload
    }
}
