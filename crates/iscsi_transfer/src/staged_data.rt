//! The data of a Data-Out that is staged until its PDU is whole.

ghost use Rattle.std.specs.Prelude.{◌≡◌, ◌++◌, ◌⊎◌, [], IfErr, OnOk, OnErr, Some, None};
ghost use Rattle.iscsi_transfer.specs.Payload.{Past, accepted};
ghost use Rattle.iscsi_transfer.specs.Staged.{staged_frame};
ghost use Rattle.iscsi_transfer.specs.WriteData.{remembered, fault_of as fault_in, with_data};
ghost use Rattle.iscsi_transfer.specs.declared.fault.DataFault.TheVariants.{Memory};

use crate::fault::DataFault;
use crate::write_data::WriteData;
use iscsi_pdu::{Frame, Header};
use std::alloc::Global;
use std::marker::Model;
use std::mem;

/// The data of one SCSI Command, and after it that of a Data-Out (RFC 7143 §11.7) whose PDU is still arriving. It is for a
/// caller to whom that data is lent as it comes. What is staged belongs to the payload once its Data-Out is accepted.
#[derive(Drop)]
pub struct StagedData {
    task: WriteData,
    /// The data that is staged.
    staged: Vec<u8>,
    alloc: Global,
}

impl Model for StagedData {
    ghost use Rattle.iscsi_transfer.specs.Staged.{StagedState};

    ghost Value = { StagedState };

    ghost view = { λ s. record { task = s.task; staged = s.staged.items } };
}

impl StagedData {
    /// Returns the data of a command, with nothing staged after it. Allocates no memory.
    pub fn new(alloc: Global, task: WriteData) -> StagedData
        ensures { result ≡ record { task = task; staged = [] } }
    {
        StagedData {
            task,
            staged: Vec::new(alloc),
            alloc,
        }
    }

    /// Returns the data of the command. What is staged is no part of it.
    pub fn task(&self) -> &WriteData
        ensures { result.now ≡ self.now.task }
    {
        &self.task
    }

    /// Stages the next data of a Data-Out. If an allocation fails ([`DataFault::Memory`]), nothing changes.
    pub fn stage(&mut self, data: &[u8]) -> Result<(), DataFault>
        ensures ok { OnOk result (self.new ≡ record self.old { staged = self.old.staged ++ «data».now }) }
        ensures fault { IfErr result (λ fault. fault ≡ Memory) }
        ensures err { OnErr result (self.new ≡ self.old) }
    {
        self.staged.extend_from_slice(data)?;
        Ok(())
    }

    /// Accepts the Data-Out with this header whose data is staged, as [`WriteData::data_out`] does. After that nothing is
    /// staged. If something is wrong with it or an allocation fails, the command's data stays the same.
    pub fn staged_out(&mut self, header: &Header) -> Result<(), DataFault>
        ensures ok { OnOk result (self.new.task ≡ with_data self.old.task (staged_frame header.now self.old)) }
        ensures stands { OnOk result ((past : Past) → self.old.task ≡ remembered past
            → self.new.task ≡ remembered (accepted (staged_frame header.now self.old) past)) }
        ensures lawful { OnOk result (fault_in self.old.task (staged_frame header.now self.old) ≡ None) }
        ensures fault { IfErr result (λ fault. (fault_in self.old.task (staged_frame header.now self.old) ≡ Some fault)
            ⊎ ((fault_in self.old.task (staged_frame header.now self.old) ≡ None) × (fault ≡ Memory))) }
        ensures err { OnErr result (self.new.task ≡ self.old.task) }
        ensures staged { self.new.staged ≡ [] }
    {
        let body = mem::replace(&mut self.staged, Vec::new(self.alloc));
        let out = Frame {
            header: *header,
            body,
        };
        self.task.data_out(out)
    }

    /// Throws away what is staged, as when the command is removed before its Data-Out is whole.
    pub fn unstage(&mut self)
        ensures { self.new ≡ record self.old { staged = [] } }
    {
        self.staged.clear();
    }

    /// Returns the data of the command. What is staged is thrown away.
    pub fn into_task(self) -> WriteData
        ensures { result ≡ self.task }
    {
        self.task
    }
}
