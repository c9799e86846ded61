//! The data that the initiator sends for the SCSI Commands of a session.

ghost use Rattle.std.specs.Prelude.{◌≡◌, ◌++◌, ◌∷◌, ◌<◌, ◌^◌, List, [], None, length, remove, slice_get, OnOk, OnErr};
ghost use Rattle.iscsi_pdu.specs.Frames.{Frame as FrameState};
ghost use Rattle.iscsi_pdu.specs.Header.{data_length};
ghost use Rattle.iscsi_login.specs.Values.{AreInRange};
ghost use Rattle.iscsi_transfer.specs.Counted.{brought};
ghost use Rattle.iscsi_transfer.specs.Payload.{begun};
ghost use Rattle.iscsi_transfer.specs.WriteData.{command_fault, remembered as task_of};
ghost use Rattle.iscsi_requests.specs.declared.transfers.Transfer.{Transfer};
ghost use Rattle.iscsi_requests.specs.declared.verdict.Verdict.TheVariants.{Feeding};
ghost use Rattle.iscsi_requests.specs.Draining.{judged_in, fed_in, is_live_in};
ghost use Rattle.iscsi_requests.specs.Unread.{IsUnread, takes_out, takes_in};
ghost use Rattle.iscsi_requests.specs.State.{no_transfers, place_with, immediate_transfers, whole_at, payload_at, removed_at, begun_transfer, reaches_some, transfers_without};

use crate::abort_scope::Reach;
use crate::drained_transfers::DrainedTransfer;
use crate::request_queue::USUALLY_MOST;
use crate::verdict::Verdict;
use data_parts::{Data, Parts};
use iscsi_login::Values;
use iscsi_pdu::{Frame, Header};
use iscsi_transfer::WriteData;
use std::alloc::Global;
use std::marker::Model;
use target_limits::Memory;

/// The data of one SCSI Command.
#[derive(Drop)]
pub struct Transfer {
    /// The header of the command.
    pub(crate) header: Header,
    /// Its data so far, and how far that has come.
    pub(crate) task: WriteData,
}

impl Transfer {
    /// Returns whether the command takes a Data-Out with this header and `size` bytes of data.
    pub(crate) fn takes(&self, header: &Header, size: usize) -> bool
        requires { size < 2 ^ 63 }
        ensures { result ≡ takes_out (brought header.now size) self.now }
    {
        self.header.initiator_task_tag() == header.initiator_task_tag()
            && self.task.fault_by(header, size).is_none()
    }
}

/// Removes the transfer at a place. Most often it is the last, after which none has to move.
fn take_at(list: &mut Vec<Transfer>, place: usize) -> Option<Transfer>
    requires { place < length list.old.items }
    ensures rest { list.new.items ≡ remove list.old.items place }
    ensures taken { result ≡ slice_get list.old.items place }
{
    if place + 1 == list.len() {
        return list.pop();
    }
    Some(list.remove(place))
}

/// The data of a session's SCSI Commands.
#[derive(Drop)]
pub struct Transfers {
    /// The Target Transfer Tag of the next R2T.
    pub(crate) next_tag: u32,
    /// The data of the commands that are not finished, in the order in which they came.
    pub(crate) list: Vec<Transfer>,
    /// The data of removed commands for which functions wait.
    pub(crate) drains: Vec<DrainedTransfer>,
    alloc: Global,
}

impl Model for Transfers {
    ghost use Rattle.std.specs.Prelude.{◌<◌};
    ghost use Rattle.iscsi_requests.specs.State.{TransferList};

    ghost Value = { TransferList };

    ghost view = { λ t. record { next_tag = t.next_tag; list = t.list.items; drains = t.drains.items } };

    ghost invariant = { λ t. t.next_tag < 0xFFFFFFFF };
}

impl Transfers {
    /// Creates an empty list. Allocates no memory.
    pub fn new(alloc: Global) -> Transfers
        ensures { result ≡ no_transfers }
    {
        Transfers {
            next_tag: 0,
            list: Vec::new(alloc),
            drains: Vec::new(alloc),
            alloc,
        }
    }

    /// Makes room for the data of as many commands as are usually not finished at most. If an allocation fails, nothing
    /// changes.
    pub fn reserve(&mut self) -> Result<(), Memory>
        ensures { self.new ≡ self.old }
    {
        self.list.reserve(USUALLY_MOST)?;
        Ok(())
    }

    /// Returns the place of the unfinished command with this tag.
    fn place_of(&self, tag: u32) -> Option<usize>
        ensures { result ≡ place_with tag self.now.list }
    {
        self.list
            .iter()
            .position(|transfer| transfer.header.initiator_task_tag() == tag)
    }

    /// Returns whether a SCSI Command with this tag is not finished, or its data is drained.
    pub fn is_live(&self, tag: u32) -> bool
        ensures { result ≡ is_live_in tag self.now }
    {
        self.place_of(tag).is_some() || self.drain_of(tag).is_some()
    }

    /// Returns how many unfinished commands are for immediate delivery.
    pub fn immediate(&self) -> usize
        ensures { result ≡ immediate_transfers self.now.list }
    {
        let mut immediate = 0;
        for transfer in &self.list {
            if transfer.header.is_immediate() {
                immediate += 1;
            }
        }
        immediate
    }

    /// Returns the verdict on a Data-Out.
    pub fn judge(&self, frame: &Frame) -> Verdict
        ensures { result ≡ judged_in self.now frame.now }
    {
        let Some(place) = self.place_of(frame.header.initiator_task_tag()) else {
            return self.judge_drained(frame);
        };
        match self.list[place].task.fault_of(frame) {
            Some(_) => Verdict::Violating,
            None => Verdict::Feeding,
        }
    }

    /// Returns the verdict on a Data-Out with this header, whose data no command that is not finished takes.
    pub fn judge_unread(&self, header: &Header) -> Verdict
        requires { data_length header.now < 2 ^ 63 }
        ensures { (frame : FrameState) → IsUnread self.now header.now frame → result ≡ judged_in self.now frame }
    {
        if self.place_of(header.initiator_task_tag()).is_some() {
            // The command does not take the Data-Out, so something is wrong with it.
            return Verdict::Violating;
        }
        self.judge_drained_by(header, header.data_length())
    }

    /// Returns whether a command that is not finished takes a Data-Out with this header and `size` bytes of data.
    pub fn takes(&self, header: &Header, size: usize) -> bool
        requires { size < 2 ^ 63 }
        ensures { result ≡ takes_in self.now (brought header.now size) }
    {
        self.list
            .iter()
            .any(|transfer| transfer.takes(header, size))
    }

    /// Accepts the data of a Data-Out that has no fault, in the buffer in which it came. If an allocation fails,
    /// nothing changes.
    pub fn take_data_out(&mut self, frame: Frame) -> Result<(), Memory>
        requires { judged_in self.old frame ≡ Feeding }
        ensures ok { OnOk result (self.new ≡ fed_in self.old frame) }
        ensures err { OnErr result (self.new ≡ self.old) }
    {
        let Some(place) = self.place_of(frame.header.initiator_task_tag()) else {
            self.feed_drained(&frame);
            return Ok(());
        };
        self.list[place].task.accept(frame)?;
        Ok(())
    }

    /// Adds a SCSI Command that has just come, with the data that it brings, in the buffer in which it came. If an
    /// allocation fails, nothing changes.
    pub fn begin(&mut self, frame: Frame, values: &Values) -> Result<(), Memory>
        requires values { AreInRange values.now }
        requires lawful { command_fault values.now frame ≡ None }
        ensures ok { OnOk result (self.new ≡ record self.old
            { list = self.old.list ++ begun_transfer frame.header (task_of (begun values.now frame)) ∷ [] }) }
        ensures err { OnErr result (self.new ≡ self.old) }
    {
        self.list.reserve(1)?;
        let header = frame.header;
        let task = WriteData::begin(self.alloc, frame, values)?;
        self.list.push_reserved(Transfer { header, task });
        Ok(())
    }

    /// Removes the SCSI Command that was added last.
    pub fn forget_last(&mut self)
        ensures { (list : List Transfer) (last : Transfer) → self.old.list ≡ list ++ last ∷ [] → self.new ≡ record self.old { list = list } }
    {
        self.list.pop();
    }

    /// Returns whether all data of the command with this tag has come.
    pub fn is_whole(&self, tag: u32) -> bool
        ensures { result ≡ whole_at self.now.list (place_with tag self.now.list) }
    {
        match self.place_of(tag) {
            Some(place) => self.list[place].task.is_whole(),
            None => true,
        }
    }

    /// Returns the data of the command with this tag.
    pub fn payload(&self, tag: u32) -> Data<'_>
        ensures { result ≡ payload_at self.now.list (place_with tag self.now.list) }
    {
        match self.place_of(tag) {
            Some(place) => self.list[place].task.payload(),
            None => Data::whole(&[]),
        }
    }

    /// Finishes the command with this tag. Returns its data, with its buffers.
    pub fn finish(&mut self, tag: u32) -> Option<Parts>
        ensures { self.new ≡ record self.old { list = removed_at self.old.list (place_with tag self.old.list) } }
    {
        let place = self.place_of(tag)?;
        let transfer = take_at(&mut self.list, place)?;
        Some(transfer.task.into_payload())
    }

    /// Returns whether a Task Management Function Request reaches one of the commands.
    pub fn has_reached(&self, reach: &Reach) -> bool
        ensures { result ≡ reaches_some reach.now self.now.list }
    {
        self.list.iter().any(|transfer| reach.has(&transfer.header))
    }

    /// Removes the commands that a Task Management Function Request reaches.
    pub fn remove(&mut self, reach: &Reach)
        ensures { self.new ≡ record self.old { list = transfers_without reach.now self.old.list } }
    {
        let mut place = 0;
        while place < self.list.len() {
            if reach.has(&self.list[place].header) {
                self.list.remove(place);
            } else {
                place += 1;
            }
        }
    }
}
