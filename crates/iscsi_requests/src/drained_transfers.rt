//! The data of removed SCSI Commands for which functions wait.

ghost use Rattle.std.specs.Prelude.{◌≡◌, ◌↔◌, ◌++◌, ◌&&◌, ◌==◌, ◌<◌, ◌^◌, [], length, true, OnOk, OnErr};
ghost use Rattle.iscsi_pdu.specs.Frames.{Frame as FrameState};
ghost use Rattle.iscsi_pdu.specs.Header.{data_length};
ghost use Rattle.iscsi_transfer.specs.Counted.{brought};
ghost use Rattle.std.specs.List.{list_any};
ghost use Rattle.iscsi_requests.specs.declared.verdict.Verdict.TheVariants.{Feeding};
ghost use Rattle.iscsi_requests.specs.Draining.{is_awaited, drained_for, awaited_in, awaits_in, is_draining, drain_with, drain_for, judged_drain, fed_drain, judged_in, fed_in, function_tag, lacks_for, telling_place, function_at, drains_without};
ghost use Rattle.iscsi_requests.specs.Unread.{IsUnread};
ghost use Rattle.iscsi_requests.specs.State.{bears, transfers_without};

use crate::abort_scope::Reach;
use crate::transfers::{Transfer, Transfers};
use crate::verdict::Verdict;
use iscsi_pdu::{Frame, Header};
use iscsi_transfer::Progress;
use std::marker::Model;
use target_limits::Memory;

/// How far the data of a SCSI Command has come that was removed while an R2T was open, and for which a function waits.
/// The data itself is not kept.
#[derive(Drop)]
pub struct DrainedTransfer {
    /// The header of the function.
    function: Header,
    /// The header of the command.
    header: Header,
    progress: Progress,
}

impl Model for DrainedTransfer {
    ghost use Rattle.iscsi_requests.specs.Drained.{Drained};
    ghost use Rattle.iscsi_requests.specs.declared.transfers.Transfer.{Transfer};

    ghost Value = { Drained };

    ghost view = { λ d. record { function = d.function; transfer = record { header = d.header; task = d.progress } } };
}

impl Transfer {
    /// Turns the transfer of a removed command into one for which this function waits.
    fn into_drained(self, function: Header) -> DrainedTransfer
        ensures { result ≡ drained_for function self }
    {
        DrainedTransfer {
            function,
            header: self.header,
            progress: self.task.into_progress(),
        }
    }

    /// Returns whether a function reaches the command, and an R2T is open.
    fn is_awaited(&self, reach: &Reach) -> bool
        ensures { result ≡ is_awaited reach.now self.now }
    {
        reach.has(&self.header) && self.task.is_asked()
    }
}

impl DrainedTransfer {
    /// Returns whether an R2T is open: not all that it asked for has come.
    fn is_draining(&self) -> bool
        ensures { result ≡ is_draining self.now }
    {
        self.progress.is_asked()
    }

    /// Returns whether this is data of the command with this tag, and an R2T is open.
    fn drains(&self, tag: u32) -> bool
        ensures { result ≡ (is_draining self.now && bears tag self.now.transfer) }
    {
        self.is_draining() && self.header.initiator_task_tag() == tag
    }

    /// Returns whether the function with this tag waits for this data.
    fn is_for(&self, tag: u32) -> bool
        ensures { result ≡ (function_tag self.now == tag) }
    {
        self.function.initiator_task_tag() == tag
    }

    /// Returns whether the function with this tag waits for this data, and not all of it has come.
    fn holds_up(&self, tag: u32) -> bool
        ensures { result ≡ (function_tag self.now == tag && is_draining self.now) }
    {
        self.is_for(tag) && self.is_draining()
    }
}

impl Transfers {
    /// Returns whether the data of no removed command is drained.
    pub fn drains_none(&self) -> bool
        ensures { (result ≡ true) ↔ (self.now.drains ≡ []) }
    {
        self.drains.is_empty()
    }

    /// Returns where the data of the command with this tag is drained.
    pub(crate) fn drain_of(&self, tag: u32) -> Option<usize>
        ensures { result ≡ drain_with tag self.now.drains }
    {
        self.drains.iter().position(|drained| drained.drains(tag))
    }

    /// Returns the verdict on a Data-Out whose tag belongs to no unfinished command.
    pub(crate) fn judge_drained(&self, frame: &Frame) -> Verdict
        ensures { result ≡ judged_drain self.now.drains frame.now (drain_for frame.now self.now.drains) }
    {
        self.judge_drained_by(&frame.header, frame.body.len())
    }

    /// Returns the verdict on a Data-Out whose tag belongs to no unfinished command, as [`Transfers::judge_drained`] does,
    /// by its header and the number of bytes that it brings.
    pub(crate) fn judge_drained_by(&self, header: &Header, size: usize) -> Verdict
        requires { size < 2 ^ 63 }
        ensures { (frame : FrameState) → frame.header ≡ header.now → length frame.body ≡ size
            → result ≡ judged_drain self.now.drains frame (drain_for frame self.now.drains) }
    {
        let Some(place) = self.drain_of(header.initiator_task_tag()) else {
            return Verdict::Dropped;
        };
        match self.drains[place].progress.fault_by(header, size) {
            Some(_) => Verdict::Violating,
            None => Verdict::Feeding,
        }
    }

    /// Accepts the data of a Data-Out that has no fault, and whose tag belongs to no unfinished command.
    pub(crate) fn feed_drained(&mut self, frame: &Frame)
        requires { judged_drain self.old.drains frame.now (drain_for frame.now self.old.drains) ≡ Feeding }
        ensures { self.new ≡ record self.old { drains = fed_drain self.old.drains frame.now (drain_for frame.now self.old.drains) } }
    {
        self.feed_drained_by(&frame.header, frame.body.len());
    }

    /// Counts the data of a Data-Out with this header, of which only the header was kept. It has no fault, and its tag
    /// belongs to no unfinished command.
    pub fn count_drained(&mut self, header: &Header)
        requires { judged_drain self.old.drains (brought header.now (data_length header.now))
            (drain_for (brought header.now (data_length header.now)) self.old.drains) ≡ Feeding }
        ensures { (frame : FrameState) → IsUnread self.old header.now frame → judged_in self.old frame ≡ Feeding
            → self.new ≡ fed_in self.old frame }
    {
        self.feed_drained_by(header, header.data_length());
    }

    /// Counts the data of a Data-Out, `size` bytes. It has no fault, and its tag belongs to no unfinished command.
    fn feed_drained_by(&mut self, header: &Header, size: usize)
        requires { judged_drain self.old.drains (brought header.now size) (drain_for (brought header.now size) self.old.drains) ≡ Feeding }
        ensures { self.new ≡ record self.old
            { drains = fed_drain self.old.drains (brought header.now size) (drain_for (brought header.now size) self.old.drains) } }
    {
        let Some(place) = self.drain_of(header.initiator_task_tag()) else {
            return;
        };
        self.drains[place].progress.accept_by(header, size);
    }

    /// Returns whether a function is to wait for data of the commands that it reaches.
    pub fn awaits(&self, reach: &Reach) -> bool
        ensures { result ≡ awaits_in reach.now self.now.list }
    {
        if !reach.waits() {
            return false;
        }
        self.has_asked(reach)
    }

    /// Returns whether an R2T is open for a command that a function reaches.
    fn has_asked(&self, reach: &Reach) -> bool
        ensures { result ≡ list_any (is_awaited reach.now) self.now.list }
    {
        self.list.iter().any(|transfer| transfer.is_awaited(reach))
    }

    /// Removes the commands that a function reaches. The function waits for the data of these commands that open R2Ts
    /// have asked for. If an allocation fails, nothing changes.
    pub fn drain(&mut self, reach: &Reach) -> Result<(), Memory>
        ensures ok { OnOk result (self.new ≡ record self.old
            { list = transfers_without reach.now self.old.list; drains = self.old.drains ++ awaited_in reach.now self.old.list }) }
        ensures err { OnErr result (self.new ≡ self.old) }
    {
        self.drains.reserve(self.list.len())?;
        let mut place = 0;
        while place < self.list.len() {
            if reach.has(&self.list[place].header) {
                let transfer = self.list.remove(place);
                if transfer.task.is_asked() {
                    self.drains
                        .push_reserved(transfer.into_drained(reach.function));
                }
            } else {
                place += 1;
            }
        }
        Ok(())
    }

    /// Returns whether data is still to come for which the function with this tag waits.
    fn lacks_for(&self, tag: u32) -> bool
        ensures { result ≡ lacks_for self.now.drains tag }
    {
        self.drains.iter().any(|drained| drained.holds_up(tag))
    }

    /// Returns the place of the first data whose function need not wait any longer.
    fn telling(&self) -> Option<usize>
        ensures { result ≡ telling_place self.now.drains }
    {
        self.drains.iter().position(|drained| !self.lacks_for(
            drained.function.initiator_task_tag(),
        ))
    }

    /// Returns the header of the first function whose data has come.
    pub fn drained(&self) -> Option<Header>
        ensures { result ≡ function_at self.now.drains (telling_place self.now.drains) }
    {
        match self.telling() {
            Some(place) => Some(self.drains[place].function),
            None => None,
        }
    }

    /// Forgets the data for which the function with this tag waited.
    pub fn forget(&mut self, tag: u32)
        ensures { self.new ≡ record self.old { drains = drains_without tag self.old.drains } }
    {
        let mut place = 0;
        while place < self.drains.len() {
            if self.drains[place].is_for(tag) {
                self.drains.remove(place);
            } else {
                place += 1;
            }
        }
    }
}
