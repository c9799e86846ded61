//! One initiator, on a connection of its own.

use crate::answers::{Answers, Asked};
use crate::fault::Fault;
use crate::random::Random;
use crate::requests::{Command, data_out, login, logout, scsi_command, text};
use crate::wire::Wire;
use std::alloc::Global;
use std::mem;

/// What an initiator remembers of its session.
#[derive(Drop)]
pub struct Host {
    /// The number of its connection.
    pub c: usize,
    /// The number in its name and its ISID.
    pub number: usize,
    tag: u32,
    cmd_sn: u32,
    pub answers: Answers,
    /// The number of answers that it expects in all, without Data-Ins and R2Ts.
    pub expected: u64,
    alloc: Global,
}

impl Host {
    /// Returns an initiator that has sent nothing.
    pub fn new(alloc: Global, c: usize, number: usize, random: &mut Random) -> Host {
        Host {
            c,
            number,
            tag: 0,
            cmd_sn: (random.number() & 0xffff_ffff) as u32,
            answers: Answers::new(alloc),
            expected: 0,
            alloc,
        }
    }

    /// Returns a tag that no other request of this initiator has.
    pub fn next_tag(&mut self) -> u32 {
        self.tag = self.tag.wrapping_add(1) & 0x7fff_ffff;
        self.tag
    }

    /// Returns the CmdSN of its next request.
    pub fn cmd_sn(&self) -> u32 {
        self.cmd_sn
    }

    /// Returns the CmdSN of its next request, and uses it up.
    pub fn next_cmd_sn(&mut self) -> u32 {
        let cmd_sn = self.cmd_sn;
        self.cmd_sn = cmd_sn.wrapping_add(1);
        cmd_sn
    }

    /// Expects one more answer.
    pub fn expect(&mut self) {
        self.expected = self.expected.wrapping_add(1);
    }

    /// Returns whether no more answers are expected.
    pub fn has_all(&self) -> bool {
        self.answers.ended == self.expected
    }

    /// Lays a SCSI Command next, with `data` bytes of immediate data, and returns its tag.
    pub fn lay(&mut self, wire: &mut Wire, command: &Command, data: usize) -> u32 {
        let tag = self.next_tag();
        let cmd_sn = self.next_cmd_sn();
        wire.lay(&scsi_command(command, tag, cmd_sn, data), data);
        self.expect();
        tag
    }

    /// Lays a SCSI Command next, with this immediate data.
    pub fn lay_data(&mut self, wire: &mut Wire, command: &Command, data: &[u8]) {
        let tag = self.next_tag();
        let cmd_sn = self.next_cmd_sn();
        wire.lay_text(&scsi_command(command, tag, cmd_sn, data.len()), data);
        self.expect();
    }

    /// Lays a Text Request next that asks for all targets.
    pub fn lay_send_targets(&mut self, wire: &mut Wire) {
        let asked = b"SendTargets=All\0";
        let tag = self.next_tag();
        let cmd_sn = self.next_cmd_sn();
        wire.lay_text(&text(0x80, tag, 0xffff_ffff, cmd_sn, asked.len()), asked);
        self.expect();
    }

    /// Lays a Logout Request next.
    pub fn lay_logout(&mut self, wire: &mut Wire) {
        let tag = self.next_tag();
        let cmd_sn = self.next_cmd_sn();
        wire.lay(&logout(tag, cmd_sn), 0);
        self.expect();
    }

    /// Lays the requested data next, in Data-Outs of `segment` bytes.
    pub fn lay_asked(&mut self, wire: &mut Wire, segment: usize) {
        let asked = mem::replace(&mut self.answers.asked, Vec::new(self.alloc));
        for part in asked.iter() {
            lay_part(wire, part, segment);
        }
    }

    /// Lays a login to a target of this name next, for Data-Ins of `segment` bytes.
    pub fn lay_login(
        &mut self,
        wire: &mut Wire,
        target: &str,
        segment: usize,
    ) -> Result<(), Fault> {
        let number = self.number;
        let text = format!(in self.alloc;
            "InitiatorName=iqn.2024-01.com.example:host{number}\0TargetName={target}\0SessionType=Normal\0HeaderDigest=None\0DataDigest=None\0MaxConnections=1\0InitialR2T=Yes\0ImmediateData=Yes\0MaxRecvDataSegmentLength={segment}\0MaxBurstLength=262144\0FirstBurstLength=65536\0DefaultTime2Wait=2\0DefaultTime2Retain=0\0MaxOutstandingR2T=4\0ErrorRecoveryLevel=0\0"
        )?;
        self.lay_login_text(wire, text.as_str());
        Ok(())
    }

    /// Lays a discovery login next.
    pub fn lay_discovery(&mut self, wire: &mut Wire) -> Result<(), Fault> {
        let number = self.number;
        let text = format!(in self.alloc;
            "InitiatorName=iqn.2024-01.com.example:host{number}\0InitiatorAlias=host{number}\0SessionType=Discovery\0HeaderDigest=None\0DataDigest=None\0DefaultTime2Wait=2\0DefaultTime2Retain=0\0IFMarker=No\0OFMarker=No\0ErrorRecoveryLevel=0\0MaxRecvDataSegmentLength=32768\0"
        )?;
        self.lay_login_text(wire, text.as_str());
        Ok(())
    }

    /// Lays a login with this text next.
    fn lay_login_text(&mut self, wire: &mut Wire, text: &str) {
        let isid = (self.number & 0xffff) as u16;
        wire.lay_text(&login(isid, self.cmd_sn, text.len()), text.as_bytes());
        self.expect();
    }
}

/// Lays the Data-Outs of a requested part next, each of at most `segment` bytes, or 512 if that is more.
fn lay_part(wire: &mut Wire, part: &Asked, segment: usize) {
    let segment = segment.max(512);
    let mut sent = 0usize;
    let mut data_sn = 0u32;
    for _ in 0..part.length {
        if sent >= part.length {
            break;
        }
        let count = segment.min(part.length - sent);
        let last = sent + count == part.length;
        let offset = part.offset.wrapping_add((sent & 0xffff_ffff) as u32);
        wire.lay(
            &data_out(part.tag, part.transfer, data_sn, offset, count, last),
            count,
        );
        sent += count;
        data_sn = data_sn.wrapping_add(1);
    }
}
