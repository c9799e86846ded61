//! Logins as libiscsi and open-iscsi send them, and other ways to send the same keys.

use crate::exchange::open;
use crate::fault::Fault;
use crate::host::Host;
use crate::line::Line;
use crate::random::Random;
use crate::requests::{Header, login, text};
use std::alloc::{AllocError, Global};

/// The length of the longest data segment that both sides take.
pub const SEGMENT: usize = 262_144;

/// The most bytes that the loop reads at a time.
pub const CUT: usize = 65_536;

/// T, CSG and NSG of a Login Request: from security to operational negotiation, from there to full feature phase, and
/// no transition.
const TO_OPERATIONAL: u8 = 0x81;

const TO_FULL_FEATURE: u8 = 0x87;

const STAYS: u8 = 0x04;

/// The ISID of each open-iscsi initiator, which counts from 00023d000000 on each host.
const OPEN_ISCSI_ISID: [u8; 6] = [0x00, 0x02, 0x3d, 0x00, 0x00, 0x01];

/// The keys that libiscsi 1.19.0 sends after both names.
const LIBISCSI_KEYS: &str =
    "SessionType=Normal\0HeaderDigest=None,CRC32C\0DataDigest=None\0InitialR2T=No\0ImmediateData=Yes\0MaxBurstLength=262144\0FirstBurstLength=262144\0DefaultTime2Wait=2\0DefaultTime2Retain=0\0MaxOutstandingR2T=1\0ErrorRecoveryLevel=0\0IFMarker=No\0OFMarker=No\0MaxConnections=1\0MaxRecvDataSegmentLength=262144\0DataPDUInOrder=Yes\0DataSequenceInOrder=Yes\0";

/// The keys that open-iscsi 2.1.8 sends after both names, its alias and the type of the session, up to the keys of
/// bursts.
const OPEN_ISCSI_FRONT: &str =
    "HeaderDigest=None\0DataDigest=None\0DefaultTime2Wait=2\0DefaultTime2Retain=0\0IFMarker=No\0OFMarker=No\0ErrorRecoveryLevel=0\0InitialR2T=No\0ImmediateData=Yes\0";

/// Its keys of bursts.
const OPEN_ISCSI_BURSTS: &str = "MaxBurstLength=16776192\0FirstBurstLength=262144\0";

/// The keys that it sends after them.
const OPEN_ISCSI_END: &str =
    "MaxOutstandingR2T=1\0MaxConnections=1\0DataPDUInOrder=Yes\0DataSequenceInOrder=Yes\0MaxRecvDataSegmentLength=262144\0";

/// The keys of bursts of 64 KiB.
const SHORT_BURSTS: &str = "MaxBurstLength=65536\0FirstBurstLength=65536\0";

/// The keys of open-iscsi in seven texts, with bursts of 64 KiB.
const SEVEN_TEXTS: [(u8, &str); 7] = [
    (STAYS, "HeaderDigest=None\0DataDigest=None\0"),
    (
        STAYS,
        "DefaultTime2Wait=2\0DefaultTime2Retain=0\0IFMarker=No\0OFMarker=No\0",
    ),
    (
        STAYS,
        "ErrorRecoveryLevel=0\0InitialR2T=No\0ImmediateData=Yes\0",
    ),
    (STAYS, SHORT_BURSTS),
    (STAYS, "MaxOutstandingR2T=1\0MaxConnections=1\0"),
    (STAYS, "DataPDUInOrder=Yes\0DataSequenceInOrder=Yes\0"),
    (TO_FULL_FEATURE, "MaxRecvDataSegmentLength=262144\0"),
];

/// The alias of an initiator of open-iscsi.
const ALIAS: &str = "InitiatorAlias=(none)\0";

/// The type of a session to a target.
const NORMAL: &str = "SessionType=Normal\0";

/// How an initiator logs in.
#[derive(Clone, Copy)]
enum Way {
    /// As libiscsi: one text of 19 keys and 440 bytes.
    Libiscsi,
    /// As open-iscsi: one text of 20 keys and 425 bytes.
    OpenIscsi,
    /// The same with a longer name, 437 bytes.
    Guest,
    /// With the keys of a guest, in both stages.
    BothStages,
    /// With these keys in two texts of one stage.
    TwoTexts,
    /// With these keys in eight texts of one stage.
    EightTexts,
}

/// The ways of eight initiators in turn. The last two add further keys, up to 40 in all.
const WAYS: [Way; 8] = [
    Way::Libiscsi,
    Way::OpenIscsi,
    Way::Guest,
    Way::BothStages,
    Way::TwoTexts,
    Way::EightTexts,
    Way::Libiscsi,
    Way::Guest,
];

/// A Login Request: T, CSG and NSG, and a whole text.
#[derive(Drop)]
struct Part {
    stages: u8,
    text: String,
}

/// An initiator that always logs in the same way.
#[derive(Drop)]
pub struct Initiator {
    pub host: Host,
    isid: [u8; 6],
    parts: Vec<Part>,
    /// What it asks in full feature phase.
    question: String,
    alloc: Global,
}

impl Initiator {
    /// Makes the initiator with this number, which logs in to a target in one of eight ways.
    pub fn new(
        alloc: Global,
        number: usize,
        target: &str,
        random: &mut Random,
    ) -> Result<Initiator, Fault> {
        let way = WAYS[number % 8];
        let host = Host::new(alloc, number % 64, number, random);
        let mut initiator = Initiator {
            host,
            isid: isid(way, random),
            parts: Vec::new(alloc),
            question: further_keys(alloc, 17 + number % 24)?,
            alloc,
        };
        let more = if number % 8 < 6 { 0 } else { number / 8 };
        initiator.add_login(way, target, more)?;
        Ok(initiator)
    }

    /// Adds a Login Request.
    fn add(&mut self, stages: u8, texts: &[&str]) -> Result<(), AllocError> {
        let mut all = String::new(self.alloc);
        for text in texts.iter() {
            all.push_str(text)?;
        }
        self.parts.push(Part { stages, text: all })?;
        Ok(())
    }

    /// Adds unknown keys to the last Login Request: three for each unit of `more`, but at most 20.
    fn add_further_keys(&mut self, more: usize) -> Result<(), AllocError> {
        let keys = further_keys(self.alloc, more.saturating_mul(3).min(20))?;
        if let Some(part) = self.parts.last_mut() {
            part.text.push_str(keys.as_str())?;
        }
        Ok(())
    }

    /// Returns the keys with which it names itself and the target.
    fn names(&self, way: Way, target: &str) -> Result<String, AllocError> {
        let number = self.host.number;
        let (name, alias, kind) = match way {
            Way::Libiscsi => ("iqn.2007-10.com.github:sahlberg:libiscsi:iscsi-inq", "", ""),
            Way::OpenIscsi => ("iqn.2026-11.bench:", ALIAS, NORMAL),
            _ => ("iqn.2024-01.com.example:guest-", ALIAS, NORMAL),
        };
        format!(in self.alloc;
            "InitiatorName={name}{number:02}\0{alias}TargetName={target}\0{kind}"
        )
    }

    /// Adds the Login Requests of a way, the last with further keys.
    fn add_login(&mut self, way: Way, target: &str, more: usize) -> Result<(), AllocError> {
        let names = self.names(way, target)?;
        self.add_texts(way, names.as_str())?;
        self.add_further_keys(more)
    }

    /// Adds the Login Requests of a way, the first of which begins with the names.
    fn add_texts(&mut self, way: Way, names: &str) -> Result<(), AllocError> {
        match way {
            Way::Libiscsi => self.add(TO_FULL_FEATURE, &[names, LIBISCSI_KEYS]),
            Way::OpenIscsi | Way::Guest => {
                let keys = [names, OPEN_ISCSI_FRONT, OPEN_ISCSI_BURSTS, OPEN_ISCSI_END];
                self.add(TO_FULL_FEATURE, &keys)
            }
            Way::BothStages => {
                self.add(TO_OPERATIONAL, &[names, "AuthMethod=CHAP,None\0"])?;
                let keys = [OPEN_ISCSI_FRONT, OPEN_ISCSI_BURSTS, OPEN_ISCSI_END];
                self.add(TO_FULL_FEATURE, &keys)
            }
            Way::TwoTexts => {
                self.add(STAYS, &[names, OPEN_ISCSI_FRONT])?;
                self.add(TO_FULL_FEATURE, &[SHORT_BURSTS, OPEN_ISCSI_END])
            }
            Way::EightTexts => self.add_eight_texts(names),
        }
    }

    /// Adds the login of a guest in eight texts of one stage, with bursts of 64 KiB.
    fn add_eight_texts(&mut self, names: &str) -> Result<(), AllocError> {
        self.add(STAYS, &[names])?;
        for (stages, text) in SEVEN_TEXTS.iter() {
            self.add(*stages, &[*text])?;
        }
        Ok(())
    }

    /// Opens a connection and logs in, each text after the answer to the one before.
    pub fn log_in(&mut self, line: &mut Line) -> Result<(), Fault> {
        open(&mut line.target, self.host.c)?;
        for part in self.parts.iter() {
            let header = part.header(self.isid, self.host.cmd_sn());
            line.wire.begin(0);
            line.wire.lay_text(&header, part.text.as_bytes());
            self.host.expect();
            line.exchange(&mut self.host)?;
        }
        Ok(())
    }

    /// Sends a Text Request of 17 to 40 keys.
    pub fn ask(&mut self, line: &mut Line) -> Result<(), Fault> {
        let (tag, cmd_sn) = (self.host.next_tag(), self.host.next_cmd_sn());
        let asked = self.question.as_bytes();
        line.wire.begin(0);
        line.wire
            .lay_text(&text(0x80, tag, 0xffff_ffff, cmd_sn, asked.len()), asked);
        self.host.expect();
        line.exchange(&mut self.host)
    }
}

/// Returns the ISID of an initiator: that of libiscsi has three random bytes.
fn isid(way: Way, random: &mut Random) -> [u8; 6] {
    match way {
        Way::Libiscsi => {
            let bytes = random.number().to_be_bytes();
            [0x80, bytes[0], bytes[1], bytes[2], 0, 0]
        }
        _ => OPEN_ISCSI_ISID,
    }
}

impl Part {
    /// Makes the header of the Login Request.
    fn header(&self, isid: [u8; 6], cmd_sn: u32) -> Header {
        let mut header = login(0, cmd_sn, self.text.len());
        header[1] = self.stages;
        header[8..14].copy_from_slice(&isid);
        header
    }
}

/// Returns a text of `count` unknown keys.
fn further_keys(alloc: Global, count: usize) -> Result<String, AllocError> {
    let mut all = String::new(alloc);
    for number in 0..count {
        write!(all, "X-com.example.key{number:02}=value{number:02}\0")?;
    }
    Ok(all)
}
