//! The answers of the target, and how they are written.

ghost use Rattle.std.specs.Prelude.{◌≡◌, ◌+◌, ◌<◌, ◌≤◌, ◌++◌, length, take, IfErr, OnOk, OnErr};

use crate::data_in::DataIn;
use crate::fault::PduFault;
use crate::header::HEADER_LENGTH;
use crate::login_response::LoginResponse;
use crate::logout_response::LogoutResponse;
use crate::nop_in::NopIn;
use crate::r2t::R2t;
use crate::reject::Reject;
use crate::scsi_response::{ScsiResponse, sense_segment};
use crate::segment::put;
use crate::task_management_response::TaskManagementResponse;
use crate::text_response::TextResponse;
use bytes::BytesMut;

/// A PDU that the target sends.
#[derive(Drop)]
pub enum Answer<'a> {
    /// 20h NOP-In
    NopIn(NopIn<'a>),
    /// 21h SCSI Response
    ScsiResponse(ScsiResponse),
    /// 22h Task Management Function Response
    TaskManagementResponse(TaskManagementResponse),
    /// 23h Login Response
    LoginResponse(LoginResponse),
    /// 24h Text Response
    TextResponse(TextResponse<'a>),
    /// 25h SCSI Data-In
    DataIn(DataIn<'a>),
    /// 26h Logout Response
    LogoutResponse(LogoutResponse),
    /// 31h Ready To Transfer
    R2t(R2t),
    /// 3Fh Reject
    Reject(Reject),
}

impl<'a> Answer<'a> {
    ghost use Rattle.iscsi_pdu.specs.Answer.{spelling};
    ghost use Rattle.iscsi_pdu.specs.Header.{header_length};
    ghost use Rattle.iscsi_pdu.specs.Segment.{most_data};

    /// Returns the length of the answer in bytes: its header, its data segment and the padding.
    pub fn length(&self) -> usize
        ensures value { result ≡ length (spelling self.now) }
        ensures bound { result ≤ header_length + most_data }
    {
        match self {
            Answer::NopIn(answer) => answer.length(),
            Answer::ScsiResponse(response) => response.length(),
            Answer::TaskManagementResponse(response) => response.length(),
            Answer::LoginResponse(response) => response.length(),
            Answer::TextResponse(response) => response.length(),
            Answer::DataIn(piece) => piece.length(),
            Answer::LogoutResponse(response) => response.length(),
            Answer::R2t(ask) => ask.length(),
            Answer::Reject(reject) => reject.length(),
        }
    }

    /// Returns the header of the answer: the first 48 bytes of what [`write`](Answer::write) appends.
    #[tactic(auto, using(std::proofs::lemmas::List::take_at))]
    pub fn head(&self) -> [u8; HEADER_LENGTH]
        ensures { result ≡ take header_length (spelling self.now) }
    {
        match self {
            Answer::NopIn(answer) => answer.header(),
            Answer::ScsiResponse(response) => response.header(),
            Answer::TaskManagementResponse(response) => response.header(),
            Answer::LoginResponse(response) => response.header(),
            Answer::TextResponse(response) => response.header(),
            Answer::DataIn(piece) => piece.header(),
            Answer::LogoutResponse(response) => response.header(),
            Answer::R2t(ask) => ask.header(),
            Answer::Reject(reject) => reject.header(),
        }
    }

    /// Writes the answer at the end of the buffer: its header, its data segment and the padding, or nothing. Fails
    /// only if the buffer has too little spare room and an allocation failed. If there is room, the answer uses
    /// exactly its length of it.
    pub fn write(&self, out: &mut BytesMut) -> Result<(), PduFault>
        ensures ok { OnOk result (out.new.items ≡ out.old.items ++ spelling self.now) }
        ensures spare { OnOk result (length (spelling self.now) ≤ out.old.spare
            → out.new.spare + length (spelling self.now) ≡ out.old.spare) }
        ensures err { OnErr result (out.new.items ≡ out.old.items) }
        ensures memory { IfErr result (λ fault. fault ≡ PduFault.Memory) }
        ensures full { OnErr result (out.old.spare < length (spelling self.now)) }
    {
        match self {
            Answer::NopIn(answer) => put(out, &answer.header(), answer.segment()),
            Answer::ScsiResponse(response) => match response.sense {
                None => put(out, &response.header(), &[]),
                Some(sense) => put(out, &response.header(), &sense_segment(sense)),
            },
            Answer::TaskManagementResponse(response) => put(out, &response.header(), &[]),
            Answer::LoginResponse(response) => {
                put(out, &response.header(), response.reply.text())
            }
            Answer::TextResponse(response) => put(out, &response.header(), response.segment()),
            Answer::DataIn(piece) => put(out, &piece.header(), piece.segment()),
            Answer::LogoutResponse(response) => put(out, &response.header(), &[]),
            Answer::R2t(ask) => put(out, &ask.header(), &[]),
            Answer::Reject(reject) => put(out, &reject.header(), reject.segment()),
        }
    }
}
