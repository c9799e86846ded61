//! The answers of a login.

ghost use Rattle.std.specs.Prelude.{◌≡◌, ◌≤◌, ℕ, length, min, take, IfNone};
ghost use Rattle.iscsi_login.specs.LoginState.{AsksBelow};
ghost use Rattle.iscsi_login.specs.Login.{longest_piece, step_of, answered, IsAnswered, IsBelow, BeginsWith, accepted, begun_by, handle_with, login_stamp, login_response, reply_to, refused_reply};

use crate::answer::LONGEST_PIECE;
use crate::login::Login;
use crate::reply::Reply;
use crate::request::{is_last_step, stage_after};
use crate::requested_session::RequestedSession;
use crate::session_params::SessionParams;
use iscsi_pdu::{
    Frame, Header, LoginAccepted, LoginRefusal, LoginReply, LoginResponse, LoginStep, Stage, Stamp,
};

/// The number of commands beside the first that may be sent: one less than the window (RFC 7143 §4.2.2.1).
const WINDOW_AHEAD: u32 = 31;

impl Login {
    /// Returns the sequence numbers of the next answer.
    #[tactic(auto, unfolding(crate::specs::Login::login_stamp))]
    fn stamp(&self, header: &Header) -> Stamp
        ensures { result ≡ login_stamp self.now header.now }
    {
        let first = self.opening_with(header).cmd_sn;
        Stamp {
            stat_sn: self.answers,
            exp_cmd_sn: first,
            max_cmd_sn: first.wrapping_add(WINDOW_AHEAD),
        }
    }

    /// Returns the Login Response with this reply.
    #[tactic(auto, unfolding(crate::specs::Login::login_response))]
    fn response(&self, request: &Frame, tsih: u16, reply: LoginReply) -> LoginResponse
        ensures { result ≡ login_response self.now request.now tsih reply }
    {
        let header = &request.header;
        LoginResponse {
            isid: header.isid(),
            tsih,
            initiator_task_tag: header.initiator_task_tag(),
            stamp: self.stamp(header),
            reply,
        }
    }

    /// Returns the reply that refuses the request.
    pub(super) fn refuse(&self, request: &Frame, refusal: LoginRefusal) -> Reply
        ensures { result ≡ refused_reply self.now request.now refusal }
    {
        let tsih = request.header.tsih();
        Reply::Refused(self.response(request, tsih, LoginReply::Refused(refusal)))
    }

    /// Returns the step of the login with the next answer: more text follows, the next stage is entered, or the stage
    /// stays.
    fn step(&self, header: &Header) -> LoginStep
        ensures { result ≡ step_of header.now self.now.due }
    {
        if self.due.len() > LONGEST_PIECE {
            return LoginStep::Continued;
        }
        if header.is_transit() {
            return LoginStep::Enters(header.next_stage().unwrap_or(Stage::FullFeaturePhase));
        }
        LoginStep::Stays
    }

    /// Takes the session that begins with the next answer, if one does.
    fn begin(&mut self, step: LoginStep) -> Option<RequestedSession>
        ensures session { result ≡ begun_by self.old step }
        ensures target { (count : ℕ) → AsksBelow count self.old.session → AsksBelow count result }
        ensures left { (count : ℕ) → AsksBelow count self.old.session → AsksBelow count self.new.session }
        ensures none { IfNone result (self.new ≡ self.old) }
        ensures values { self.new.values ≡ self.old.values }
    {
        if is_last_step(step) {
            return self.session.take();
        }
        None
    }

    /// Records that the next piece of the answer, `sent` bytes, is sent.
    fn go_on(&mut self, header: &Header, sent: usize)
        requires { sent ≡ min longest_piece (length self.old.due) }
        ensures { self.new ≡ answered self.old header.now }
    {
        let stage = self.stage_with(header);
        let step = self.step(header);
        self.opening = Some(self.opening_with(header));
        self.stage = stage_after(stage, step);
        self.answers = self.answers.wrapping_add(1);
        self.due.advance(sent);
    }

    /// Returns the Login Response that has this piece, the next one of the text that is due.
    fn accept(&self, request: &Frame, piece: Vec<u8>) -> LoginResponse
        requires next { piece.items ≡ take longest_piece self.now.due }
        requires short { length piece.items ≤ longest_piece }
        ensures { result ≡ login_response self.now request.now
            (handle_with self.now request.now.header (step_of request.now.header self.now.due)) (accepted request.now.header self.now.due) }
    {
        let header = &request.header;
        let step = self.step(header);
        let tsih = if is_last_step(step) {
            self.handle
        } else {
            header.tsih()
        };
        let accepted = LoginAccepted {
            stage: header
                .current_stage()
                .unwrap_or(Stage::OperationalNegotiation),
            step,
            text: piece,
        };
        self.response(request, tsih, LoginReply::Accepted(accepted))
    }

    /// Answers with this piece, the next one of the text that is due.
    #[tactic(auto, unfolding(crate::specs::Login::reply_to, crate::specs::Login::params_of))]
    pub(super) fn answer(&mut self, request: &Frame, piece: Vec<u8>) -> Reply
        requires next { piece.items ≡ take longest_piece self.old.due }
        requires short { length piece.items ≤ longest_piece }
        ensures reply { result ≡ reply_to self.old request.now }
        ensures after { IsAnswered self.old request.now result self.new }
        ensures target { (count : ℕ) → AsksBelow count self.old.session → IsBelow count result self.new }
        ensures values { self.new.values ≡ self.old.values }
        ensures begins { BeginsWith self.old.values result }
    {
        let header = &request.header;
        let opening = self.opening_with(header);
        let values = self.values;
        let next_stat_sn = self.answers.wrapping_add(1);
        let sent = piece.len();
        let response = self.accept(request, piece);
        let step = self.step(header);
        match self.begin(step) {
            Some(session) => {
                let params = SessionParams {
                    nexus: session.nexus,
                    target: session.target,
                    directory: session.directory,
                    connection_id: opening.connection_id,
                    first_cmd_sn: opening.cmd_sn,
                    next_stat_sn,
                    values,
                };
                Reply::Full(response, params)
            }
            None => {
                self.go_on(header, sent);
                Reply::GoOn(response)
            }
        }
    }
}
