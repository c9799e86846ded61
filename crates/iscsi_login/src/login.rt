//! A login in progress.

ghost use Rattle.std.specs.Prelude.{◌≡◌, ◌<◌, ◌+◌, length, IfOk, OnErr};
ghost use Rattle.iscsi_login.specs.Lookup.{lookup_in};
ghost use Rattle.iscsi_login.specs.LoginState.{AsksBelow, new_login};
ghost use Rattle.iscsi_login.specs.Values.{AreInRange};
ghost use Rattle.iscsi_login.specs.Rules.{is_other_session as is_other, interrupts, is_too_long as has_too_much, request_refusal, opening_with as opening_for, stage_with as stage_for, is_due as has_due};
ghost use Rattle.iscsi_login.specs.Login.{IsAfter, IsBelow, BeginsInRange, reply_of};

mod answering;
mod hearing;

use crate::answer::first_piece;
use crate::directory::Directory;
use crate::earlier::Earlier;
use crate::fault::Fault;
use crate::opening::Opening;
use crate::reply::Reply;
use crate::request::{is_behind, is_login_stage, is_same_stage};
use crate::requested_session::RequestedSession;
use crate::session_params::SessionParams;
use crate::values::Values;
use bytes::BytesMut;
use iscsi_pdu::{Frame, Header, LoginRefusal, Stage};
use iscsi_text::LONGEST_TEXT;
use std::alloc::Global;
use std::marker::Model;
use target_limits::Memory;

/// A login in progress. Clauses see it as what it remembers of its requests.
#[derive(Drop)]
pub struct Login {
    alloc: Global,
    handle: u16,
    opening: Option<Opening>,
    stage: Option<Stage>,
    answers: u32,
    kept: Vec<u8>,
    earlier: Earlier,
    session: Option<RequestedSession>,
    values: Values,
    declared: bool,
    due: BytesMut,
}

impl Model for Login {
    ghost use Rattle.iscsi_login.specs.LoginState.{LoginState};

    ghost Value = { LoginState };

    ghost view = { λ l. record {
      handle = l.handle;
      opening = l.opening;
      stage = l.stage;
      answers = l.answers;
      kept = l.kept.items;
      earlier = l.earlier;
      session = l.session;
      values = l.values;
      declared = l.declared;
      due = l.due.items;
    } };
}

impl Login {
    /// Returns a login on connection `c`, before its first request. Its session will have TSIH `c + 1`.
    pub fn new(alloc: Global, c: usize) -> Login
        requires { c < 65535 }
        ensures { result ≡ new_login (c + 1) }
    {
        Login {
            alloc,
            handle: c as u16 + 1,
            opening: None,
            stage: None,
            answers: 0,
            kept: Vec::new(alloc),
            earlier: Earlier::new(alloc),
            session: None,
            values: Values::new(),
            declared: false,
            due: BytesMut::new(alloc),
        }
    }

    /// Returns what the first request set, or what this one sets if it is the first.
    fn opening_with(&self, header: &Header) -> Opening
        ensures { result ≡ opening_for self.now header.now }
    {
        match self.opening {
            Some(opening) => opening,
            None => Opening::of(header),
        }
    }

    /// Returns the stage that the login is in, or in which it begins.
    fn stage_with(&self, header: &Header) -> Option<Stage>
        ensures { result ≡ stage_for self.now header.now }
    {
        self.stage.or(header.current_stage())
    }

    /// Returns whether a piece of the last answer is still to be sent.
    fn is_due(&self) -> bool
        ensures { result ≡ has_due self.now }
    {
        !self.due.is_empty()
    }

    /// Returns whether the request is of another session than the first one.
    #[tactic(auto, unfolding(crate::specs::Rules::is_other_session))]
    fn is_other_session(&self, header: &Header) -> bool
        ensures { result ≡ is_other self.now header.now }
    {
        let opening = self.opening_with(header);
        header.isid() != opening.isid || header.tsih() != opening.tsih
    }

    /// Returns whether the request has text or C while a piece of the last answer is due.
    #[tactic(auto, unfolding(crate::specs::Rules::interrupts))]
    fn is_interrupted_by(&self, request: &Frame) -> bool
        ensures { result ≡ interrupts self.now request.now }
    {
        self.is_due() && (request.header.is_continued() || !request.body.is_empty())
    }

    /// Returns whether a text that is continued becomes too long to be kept.
    #[tactic(auto, unfolding(crate::specs::Rules::is_too_long))]
    fn is_too_long(&self, request: &Frame) -> bool
        ensures { result ≡ has_too_much self.now request.now }
    {
        request.header.is_continued() && self.kept.len() + request.body.len() > LONGEST_TEXT
    }

    /// Returns why the request itself is refused, if it is.
    #[tactic(auto, unfolding(crate::specs::Rules::request_refusal))]
    fn refusal_of_request(&self, request: &Frame) -> Option<LoginRefusal>
        ensures { result ≡ request_refusal self.now request.now }
    {
        let header = &request.header;
        let stage = header.current_stage();
        if header.version_min() > 0 {
            return Some(LoginRefusal::UnsupportedVersion);
        }
        if !is_login_stage(stage) {
            return Some(LoginRefusal::InitiatorError);
        }
        if header.is_transit() && !is_behind(header.next_stage(), stage) {
            return Some(LoginRefusal::InitiatorError);
        }
        if header.is_transit() && header.is_continued() {
            return Some(LoginRefusal::InitiatorError);
        }
        if !is_same_stage(stage, self.stage_with(header)) {
            return Some(LoginRefusal::InitiatorError);
        }
        if self.is_other_session(header) {
            return Some(LoginRefusal::InitiatorError);
        }
        if self.is_interrupted_by(request) {
            return Some(LoginRefusal::InitiatorError);
        }
        if self.is_too_long(request) {
            return Some(LoginRefusal::InitiatorError);
        }
        None
    }

    /// Takes a request and answers it. `directory` has all targets in order. `named` is the session in full feature
    /// phase whose TSIH the request bears.
    ///
    /// If an allocation fails, the login is unchanged. After [`Reply::Full`] and [`Reply::Refused`] it is over.
    pub fn take(
        &mut self,
        request: &Frame,
        directory: &Directory,
        named: &Option<SessionParams>,
    ) -> Result<Reply, Memory>
        ensures reply { IfOk result (λ reply. reply ≡ reply_of self.old (lookup_in directory.now named.now) request.now) }
        ensures after { IfOk result (λ reply. IsAfter directory.now self.old request.now reply self.new) }
        ensures target { IfOk result (λ reply. AsksBelow (length directory.now.names) self.old.session → IsBelow (length directory.now.names) reply self.new) }
        ensures values { IfOk result (λ reply. AreInRange self.old.values → AreInRange self.new.values × BeginsInRange reply) }
        ensures err { OnErr result (self.new ≡ self.old) }
    {
        if let Some(refusal) = self.refusal_of_request(request) {
            return Ok(self.refuse(request, refusal));
        }
        if self.is_due() {
            let piece = first_piece(self.alloc, self.due.as_slice())?;
            return Ok(self.answer(request, piece));
        }
        if request.header.is_continued() {
            self.keep(request)?;
            return Ok(self.answer(request, Vec::new(self.alloc)));
        }
        match self.hear(request, directory, named) {
            Ok(piece) => Ok(self.answer(request, piece)),
            Err(Fault::Refused(refusal)) => Ok(self.refuse(request, refusal)),
            Err(Fault::Memory) => Err(Memory),
        }
    }
}
