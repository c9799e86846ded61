//! How a login takes the text of its requests.

ghost use Rattle.std.specs.Prelude.{◌≡◌, ◌≤◌, ℕ, length, take, false, Some, None, IfOk, IfErr, OnOk, OnErr, is_err, if◌then◌else◌};
ghost use Rattle.std.specs.List.{list_any};
ghost use Rattle.iscsi_text.specs.Pairs.{text_pairs, text_of};
ghost use Rattle.iscsi_pdu.specs.declared.login_response.LoginRefusal.TheVariants.{InitiatorError};
ghost use Rattle.iscsi_login.specs.declared.fault.Fault.TheVariants as faults;
ghost use Rattle.iscsi_login.specs.Directory.{KnownTargets};
ghost use Rattle.iscsi_login.specs.Lookup.{lookup_in};
ghost use Rattle.iscsi_login.specs.LoginState.{AsksBelow};
ghost use Rattle.iscsi_login.specs.Rules.{text_fault, session_refusal, text_refusal, pairs_read, pairs_with, asked_by, is_again, Tells};
ghost use Rattle.iscsi_login.specs.Values.{with_pairs};
ghost use Rattle.iscsi_login.specs.Login.{longest_piece, answer_pairs, tells_group, declares, kept_with, heard};

use crate::answer::{answer_text, first_piece};
use crate::directory::Directory;
use crate::fault::Fault;
use crate::login::Login;
use crate::names::{asked, is_normal_session};
use crate::request::is_operational;
use crate::requested_session::RequestedSession;
use crate::session_params::SessionParams;
use crate::text::{joined, says_no_segment};
use crate::values::Values;
use bytes::BytesMut;
use iscsi_pdu::{Frame, Header, LoginRefusal};
use iscsi_text::{Pairs, TextFault, pairs};
use std::alloc::Global;
use target_limits::Memory;

/// Returns the pairs of a whole text, or why it is refused.
fn read_text(alloc: Global, text: &[u8]) -> Result<Pairs, Fault>
    ensures pairs { IfOk result (λ pairs. pairs ≡ pairs_read (text_pairs text.now)) }
    ensures whole { OnOk result (is_err (text_pairs text.now) ≡ false) }
    ensures refused { IfErr result (Tells (if is_err (text_pairs text.now) then Some InitiatorError else None)) }
{
    match pairs(alloc, text) {
        Ok(pairs) => Ok(pairs),
        Err(TextFault::Memory) => Err(Fault::Memory),
        Err(_) => Err(Fault::Refused(LoginRefusal::InitiatorError)),
    }
}

impl Login {
    /// Reads the text that a request completes. Returns its pairs, or why it is refused.
    #[tactic(auto, unfolding(crate::specs::Rules::pairs_with))]
    fn read(&self, request: &Frame) -> Result<Pairs, Fault>
        ensures pairs { IfOk result (λ pairs. pairs ≡ pairs_with self.now request.now) }
        ensures whole { OnOk result (text_fault self.now request.now ≡ None) }
        ensures refused { IfErr result (Tells (text_fault self.now request.now)) }
    {
        if self.kept.is_empty() {
            return read_text(self.alloc, request.body.as_slice());
        }
        let text = joined(self.alloc, self.kept.as_slice(), request.body.as_slice())?;
        read_text(self.alloc, text.as_slice())
    }

    /// Returns the session that a whole text asks for, if it is the first whole text.
    fn ask(
        &self,
        request: &Frame,
        directory: &Directory,
        named: &Option<SessionParams>,
        pairs: &Pairs,
    ) -> Result<Option<RequestedSession>, Fault>
        ensures session { IfOk result (λ asked. asked ≡ asked_by self.now.session directory.now request.now.header pairs.now) }
        ensures target { IfOk result (AsksBelow (length directory.now.names)) }
        ensures accepted { OnOk result (session_refusal self.now.session (lookup_in directory.now named.now) request.now.header pairs.now ≡ None) }
        ensures refused { IfErr result (Tells (session_refusal self.now.session (lookup_in directory.now named.now) request.now.header pairs.now)) }
    {
        if self.session.is_some() {
            return Ok(None);
        }
        let session = asked(self.alloc, directory, named, &request.header, pairs)?;
        Ok(Some(session))
    }

    /// Returns the text of the answer to a whole text with these pairs, its first piece, and the values in force
    /// after them.
    fn answer_to(
        &self,
        header: &Header,
        pairs: &Pairs,
    ) -> Result<(BytesMut, Vec<u8>, Values), Memory>
        ensures due { IfOk result (λ answer. answer.0.items ≡ text_of (answer_pairs (tells_group self.now.session pairs.now) (declares self.now header.now) pairs.now)) }
        ensures piece { IfOk result (λ answer. answer.1.items ≡ take longest_piece answer.0.items) }
        ensures short { IfOk result (λ answer. length answer.1.items ≤ longest_piece) }
        ensures values { IfOk result (λ answer. answer.2 ≡ with_pairs self.now.values pairs.now) }
    {
        let is_told = is_operational(header) && !self.declared;
        let tells_group = self.session.is_none() && is_normal_session(pairs);
        let (text, values) = answer_text(self.alloc, tells_group, is_told, pairs, self.values)?;
        let piece = first_piece(self.alloc, text.as_slice())?;
        Ok((BytesMut::from(text), piece, values))
    }

    /// Remembers a whole text by its pairs and the session that it asks for; its answer is then due. A key that may
    /// not be given again refuses the text. If the text is refused or an allocation fails, nothing changes.
    #[tactic(auto, unfolding(crate::specs::Login::heard))]
    fn remember(
        &mut self,
        header: &Header,
        pairs: Pairs,
        asked: Option<RequestedSession>,
        due: BytesMut,
        values: Values,
    ) -> Result<(), Fault>
        requires after { values ≡ with_pairs self.old.values pairs }
        requires answer { due.items ≡ text_of (answer_pairs (tells_group self.old.session pairs) (declares self.old header.now) pairs) }
        ensures ok { OnOk result ((directory : KnownTargets) → asked ≡ asked_by self.old.session directory header.now pairs
            → self.new ≡ heard directory self.old header.now pairs) }
        ensures due { OnOk result (self.new.due ≡ due.items) }
        ensures target { OnOk result ((count : ℕ) → AsksBelow count self.old.session → AsksBelow count asked → AsksBelow count self.new.session) }
        ensures accepted { OnOk result (list_any (is_again self.old.earlier) pairs ≡ false) }
        ensures refused { IfErr result (λ fault. list_any (is_again self.old.earlier) pairs ≡ false → fault ≡ faults.Memory) }
        ensures told { IfErr result (Tells (Some InitiatorError)) }
        ensures err { OnErr result (self.new ≡ self.old) }
    {
        if !self.earlier.append(pairs)? {
            return Err(Fault::Refused(LoginRefusal::InitiatorError));
        }
        self.kept = Vec::new(self.alloc);
        self.session = self.session.take().or(asked);
        self.values = values;
        self.declared = self.declared || is_operational(header);
        self.due = due;
        Ok(())
    }

    /// Takes a whole text, whose answer is then due. Returns the first piece of the answer.
    #[tactic(auto, unfolding(crate::specs::Rules::text_refusal))]
    pub(super) fn hear(
        &mut self,
        request: &Frame,
        directory: &Directory,
        named: &Option<SessionParams>,
    ) -> Result<Vec<u8>, Fault>
        ensures heard { OnOk result (self.new ≡ heard directory.now self.old request.now.header (pairs_with self.old request.now)) }
        ensures piece { IfOk result (λ piece. piece.items ≡ take longest_piece self.new.due) }
        ensures short { IfOk result (λ piece. length piece.items ≤ longest_piece) }
        ensures target { OnOk result (AsksBelow (length directory.now.names) self.old.session → AsksBelow (length directory.now.names) self.new.session) }
        ensures accepted { OnOk result (text_refusal self.old (lookup_in directory.now named.now) request.now ≡ None) }
        ensures refused { IfErr result (Tells (text_refusal self.old (lookup_in directory.now named.now) request.now)) }
        ensures err { OnErr result (self.new ≡ self.old) }
    {
        let pairs = self.read(request)?;
        let asked = self.ask(request, directory, named, &pairs)?;
        if says_no_segment(&pairs) {
            return Err(Fault::Refused(LoginRefusal::InitiatorError));
        }
        let (due, piece, values) = self.answer_to(&request.header, &pairs)?;
        self.remember(&request.header, pairs, asked, due, values)?;
        Ok(piece)
    }

    /// Keeps the text of a request with C. If an allocation fails, nothing changes.
    pub(super) fn keep(&mut self, request: &Frame) -> Result<(), Memory>
        ensures ok { OnOk result (self.new ≡ kept_with self.old request.now) }
        ensures err { OnErr result (self.new ≡ self.old) }
    {
        self.kept.extend_from_slice(request.body.as_slice())?;
        Ok(())
    }
}
