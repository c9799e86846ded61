//! Serving a frame of a session, and performing the commands that were taken.

ghost use Rattle.std.specs.Prelude.{◌≡◌, ◌≢◌, ◌<◌, ◌≤◌, ◌++◌, ℕ, List, [], None, Some, length, true, false, IfOk, OnOk, OnErr};
ghost use Rattle.scsi_unit.specs.CameOut.{CameOut, AsDefined};
ghost use Rattle.scsi_unit.specs.DiskCommands.{most_given};
ghost use Rattle.scsi_unit.specs.Units.{numbers_of, AreSound, AreSure};
ghost use Rattle.iscsi_pdu.specs.Frames as pdu;
ghost use Rattle.iscsi_pdu.specs.Header.{data_length, opcode_number};
ghost use Rattle.iscsi_pdu.specs.Segment.{most_data};
ghost use Rattle.iscsi_login.specs.Values.{AreInRange};
ghost use Rattle.iscsi_transfer.specs.Counted.{brought};
ghost use Rattle.iscsi_requests.specs.Unread.{takes_in};
ghost use Rattle.iscsi_requests.specs.State.{SessionState, is_waiting};
ghost use Rattle.iscsi_session.specs.Comings.{TargetUnits, CameAs};
ghost use Rattle.iscsi_session.specs.Commands.{carried_out};
ghost use Rattle.iscsi_session.specs.Steps.{Work, Asking, is_doing, is_serving, ready, finish, ask_due, served, settled};
ghost use Rattle.iscsi_session.specs.Weight.{IsAtRest, Eases};
ghost use Rattle.iscsi_session.specs.Runs.{output, Starts, Runs, Stops, Judges, StepsFirst, IsSettled};

use crate::session::Session;
use bytes::BytesMut;
use data_parts::{Data, Parts};
use iscsi_answers::{make_room, piece_for};
use iscsi_outbox::Outbox;
use iscsi_pdu::{Frame, Header};
use iscsi_requests::{ROOM_TO_ASK, Verdict};
use media_store::Store;
use scsi_sense::{Condition, Done, Nexus, Sense};
use scsi_unit::Units;
use std::alloc::Global;
use target_limits::Memory;

/// Performs a command with all its data. A command with an additional header, or with both R and W, is answered INVALID
/// FIELD IN CDB instead. If an allocation fails, nothing changes.
#[tactic(auto, unfolding(crate::specs::Commands::carried_out))]
fn perform_first<S: Store>(
    alloc: Global,
    units: &mut Units<S>,
    nexus: &Nexus,
    frame: &Frame,
    payload: &Data,
) -> Result<Done, Memory>
    ensures came { IfOk result (λ done. (came : CameOut) × ((units.new, done) ≡ carried_out came units.old nexus.now frame.now payload.now)
        × (AreSound units.new → came ≡ AsDefined)) }
    ensures back { AreSound units.new → AreSound units.old }
    ensures sure { AreSure units.old → AreSure units.new }
    ensures given { IfOk result (λ done. length done.given ≤ most_given) }
    ensures err { OnErr result (units.new ≡ units.old) }
{
    let header = &frame.header;
    if header.additional_length() > 0 || header.is_read() && header.is_write() {
        let sense = Sense::new(Condition::InvalidFieldInCdb);
        return Ok(Done::check_condition(alloc, sense));
    }
    let done = units.perform(nexus, header.lun(), header.cdb(), payload)?;
    Ok(done)
}

/// Gives a buffer that is no longer used back to the units.
fn give_back<S: Store>(units: &mut Units<S>, buffer: Option<BytesMut>)
    ensures { units.new ≡ units.old }
{
    if let Some(buffer) = buffer {
        units.give_back(buffer);
    }
}

/// Gives the units the buffers in which the data of a command came, for reuse.
fn keep_buffers<S: Store>(units: &mut Units<S>, parts: Option<Parts>)
    ensures { units.new ≡ units.old }
{
    let Some(mut parts) = parts else {
        return;
    };
    while let Some(buffer) = parts.pop_used() {
        units.keep_buffer(buffer);
    }
}

impl Session {
    /// Serves a frame:
    ///
    /// - checks it
    /// - executes the requests that became ready
    /// - sends the R2Ts that became due
    /// - answers the function that waited for its data
    ///
    /// What these steps send is appended to `out`. The header of each Task Management Function Request that is executed
    /// is appended to `orders`. The target is to carry it out on its other sessions and on its units, whose numbers are
    /// `luns`.
    ///
    /// Returns whether the session continues: a violation ends it, and so does a Logout that closes it. If an
    /// allocation fails, the session is to be closed. The steps before it were done and answered whole, and their
    /// orders remain.
    pub fn serve(
        &mut self,
        frame: Frame,
        luns: &[u8],
        out: &mut Outbox,
        orders: &mut Vec<Header>,
    ) -> Result<bool, Memory>
        requires { AreInRange self.old.params.values }
        ensures ok { IfOk result (λ goes_on. (units : TargetUnits) → luns.now ≡ numbers_of units.states
            → Runs (λ fails place. served fails place frame) None goes_on self.old self.new
            (output out.old.items orders.old.items) (output out.new.items orders.new.items) units units) }
        ensures err { OnErr result (Stops is_serving (λ failed. (units : TargetUnits) → luns.now ≡ numbers_of units.states
            → Runs (λ fails place. served fails place frame) failed false self.old self.new
            (output out.old.items orders.old.items) (output out.new.items orders.new.items) units units)) }
        ensures grows { (more : List ℕ) × (out.new.items ≡ out.old.items ++ more) }
        ensures idle { IfOk result (λ goes_on. goes_on ≡ true → self.new.tasks.due ≡ []) }
        ensures params { self.new.params ≡ self.old.params }
    {
        if let Verdict::Violating = self.receive(frame, out)? {
            return Ok(false);
        }
        self.serve_judged(luns, out, orders)
    }

    /// Serves a whole Data-Out of which only the header was kept, as [`Session::serve`] does. Its data is that of no
    /// command that is not finished ([`Session::takes`]), so only its header and the length of its data matter.
    pub fn serve_unread(
        &mut self,
        header: &Header,
        luns: &[u8],
        out: &mut Outbox,
        orders: &mut Vec<Header>,
    ) -> Result<bool, Memory>
        requires out { opcode_number header.now ≡ 0x05 }
        requires short { data_length header.now ≤ most_data }
        requires untaken { takes_in self.old.transfers (brought header.now (data_length header.now)) ≡ false }
        ensures ok { IfOk result (λ goes_on. (frame : pdu.Frame) → frame.header ≡ header.now → length frame.body ≡ data_length header.now
            → (units : TargetUnits) → luns.now ≡ numbers_of units.states
            → Runs (λ fails place. served fails place frame) None goes_on self.old self.new
            (output out.old.items orders.old.items) (output out.new.items orders.new.items) units units) }
        ensures err { OnErr result ((frame : pdu.Frame) → frame.header ≡ header.now → length frame.body ≡ data_length header.now
            → Stops is_serving (λ failed. (units : TargetUnits) → luns.now ≡ numbers_of units.states
            → Runs (λ fails place. served fails place frame) failed false self.old self.new
            (output out.old.items orders.old.items) (output out.new.items orders.new.items) units units)) }
        ensures grows { (more : List ℕ) × (out.new.items ≡ out.old.items ++ more) }
        ensures idle { IfOk result (λ goes_on. goes_on ≡ true → self.new.tasks.due ≡ []) }
        ensures params { self.new.params ≡ self.old.params }
    {
        if let Verdict::Violating = self.receive_unread(header, out)? {
            return Ok(false);
        }
        self.serve_judged(luns, out, orders)
    }

    /// Serves a frame that was judged and is no violation: executes the requests that became ready, sends the R2Ts that
    /// became due, and answers the function that waited for its data. Returns whether the session continues.
    fn serve_judged(
        &mut self,
        luns: &[u8],
        out: &mut Outbox,
        orders: &mut Vec<Header>,
    ) -> Result<bool, Memory>
        ensures ok { IfOk result (λ goes_on. (v : Verdict) (frame : pdu.Frame) (old : SessionState) (bytes : List ℕ)
            → Judges v frame old self.old (output bytes orders.old.items) (output out.old.items orders.old.items) → v ≢ Verdict.Violating
            → (units : TargetUnits) → luns.now ≡ numbers_of units.states
            → Runs (λ fails place. served fails place frame) None goes_on old self.new
            (output bytes orders.old.items) (output out.new.items orders.new.items) units units) }
        ensures err { OnErr result ((v : Verdict) (frame : pdu.Frame) (old : SessionState) (bytes : List ℕ)
            → Judges v frame old self.old (output bytes orders.old.items) (output out.old.items orders.old.items) → v ≢ Verdict.Violating
            → Stops is_serving (λ failed. (units : TargetUnits) → luns.now ≡ numbers_of units.states
            → Runs (λ fails place. served fails place frame) failed false old self.new
            (output bytes orders.old.items) (output out.new.items orders.new.items) units units)) }
        ensures grows { (more : List ℕ) × (out.new.items ≡ out.old.items ++ more) }
        ensures idle { IfOk result (λ goes_on. goes_on ≡ true → self.new.tasks.due ≡ []) }
        ensures params { self.new.params ≡ self.old.params }
    {
        if !self.act_all(luns, out, orders)? {
            return Ok(false);
        }
        self.ask_due(out)?;
        self.answer_drained(out)?;
        Ok(true)
    }

    /// Appends the R2Ts that are due to `out`. Room is made for all before the first is sent, so that nothing changes
    /// if an allocation fails.
    fn ask_due(&mut self, out: &mut Outbox) -> Result<(), Memory>
        ensures ok { OnOk result ((orders : List (List ℕ)) (units : TargetUnits) → Runs ask_due None true self.old self.new
            (output out.old.items orders) (output out.new.items orders) units units) }
        ensures stops { OnErr result ((orders : List (List ℕ)) (units : TargetUnits) → Runs ask_due (Some (λ place. Asking place)) false self.old self.new
            (output out.old.items orders) (output out.new.items orders) units units) }
        ensures grows { (more : List ℕ) × (out.new.items ≡ out.old.items ++ more) }
        ensures tasks { self.new.tasks ≡ self.old.tasks }
        ensures params { self.new.params ≡ self.old.params }
    {
        let Some(place) = self.transfers.asking() else {
            return Ok(());
        };
        out.reserve(ROOM_TO_ASK)?;
        let stamp = self.stamp();
        self.transfers.ask(place, stamp, out);
        Ok(())
    }

    /// Returns whether no command can be done now: all that were taken are finished, or the first that is not waits for
    /// data. [`Session::settle`] would then do nothing.
    #[tactic(auto, using(crate::proofs::Settled::settled_is))]
    pub fn is_settled(&self) -> bool
        ensures value { result ≡ is_waiting self.now }
        ensures settled { result ≡ true → IsSettled self.now }
    {
        match self.first() {
            Some(_) => false,
            None => true,
        }
    }

    /// Performs the commands that were taken on the target's units, one after the other, up to the first whose data has
    /// not all come. Answers each. The clauses hold for any units, by how each command came out. If an allocation
    /// fails, the session is to be closed. The steps before it were done and answered whole.
    pub fn settle<S: Store>(
        &mut self,
        alloc: Global,
        out: &mut Outbox,
        units: &mut Units<S>,
    ) -> Result<(), Memory>
        requires { AreInRange self.old.params.values }
        ensures ok { OnOk result (CameAs self.old.params.target (λ given after. Runs settled None true self.old self.new
            (output out.old.items []) (output out.new.items []) given after) units.old units.new) }
        ensures err { OnErr result (Stops is_doing (λ failed. CameAs self.old.params.target (λ given after. Runs settled failed false self.old self.new
            (output out.old.items []) (output out.new.items []) given after) units.old units.new)) }
        ensures back { AreSound units.new → AreSound units.old }
        ensures sure { AreSure units.old → AreSure units.new }
        ensures grows { (more : List ℕ) × (out.new.items ≡ out.old.items ++ more) }
        ensures eases { IsAtRest self.old → Eases self.old self.new out.old.items out.new.items }
        ensures params { self.new.params ≡ self.old.params }
        ensures takes { (frame : pdu.Frame) → takes_in self.old.transfers frame ≡ false → takes_in self.new.transfers frame ≡ false }
    {
        while self.finish(alloc, out, units)? {}
        Ok(())
    }

    /// Performs and answers the first command of the queue, if its data is whole, and returns whether it did. All room
    /// is made before the units act, so that nothing changes if an allocation fails.
    fn finish<S: Store>(
        &mut self,
        alloc: Global,
        out: &mut Outbox,
        units: &mut Units<S>,
    ) -> Result<bool, Memory>
        requires { AreInRange self.old.params.values }
        ensures steps { IfOk result (λ more. CameAs self.old.params.target (λ given after. (work : Work) → Starts work self.old given
            → StepsFirst finish (ready work.past) work more self.old self.new (output out.old.items []) (output out.new.items []) after)
            units.old units.new) }
        ensures fewer { IfOk result (λ more. more ≡ true → length self.new.tasks.queue < length self.old.tasks.queue) }
        ensures back { AreSound units.new → AreSound units.old }
        ensures sure { AreSure units.old → AreSure units.new }
        ensures grows { (more : List ℕ) × (out.new.items ≡ out.old.items ++ more) }
        ensures eases { IsAtRest self.old → Eases self.old self.new out.old.items out.new.items }
        ensures params { self.new.params ≡ self.old.params }
        ensures takes { (frame : pdu.Frame) → takes_in self.old.transfers frame ≡ false → takes_in self.new.transfers frame ≡ false }
        ensures waits { OnErr result (is_waiting self.old ≡ false) }
        ensures err { OnErr result (self.new ≡ self.old) }
        ensures out_err { OnErr result (out.new.items ≡ out.old.items) }
        ensures units_err { OnErr result (units.new ≡ units.old) }
    {
        let Some(frame) = self.first() else {
            return Ok(false);
        };
        make_room(out, &self.params.values, frame)?;
        units.lay_out(piece_for(&self.params.values, frame));
        let payload = self.transfers.payload(frame.header.initiator_task_tag());
        let done = perform_first(alloc, units, &self.params.nexus, frame, &payload)?;
        // There is room for the answers, so nothing fails from here on.
        let (buffer, parts) = self.answer_command(alloc, out, done);
        give_back(units, buffer);
        keep_buffers(units, parts);
        Ok(true)
    }
}
