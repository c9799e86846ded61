//! A session in full feature phase.

ghost use Rattle.std.specs.Prelude.{◌≡◌, ◌≤◌, ◌∷◌, All, List, [], None, drop, true, IfSome, IfNone};
ghost use Rattle.iscsi_pdu.specs.Header.{data_length};
ghost use Rattle.iscsi_pdu.specs.Segment.{most_data};
ghost use Rattle.iscsi_pdu.specs.declared.answer.Answer.{Answer};
ghost use Rattle.iscsi_transfer.specs.Counted.{brought};
ghost use Rattle.iscsi_requests.specs.Unread.{takes_in};
ghost use Rattle.iscsi_requests.specs.Requests.{Past, begun, bearing, stamp, answering};
ghost use Rattle.iscsi_requests.specs.State.{remembered, Stands, whole_at, place_for, is_waiting};

use crate::task_management::Functions;
use iscsi_exchange::Exchange;
use iscsi_login::SessionParams;
use iscsi_order::Stat;
use iscsi_pdu::{Frame, Header, Stamp};
use iscsi_requests::{RequestQueue, Transfers};
use std::alloc::Global;
use std::marker::Model;
use target_limits::Memory;

/// A session (RFC 7143 §4.2): its parameters, its numbers, and its requests that are not finished. Clauses see what it
/// remembers of its past.
#[derive(Drop)]
pub struct Session {
    pub(crate) params: SessionParams,
    pub(crate) stat: Stat,
    /// Its requests of every kind, which are held, due or queued.
    pub(crate) tasks: RequestQueue,
    /// The data of its SCSI Commands.
    pub(crate) transfers: Transfers,
    /// Its Task Management Function Requests.
    pub(crate) functions: Functions,
    /// Its exchange of texts.
    pub(crate) exchange: Exchange,
}

impl Model for Session {
    ghost use Rattle.iscsi_requests.specs.State.{SessionState};

    ghost Value = { SessionState };

    ghost view = { λ s. record { params = s.params; stat = s.stat; tasks = s.tasks; transfers = s.transfers; functions = s.functions; exchange = s.exchange } };
}

impl Session {
    /// Creates a session at its beginning. Allocates no memory.
    pub fn new(alloc: Global, params: SessionParams) -> Session
        ensures { result ≡ remembered (begun params) }
    {
        Session {
            stat: Stat::new(params.next_stat_sn),
            tasks: RequestQueue::new(alloc, params.first_cmd_sn),
            transfers: Transfers::new(alloc),
            functions: Functions::new(alloc),
            exchange: Exchange::none(alloc),
            params,
        }
    }

    /// Makes room for the requests that are usually not finished at most, so that no list of the session grows while they
    /// are. If an allocation fails, nothing changes.
    pub fn reserve(&mut self) -> Result<(), Memory>
        ensures { self.new ≡ self.old }
    {
        self.tasks.reserve()?;
        self.transfers.reserve()
    }

    /// Returns whether no request is unfinished, and no data is drained.
    pub fn is_idle(&self) -> bool
        ensures drained { result ≡ true → self.now.transfers.drains ≡ [] }
        ensures due { result ≡ true → self.now.tasks.due ≡ [] }
        ensures queue { result ≡ true → self.now.tasks.queue ≡ [] }
        ensures held { result ≡ true → All (λ request. request ≡ None) self.now.tasks.held }
    {
        self.tasks.is_empty() && self.transfers.drains_none()
    }

    /// Returns whose session it is, with which target, and the values in force.
    pub fn params(&self) -> &SessionParams
        ensures { result.now ≡ self.now.params }
    {
        &self.params
    }

    /// Returns the sequence numbers of an answer that bears status. The answer after it has the next StatSN.
    pub(crate) fn next_stamp(&mut self) -> Stamp
        ensures stamp { (past : Past) → Stands past self.old → result ≡ stamp past }
        ensures stands { (past : Past) (more : List Answer) → Stands past self.old → bearing more ≡ 1 → Stands (answering more past) self.new }
        ensures same { self.new ≡ record self.old { stat = self.new.stat } }
    {
        let numbers = self.tasks.numbers();
        Stamp {
            stat_sn: self.stat.next(),
            exp_cmd_sn: numbers.exp_cmd_sn,
            max_cmd_sn: numbers.max_cmd_sn,
        }
    }

    /// Returns the sequence numbers of an R2T. Its StatSN is the next one, and is not used by it (RFC 7143 §11.8.3).
    pub(crate) fn stamp(&self) -> Stamp
        ensures { (past : Past) → Stands past self.now → result ≡ stamp past }
    {
        let numbers = self.tasks.numbers();
        Stamp {
            stat_sn: self.stat.now(),
            exp_cmd_sn: numbers.exp_cmd_sn,
            max_cmd_sn: numbers.max_cmd_sn,
        }
    }

    /// Returns the first command of the queue, if all its data has come. It is to be done now, and then answered by
    /// [`Session::answer_command`].
    pub(crate) fn first(&self) -> Option<&Frame>
        ensures some { IfSome result (λ frame. self.now.tasks.queue ≡ frame.now ∷ drop 1 self.now.tasks.queue) }
        ensures whole { IfSome result (λ frame. whole_at self.now.transfers.list (place_for frame.now self.now.transfers.list) ≡ true) }
        ensures none { IfNone result (is_waiting self.now ≡ true) }
    {
        let frame = self.tasks.first()?;
        if self.transfers.is_whole(frame.header.initiator_task_tag()) {
            Some(frame)
        } else {
            None
        }
    }

    /// Returns whether a command that is not finished takes a Data-Out with this header.
    pub fn takes(&self, header: &Header) -> bool
        requires { data_length header.now ≤ most_data }
        ensures { result ≡ takes_in self.now.transfers (brought header.now (data_length header.now)) }
    {
        self.transfers.takes(header, header.data_length())
    }
}
