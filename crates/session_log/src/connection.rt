//! What a connection sent, and what it was sent, as far as the log needs it.

ghost use Rattle.std.specs.Prelude.{◌≤◌, length};

use crate::answer::{Answer, answer_of};
use crate::login_names::LoginNames;
use crate::login_values::LoginValues;
use crate::pdu_stream::{Part, PduStream};
use crate::sense::{SenseFront, Sensed};
use crate::tasks::RecentTasks;
use crate::transfer::Ask;
use iscsi_pdu::{Header, Opcode, TaskFunction};
use std::net::SocketAddr;

/// How far a connection has come.
#[derive(Clone, Copy)]
pub(crate) enum State {
    /// It has not logged in.
    LoggingIn,
    /// Its login was refused.
    Refused,
    LoggedIn,
    /// It has logged out.
    LoggedOut,
}

/// Why a connection ends, if not by a rule of the target.
#[derive(Clone, Copy)]
pub(crate) enum Cause {
    /// The peer sends nothing more.
    Closed,
    /// The connection failed.
    Failed,
    /// An allocation failed.
    Starved,
}

/// An event of a connection, for the log.
#[derive(Clone, Copy)]
pub(crate) enum Told {
    /// It logged in; the session has this TSIH.
    LoggedIn {
        tsih: u16,
    },
    /// Its login was refused with this status.
    Refused {
        status: u16,
    },
    /// It asks for a function, for this logical unit, with this tag.
    Asked {
        function: TaskFunction,
        lun: [u8; 8],
        tag: u32,
    },
    /// The function with this tag was answered.
    Answered {
        response: u8,
        tag: u32,
    },
    /// A command ended with this sense data.
    Sensed(Sensed),
}

/// The number of bytes of a piece that were heard, and the event that they bring.
#[derive(Clone, Copy)]
pub(crate) struct Heard {
    pub(crate) count: usize,
    pub(crate) told: Option<Told>,
}

/// A connection from its accept on.
#[derive(Drop)]
pub(crate) struct Connection {
    pub(crate) peer: Option<SocketAddr>,
    pub(crate) state: State,
    pub(crate) cause: Option<Cause>,
    pub(crate) names: LoginNames,
    /// The ISID of its last Login Request.
    pub(crate) isid: [u8; 6],
    /// The last PDU that came is a Login Request.
    is_login: bool,
    /// The number of Login Requests that were not answered.
    pub(crate) unanswered_logins: u32,
    /// The last PDU that was sent is a Login Response.
    is_login_answer: bool,
    pub(crate) values: LoginValues,
    /// Bytes have come.
    pub(crate) has_come: bool,
    pub(crate) requests: PduStream,
    answers: PduStream,
    pub(crate) tasks: RecentTasks,
    /// The last PDU that came, if it is a Data-Out. It broke no rule if another one follows.
    data_out: Option<Header>,
    sense: SenseFront,
}

impl Connection {
    /// Returns a connection that has just come.
    pub(crate) fn new(peer: Option<SocketAddr>) -> Connection {
        Connection {
            peer,
            state: State::LoggingIn,
            cause: None,
            names: LoginNames::new(),
            isid: [0; 6],
            is_login: false,
            unanswered_logins: 0,
            is_login_answer: false,
            values: LoginValues::new(),
            has_come: false,
            requests: PduStream::new(),
            answers: PduStream::new(),
            tasks: RecentTasks::new(),
            data_out: None,
            sense: SenseFront::new(),
        }
    }

    /// Hears the first part of bytes that came.
    pub(crate) fn hear(&mut self, piece: &[u8]) -> Heard
        ensures { result.count ≤ length piece.now }
    {
        self.has_come = true;
        let taken = self.requests.take(piece);
        let told = match taken.part {
            Part::Header => self.hear_request(),
            Part::Data => {
                if self.is_login {
                    self.names.hear(&piece[..taken.count]);
                }
                None
            }
            Part::Other => None,
        };
        Heard {
            count: taken.count,
            told,
        }
    }

    /// Hears a request's header.
    fn hear_request(&mut self) -> Option<Told> {
        let header = Header::new(*self.requests.header());
        if let Some(out) = self.data_out.take() {
            self.tasks.take_data(&out);
        }
        let opcode = header.opcode();
        self.is_login = opcode == Opcode::Login && self.state == State::LoggingIn;
        match opcode {
            Opcode::Login => self.hear_login(&header),
            Opcode::ScsiCommand => self.tasks.note_command(&header),
            Opcode::TaskManagement => return self.hear_function(&header),
            Opcode::DataOut => self.data_out = Some(header),
            _ => {}
        }
        None
    }

    /// Hears the header of a Login Request.
    fn hear_login(&mut self, header: &Header) {
        self.unanswered_logins = self.unanswered_logins.saturating_add(1);
        if self.is_login {
            self.isid = header.isid();
        }
    }

    /// Hears the header of a Task Management Function Request.
    fn hear_function(&mut self, header: &Header) -> Option<Told> {
        self.tasks.note_function(header);
        if self.state != State::LoggedIn {
            return None;
        }
        Some(Told::Asked {
            function: header.task_function(),
            lun: header.lun(),
            tag: header.initiator_task_tag(),
        })
    }

    /// Sees the first part of bytes that were sent.
    pub(crate) fn see(&mut self, piece: &[u8]) -> Heard
        ensures { result.count ≤ length piece.now }
    {
        let taken = self.answers.take(piece);
        let told = match taken.part {
            Part::Header => self.see_answer(),
            Part::Data => self.see_data(&piece[..taken.count]),
            Part::Other => None,
        };
        Heard {
            count: taken.count,
            told,
        }
    }

    /// Sees an answer's header.
    fn see_answer(&mut self) -> Option<Told> {
        self.sense.end();
        self.is_login_answer = false;
        match answer_of(self.answers.header()) {
            Answer::LoggedIn { tsih } => {
                self.see_login();
                self.state = State::LoggedIn;
                return Some(Told::LoggedIn { tsih });
            }
            Answer::LoginGoesOn => self.see_login(),
            Answer::Refused { status } => {
                self.state = State::Refused;
                return Some(Told::Refused { status });
            }
            Answer::LoggedOut => self.state = State::LoggedOut,
            Answer::Function { response, tag } => {
                self.tasks.end(tag);
                return Some(Told::Answered { response, tag });
            }
            Answer::CheckCondition { tag } => {
                self.sense.begin(self.tasks.command_of(tag));
                self.tasks.end(tag);
            }
            Answer::Ended { tag } => self.tasks.end(tag),
            Answer::Asked {
                tag,
                transfer_tag,
                offset,
                length,
            } => self.see_ask(tag, transfer_tag, offset, length),
            Answer::Other => {}
        }
        None
    }

    /// Sees the header of a Login Response without a refusal.
    fn see_login(&mut self) {
        self.is_login_answer = true;
        self.unanswered_logins = self.unanswered_logins.saturating_sub(1);
    }

    /// Sees an R2T to the command with this tag.
    fn see_ask(&mut self, tag: u32, transfer_tag: u32, offset: u32, length: u32) {
        let ask = Ask {
            tag: transfer_tag,
            end: offset.saturating_add(length),
        };
        self.tasks.ask(tag, ask);
    }

    /// Sees data that was sent: the text of a login, the front of sense data, or data that is skipped.
    fn see_data(&mut self, data: &[u8]) -> Option<Told> {
        if self.is_login_answer {
            self.values.see(data);
            return None;
        }
        let sensed = self.sense.see(data)?;
        Some(Told::Sensed(sensed))
    }
}
