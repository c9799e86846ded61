//! What PERSISTENT RESERVE OUT requests.

ghost use Rattle.std.specs.Prelude.{◌≡◌};
ghost use Rattle.scsi_reserve.specs.Request.{request_of, may_ask};

use scsi_cdb::ServiceAction;
use scsi_conflict::ReservationType;
use scsi_sense::Condition;

/// A service action with the type that it needs.
#[derive(Clone, Copy)]
pub(crate) enum Request {
    Register,
    Reserve(ReservationType),
    Release(ReservationType),
    Clear,
    /// The type matters only if a new reservation is made.
    Preempt(Option<ReservationType>),
    RegisterAndIgnoreExistingKey,
}

impl Request {
    /// Returns a service action with the type that SCOPE and TYPE name, if they name one.
    pub fn new(action: ServiceAction, kind: Option<ReservationType>) -> Result<Request, Condition>
        ensures { result ≡ request_of action kind }
    {
        match (action, kind) {
            (ServiceAction::Register, _) => Ok(Request::Register),
            (ServiceAction::Reserve, Some(kind)) => Ok(Request::Reserve(kind)),
            (ServiceAction::Release, Some(kind)) => Ok(Request::Release(kind)),
            (ServiceAction::Reserve | ServiceAction::Release, None) => {
                Err(Condition::InvalidFieldInCdb)
            }
            (ServiceAction::Clear, _) => Ok(Request::Clear),
            (ServiceAction::Preempt, kind) => Ok(Request::Preempt(kind)),
            (ServiceAction::RegisterAndIgnoreExistingKey, _) => {
                Ok(Request::RegisterAndIgnoreExistingKey)
            }
        }
    }

    /// Returns whether a nexus may request it. `own` is the key that the nexus is registered with, if any; `key` is the
    /// key that it gives.
    pub fn may_be_asked(self, own: Option<u64>, key: u64) -> bool
        ensures { result ≡ may_ask self own key }
    {
        match self {
            Request::RegisterAndIgnoreExistingKey => true,
            Request::Register => key == own.unwrap_or(0),
            Request::Reserve(_) | Request::Release(_) | Request::Clear | Request::Preempt(_) => {
                match own {
                    Some(own) => own == key,
                    None => false,
                }
            }
        }
    }
}
