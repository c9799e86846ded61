//! The phase of a connection.

use iscsi_login::Login;
use iscsi_session::Session;

/// The phase of a connection (RFC 7143 §4.2.4 to §4.2.6).
pub enum Phase {
    /// Not open.
    Free,
    /// Before full feature phase: the login so far.
    Login(Login),
    /// Full feature phase.
    FullFeature(Session),
    /// Closing: what waits is still sent, and nothing more is read.
    Closing,
}

// Dropped by a call of its own, so that code that drops a phase does not take logins and sessions apart.
impl Drop for Phase {
    fn drop(self) {
        match self {
            Phase::Free | Phase::Closing => {}
            Phase::Login(_login) => {}
            Phase::FullFeature(_session) => {}
        }
    }
}

impl Phase {
    ghost use Rattle.std.specs.Prelude.{◌≡◌};
    ghost use Rattle.iscsi_world.specs.Machine.{is_reading, is_free, is_closing};

    /// Changes the phase.
    pub fn change(&mut self, next: Phase)
        ensures { self.new ≡ next }
    {
        *self = next;
    }

    /// Returns whether frames are read in this phase.
    pub fn reads(&self) -> bool
        ensures { result ≡ is_reading self.now }
    {
        matches!(self, Phase::Login(_) | Phase::FullFeature(_))
    }

    /// Returns whether the connection is not open.
    pub fn is_free(&self) -> bool
        ensures { result ≡ is_free self.now }
    {
        matches!(self, Phase::Free)
    }

    /// Returns whether the connection is closing: what waits is still sent, and nothing more is read.
    pub fn is_closing(&self) -> bool
        ensures { result ≡ is_closing self.now }
    {
        matches!(self, Phase::Closing)
    }
}
