//! What the events of the system tell of the ports.

ghost use Rattle.std.specs.Prelude.{◌≡◌, fold};
ghost use Rattle.mio.specs.Events.{items};
ghost use Rattle.iscsi_ports.specs.Readiness.{after_event};
ghost use Rattle.iscsi_ports.specs.Events.{IsNamed};

use crate::readiness::{Readiness, ReadyEvent};
use crate::watching::LISTENER;
use mio::event::Event;
use mio::{Events, Token};
use target_limits::CONNECTIONS;

/// Takes note of an event.
fn see(readiness: &mut Readiness, event: &Event)
    ensures { readiness.new ≡ after_event readiness.old event.now }
{
    let Token(token) = event.token();
    if token == LISTENER {
        readiness.ready.listener = true;
    } else if token < CONNECTIONS {
        let event = ReadyEvent {
            is_readable: event.is_readable(),
            is_writable: event.is_writable(),
            has_ended: event.is_read_closed() || event.is_error(),
            is_urgent: event.is_priority(),
        };
        readiness.see(token, event);
    }
}

/// Takes note of all events.
fn see_all(readiness: &mut Readiness, events: &Events)
    ensures { readiness.new ≡ fold after_event readiness.old (items events.now) }
{
    for event in events {
        see(readiness, event);
    }
}

/// Takes note of all events, and names those whose turn it is of those that are ready.
pub(crate) fn name_ready(readiness: &mut Readiness, events: &Events)
    ensures { IsNamed (items events.now) readiness.old readiness.new }
{
    see_all(readiness, events);
    readiness.name(true);
}
