//! Histories: the lists of events that a caller may produce.

ghost use Rattle.std.specs.Prelude.{◌≡◌, ℕ, List, true};
ghost use Rattle.iscsi_world.specs.History.{may_come, open_after, well_formed as is_well_formed};
ghost use Rattle.iscsi_target.specs.Events.{event_view, events_view};
ghost use Rattle.iscsi_world.specs.Runs.{IsTable};

use crate::event::Event;
use target_limits::CONNECTIONS;

/// Returns whether the event may come while these connections are open. If so, updates the table of open connections.
fn come(table: &mut [bool; CONNECTIONS], event: &Event) -> bool
    ensures allowed { (before : List ℕ) → IsTable table.old before → result ≡ may_come before (event_view event.now) }
    ensures after { result ≡ true → (before : List ℕ) → IsTable table.old before → IsTable table.new (open_after before (event_view event.now)) }
{
    match event {
        Event::Open(c) => {
            if *c >= CONNECTIONS || table[*c] {
                return false;
            }
            table[*c] = true;
            true
        }
        Event::Bytes(c, _) => *c < CONNECTIONS && table[*c],
        Event::Gone(c) => {
            if *c >= CONNECTIONS || !table[*c] {
                return false;
            }
            table[*c] = false;
            true
        }
    }
}

/// Returns whether a new target may be given these events. Each connection number is below 64, free when it opens,
/// and open when it brings bytes or ends. Allocates nothing.
pub fn well_formed(events: &[Event]) -> bool
    ensures { result ≡ is_well_formed (events_view events.now) }
{
    let mut table = [false; CONNECTIONS];
    for event in events {
        if !come(&mut table, event) {
            return false;
        }
    }
    true
}
