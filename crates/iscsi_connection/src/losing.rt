//! A session loses commands to the function of another session (RFC 7143 §11.5.1). Nothing here allocates.

ghost use Rattle.std.specs.Prelude.{◌≡◌, ℕ, List, [], None, true, false};
ghost use Rattle.iscsi_pdu.specs.Frames.{Frame};
ghost use Rattle.iscsi_session.specs.Unread.{takes_in};
ghost use Rattle.iscsi_pdu.specs.Header.{lun_field};
ghost use Rattle.scsi_unit.specs.Units.{AreSound, AreSure};
ghost use Rattle.iscsi_session.specs.Comings.{Coming, lend};
ghost use Rattle.iscsi_session.specs.Runs.{output, Runs};
ghost use Rattle.iscsi_session.specs.Weight.{IsAtRest, Eases};
ghost use Rattle.iscsi_world.specs.World.{function_of, told_by, losing};

use iscsi_pdu::Header;
use iscsi_session::{Reach, Session, attention_of};
use media_store::Store;
use scsi_sense::{Attention, Nexus};
use scsi_unit::Units;

/// Raises the unit attention of a nexus that lost commands by CLEAR TASK SET.
fn tell<S: Store>(units: &mut Units<S>, nexus: &Nexus, function: &Header)
    ensures { units.new ≡ told_by (function_of function.now) (lun_field function.now) nexus.now units.old }
{
    let attention = Attention::CommandsClearedByAnotherInitiator;
    if let Some(Attention::CommandsClearedByAnotherInitiator) = attention_of(function) {
        units.raise(nexus, function.lun(), attention);
    }
}

/// Removes the commands of a session that the function of another session reaches. If it lost any to CLEAR TASK SET,
/// its nexus gets the unit attention.
pub(crate) fn lose<S: Store>(session: &mut Session, units: &mut Units<S>, function: &Header)
    ensures runs { (waiting : List ℕ) (comings : List Coming) → Runs (λ fails place. losing function.now) None true session.old session.new
        (output waiting []) (output waiting []) (lend units.old comings) (lend units.new comings) }
    ensures back { AreSound units.new → AreSound units.old }
    ensures sure { AreSure units.old → AreSure units.new }
    ensures eases { (waiting : List ℕ) → IsAtRest session.old → Eases session.old session.new waiting waiting }
    ensures params { session.new.params ≡ session.old.params }
    ensures takes { (frame : Frame) → takes_in session.old.transfers frame ≡ false → takes_in session.new.transfers frame ≡ false }
{
    let has_lost = session.remove(&Reach {
        function: *function,
        luns: units.luns(),
        is_own: false,
    });
    if has_lost {
        tell(units, &session.params().nexus, function);
    }
}
