//! The replay: events come as lines, and the answers of the target are printed after each.

ghost use Rattle.std.specs.Prelude.{◌≡◌, [], OnOk, IfErr};
ghost use Rattle.iscsi_target.specs.World.{Setting};
ghost use Rattle.iscsi_target.specs.Machine.{IsSound, ReflectsSoundness, IsSure};
ghost use Rattle.target_replay.specs.Printed.{HasSentAll};
ghost use Rattle.target_replay.specs.Replay.{Ends, EndsBy, EndsAsCame, EndsAsCameBy};

use crate::engine::Engine;
use crate::fault::ReplayFault;
use media_store::Store;
use std::io::{ErrorKind, Read, Write};

/// The most reads: input that does not end after this many is a fault.
const MOST_READS: u64 = 4_294_967_296;

/// Carries out the events of `reader`, one a line, and after each prints to `writer` the answers of the target. For
/// each connection in rising order, `C HEX` is printed if bytes wait, which then count as sent. `C closed` is printed
/// if it is closing, and it is then gone. What was printed before a fault remains.
pub fn replay<S: Store, R: Read, W: Write>(
    engine: &mut Engine<S>,
    reader: &mut R,
    writer: &mut W,
) -> Result<(), ReplayFault>
    requires pending { engine.old.pending ≡ [] }
    requires number { engine.old.number ≡ 0 }
    ensures done { OnOk result (IsSound engine.new.target → (s : Setting) → HasSentAll s [] engine.old.target
        → Ends (R.remaining reader.old) (R.remaining reader.new) (W.contents writer.old) (W.contents writer.new) s) }
    ensures fails { IfErr result (λ fault. IsSound engine.new.target → (s : Setting) → HasSentAll s [] engine.old.target
        → EndsBy (R.remaining reader.old) (R.remaining reader.new) (W.contents writer.old) (W.contents writer.new) s fault) }

    // For any target, whatever its stores do: the output of the same lines, by how their commands came out.
    ensures came { OnOk result ((s : Setting) → HasSentAll s [] engine.old.target
        → EndsAsCame (R.remaining reader.old) (R.remaining reader.new) (W.contents writer.old) (W.contents writer.new) s engine.new.target) }
    ensures stops { IfErr result (λ fault. (s : Setting) → HasSentAll s [] engine.old.target
        → EndsAsCameBy (R.remaining reader.old) (R.remaining reader.new) (W.contents writer.old) (W.contents writer.new) s engine.new.target fault) }
    ensures each { ReflectsSoundness engine.old.target engine.new.target }
    ensures sure { IsSure engine.old.target → IsSure engine.new.target }
{
    let mut chunk = [0u8; 4096];
    for _ in 0..MOST_READS {
        match reader.read(&mut chunk) {
            Ok(0) => return engine.end(writer),
            Ok(count) => engine.take(&chunk[..count], writer)?,
            Err(error) if error.kind() == ErrorKind::Interrupted => {}
            Err(_) => return Err(ReplayFault::Input),
        }
    }
    Err(ReplayFault::Input)
}
