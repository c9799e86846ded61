//! A replay in progress.

ghost use Rattle.std.specs.Prelude.{◌≡◌, ◌==◌, ◌++◌, ◌∷◌, None, IfSome, false, length, All};

use crate::fault::ReplayFault;
use crate::printing::print_all;
use crate::reply::reply;
use iscsi_target::Target;
use media_store::Store;
use std::alloc::Global;
use std::io::Write;
use std::marker::Model;

/// The progress of a replay.
#[derive(Drop)]
pub struct Engine<S: Store> {
    alloc: Global,
    target: Target<S>,
    /// The line that has not ended yet.
    pending: Vec<u8>,
    /// The number of the line before it.
    number: u64,
    ghost one_line: { All (λ byte. (byte == 10) ≡ false) pending.items },
}

impl<S: Store> Model for Engine<S> {
    ghost use Rattle.target_replay.specs.Engine.{Progress};

    ghost Value = { Progress };

    ghost view = { λ engine. record { target = engine.target; pending = engine.pending.items; number = engine.number; one_line = engine.one_line } };
}

/// Returns the line that the first newline ends, and what comes after it, or `None` if there is no newline.
fn split_line(bytes: &[u8]) -> Option<(&[u8], &[u8])>
    ensures none { result ≡ None → All (λ byte. (byte == 10) ≡ false) bytes.now }
    ensures line { IfSome result (λ p. All (λ byte. (byte == 10) ≡ false) p.0.now) }
    ensures parts { IfSome result (λ p. bytes.now ≡ p.0.now ++ 10 ∷ p.1.now) }
{
    let at = bytes.iter().position(|byte| *byte == b'\n')?;
    Some((&bytes[..at], &bytes[at + 1..]))
}

impl<S: Store> Engine<S> {
    ghost use Rattle.std.specs.Prelude.{◌≡◌, ℕ, ◌+◌, ◌^◌, ◌<◌, ◌≤◌, ◌++◌, ◌∷◌, List, [], ◌==◌, false, All, length, OnOk, IfErr, Some};
    ghost use Rattle.std.specs.Io.KnownBytes.{Appends};
    ghost use Rattle.iscsi_target.specs.History.{History};
    ghost use Rattle.iscsi_target.specs.World.{Setting};
    ghost use Rattle.iscsi_target.specs.Machine.{ReflectsSoundness, IsSure};
    ghost use Rattle.target_replay.specs.Comings.{Kind, IsOf};
    ghost use Rattle.target_replay.specs.Printed.{HasSentAll};
    ghost use Rattle.target_replay.specs.Engine.{Takes, Stops, Finishes, StopsLast, LineEnds, LineFails};

    /// Returns a replay that has read nothing yet.
    pub fn new(alloc: Global, target: Target<S>) -> Engine<S>
        ensures target { result.target ≡ target }
        ensures pending { result.pending ≡ [] }
        ensures number { result.number ≡ 0 }
    {
        Engine {
            alloc,
            target,
            pending: Vec::new(alloc),
            number: 0,
        }
    }

    /// Returns the target as it is now.
    pub fn into_target(self) -> Target<S>
        ensures { result ≡ self.target }
    {
        self.target
    }

    /// Carries out the pending line, whose newline came, and prints its output.
    fn end_line<W: Write>(&mut self, writer: &mut W) -> Result<(), ReplayFault>
        requires counts { self.old.number + 1 < 2 ^ 64 }
        ensures reply { OnOk result ((kind : Kind) → IsOf kind self.new.target → (s : Setting) (h : History) → HasSentAll s h self.old.target
            → LineEnds kind s h self.old.pending self.new.target (W.contents writer.old) (W.contents writer.new)) }
        ensures pending { OnOk result (self.new.pending ≡ []) }
        ensures number { OnOk result (self.new.number ≡ self.old.number + 1) }
        ensures fails { IfErr result (λ fault. (kind : Kind) → IsOf kind self.new.target → (s : Setting) (h : History)
            → HasSentAll s h self.old.target → LineFails kind s h self.old self.new.target (W.contents writer.old) (W.contents writer.new) fault) }
        ensures each { ReflectsSoundness self.old.target self.new.target }
        ensures sure { IsSure self.old.target → IsSure self.new.target }
    {
        self.number += 1;
        let Some(text) = reply(self.alloc, &mut self.target, self.pending.as_slice())? else {
            return Err(ReplayFault::Refused { line: self.number });
        };
        self.pending.clear();
        print_all(text.as_bytes(), writer)
    }

    /// Appends bytes to the pending line.
    fn push(&mut self, bytes: &[u8]) -> Result<(), ReplayFault>
        requires one_line { All (λ byte. (byte == 10) ≡ false) bytes.now }
        ensures pending { OnOk result (self.new.pending ≡ self.old.pending ++ bytes.now) }
        ensures target { self.new.target ≡ self.old.target }
        ensures number { self.new.number ≡ self.old.number }
        ensures memory { IfErr result (λ fault. fault ≡ ReplayFault.OutOfMemory) }
    {
        self.pending.extend_from_slice(bytes)?;
        Ok(())
    }

    /// Takes the rest of a line, after which a newline came, and carries the line out.
    fn take_line<W: Write>(&mut self, rest: &[u8], writer: &mut W) -> Result<(), ReplayFault>
        requires counts { self.old.number + 1 < 2 ^ 64 }
        requires one_line { All (λ byte. (byte == 10) ≡ false) rest.now }
        ensures takes { OnOk result ((kind : Kind) → IsOf kind self.new.target
            → Takes kind self.old (rest.now ++ 10 ∷ []) self.new (W.contents writer.old) (W.contents writer.new)) }
        ensures number { OnOk result (self.new.number ≡ self.old.number + 1) }
        ensures stops { IfErr result (λ fault. (kind : Kind) → IsOf kind self.new.target
            → Stops kind self.old (rest.now ++ 10 ∷ []) self.new.target (W.contents writer.old) (W.contents writer.new) fault) }
        ensures each { ReflectsSoundness self.old.target self.new.target }
        ensures sure { IsSure self.old.target → IsSure self.new.target }
    {
        self.push(rest)?;
        self.end_line(writer)
    }

    /// Takes the next bytes of the input.
    pub fn take<W: Write>(&mut self, piece: &[u8], writer: &mut W) -> Result<(), ReplayFault>
        requires counts { self.old.number + length piece.now < 2 ^ 64 }
        ensures takes { OnOk result ((kind : Kind) → IsOf kind self.new.target
            → Takes kind self.old piece.now self.new (W.contents writer.old) (W.contents writer.new)) }
        ensures number { OnOk result (self.new.number ≤ self.old.number + length piece.now) }
        ensures stops { IfErr result (λ fault. (kind : Kind) → IsOf kind self.new.target
            → Stops kind self.old piece.now self.new.target (W.contents writer.old) (W.contents writer.new) fault) }
        ensures each { ReflectsSoundness self.old.target self.new.target }
        ensures sure { IsSure self.old.target → IsSure self.new.target }
    {
        let mut rest = piece;
        while let Some((line, behind)) = split_line(rest) {
            self.take_line(line, writer)?;
            rest = behind;
        }
        self.push(rest)
    }

    /// Ends the input, whose last line may lack its newline.
    pub fn end<W: Write>(&mut self, writer: &mut W) -> Result<(), ReplayFault>
        requires counts { self.old.number + 1 < 2 ^ 64 }
        ensures finishes { OnOk result ((kind : Kind) → IsOf kind self.new.target
            → Finishes kind self.old self.new.target (W.contents writer.old) (W.contents writer.new)) }
        ensures stops { IfErr result (λ fault. (kind : Kind) → IsOf kind self.new.target
            → StopsLast kind self.old self.new.target (W.contents writer.old) (W.contents writer.new) fault) }
        ensures each { ReflectsSoundness self.old.target self.new.target }
        ensures sure { IsSure self.old.target → IsSure self.new.target }
    {
        if self.pending.is_empty() {
            return Ok(());
        }
        self.end_line(writer)
    }
}
