//! What is printed after a line: the answer on each open connection, and which connections are closed.

ghost use Rattle.std.specs.Prelude.{◌≡◌, ℕ, List, ◌++◌, ◌<◌, true, length, IfOk, OnOk, OnErr, IfErr, string_bytes};
ghost use Rattle.std.specs.Io.KnownBytes.{Appends};
ghost use Rattle.iscsi_target.specs.History.{History};
ghost use Rattle.iscsi_target.specs.World.{Setting, world};
ghost use Rattle.iscsi_target.specs.Machine.{ReflectsSoundness, IsSure, link_at, is_open_at};
ghost use Rattle.iscsi_target.specs.Stands.{Stands, with_sent};
ghost use Rattle.target_replay.specs.Printed.{bytes_line, closed_line, all_sent};
ghost use Rattle.target_replay.specs.Printing.{HasPrintedOne, HasPrintedAll};

use crate::fault::ReplayFault;
use iscsi_target::{CONNECTIONS, Memory, Target};
use media_store::Store;
use std::alloc::{AllocError, Global};
use std::io::{ErrorKind, Write};

/// Takes all the bytes that wait on a connection, which then count as sent.
fn take_waiting<S: Store>(
    alloc: Global,
    target: &mut Target<S>,
    c: usize,
) -> Result<Vec<u8>, Memory>
    requires in_range { c < 64 }
    requires open { is_open_at target.old c ≡ true }
    ensures bytes { IfOk result (λ bytes. bytes.items ≡ (link_at target.old c).waiting) }
    ensures open { is_open_at target.new c ≡ true }
    ensures stands { OnOk result ((s : Setting) (sent : ℕ → ℕ) (h : History) → Stands s sent target.old h
        → Stands s (with_sent sent c (all_sent (world s h) c)) target.new h) }
    ensures each { ReflectsSoundness target.old target.new }
    ensures sure { IsSure target.old → IsSure target.new }
{
    let mut bytes = Vec::new(alloc);
    'fronts: loop {
        let front = target.out(c);
        if front.is_empty() {
            return Ok(bytes);
        }
        bytes.extend_from_slice(front)?;
        let count = front.len();
        target.sent(c, count);
    }
}

/// Prints `C HEX` if there are bytes.
fn print_bytes(alloc: Global, c: usize, bytes: &[u8], text: &mut String) -> Result<(), AllocError>
    ensures { OnOk result (string_bytes text.new ≡ string_bytes text.old ++ bytes_line c bytes.now) }
{
    if bytes.is_empty() {
        return Ok(());
    }
    let digits = hex::encode(alloc, bytes)?;
    writeln!(text, "{c} {digits}")
}

/// Prints `C closed`.
fn print_closed(c: usize, text: &mut String) -> Result<(), AllocError>
    ensures { OnOk result (string_bytes text.new ≡ string_bytes text.old ++ closed_line c true) }
{
    writeln!(text, "{c} closed")
}

/// Prints the bytes that wait on an open connection, which then count as sent. If it is closing, prints that too, and
/// it is then gone.
fn print_connection<S: Store>(
    alloc: Global,
    target: &mut Target<S>,
    c: usize,
    text: &mut String,
) -> Result<(), Memory>
    requires in_range { c < 64 }
    requires open { is_open_at target.old c ≡ true }
    ensures prints { OnOk result ((s : Setting) (sent : ℕ → ℕ) (h : History) → Stands s sent target.old h
        → HasPrintedOne s sent h c (string_bytes text.old) (string_bytes text.new) target.new) }
    ensures each { ReflectsSoundness target.old target.new }
    ensures sure { IsSure target.old → IsSure target.new }
{
    let bytes = take_waiting(alloc, target, c)?;
    print_bytes(alloc, c, bytes.as_slice(), text)?;
    if target.closing(c) {
        print_closed(c, text)?;
        target.gone(c);
    }
    Ok(())
}

/// Prints the output of a line, connection by connection.
pub fn print<S: Store>(alloc: Global, target: &mut Target<S>) -> Result<String, Memory>
    ensures prints { IfOk result (λ text. (s : Setting) (sent : ℕ → ℕ) (h : History) → Stands s sent target.old h
        → HasPrintedAll s sent h (string_bytes text) target.new) }
    ensures each { ReflectsSoundness target.old target.new }
    ensures sure { IsSure target.old → IsSure target.new }
{
    let mut text = String::new(alloc);
    for c in 0..CONNECTIONS {
        if target.is_open(c) {
            print_connection(alloc, target, c, &mut text)?;
        }
    }
    Ok(text)
}

/// Writes the whole text. If that fails, a prefix of the text was written; `write_all` does not promise that much.
pub fn print_all<W: Write>(text: &[u8], writer: &mut W) -> Result<(), ReplayFault>
    ensures whole { OnOk result (Appends (W.contents writer.old) (W.contents writer.new) text.now) }
    ensures part { OnErr result ((part : List ℕ) × (unprinted : List ℕ) × (text.now ≡ part ++ unprinted)
        × Appends (W.contents writer.old) (W.contents writer.new) part) }
    ensures fault { IfErr result (λ fault. fault ≡ ReplayFault.Output) }
{
    let mut rest = text;
    // The bound makes the loop end, even if every write is interrupted.
    for _ in 0..u64::MAX {
        if rest.is_empty() {
            break;
        }
        match writer.write(rest) {
            Ok(0) => return Err(ReplayFault::Output),
            Ok(count) => rest = &rest[count..],
            Err(error) if error.kind() == ErrorKind::Interrupted => {}
            Err(_) => return Err(ReplayFault::Output),
        }
    }
    match writer.flush() {
        Ok(()) if rest.is_empty() => Ok(()),
        _ => Err(ReplayFault::Output),
    }
}
