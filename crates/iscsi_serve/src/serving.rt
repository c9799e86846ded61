//! The loop, turn by turn.

ghost use Rattle.std.specs.Prelude.{◌≡◌, ◌<◌, ◌≤◌, ◌++◌, ◌∷◌, [], List, Bool, true, false, ◌||◌, ◌&&◌, ◌==◌, length, slice_index_or, OnOk, IfErr};
ghost use Rattle.iscsi_target.specs.Bounded.{Bounded};
ghost use Rattle.iscsi_target.specs.History.{connections};
ghost use Rattle.iscsi_target.specs.Machine.{IsSound, ReflectsSoundness, IsSure, link_at, is_open_at, is_closing};
ghost use Rattle.iscsi_ports.specs.Log.{Entry, AcceptFailed};
ghost use Rattle.iscsi_serve.specs.Served.{StaysServed, ComesOutServed};
ghost use Rattle.iscsi_serve.specs.Turn.{Moment, moment, log_of, beginning, free_number as lowest_free, HasAccepted, Accepts, Reads, Writes, Closes, InOrder, Carries, EndsTurn, EndsTurns};
ghost use Rattle.iscsi_serve.specs.Progress.{AreEnded, none_ended, is_to_close, NoneToClose, KeepsOthers, MovesBy, Keeps, StepsBy};
ghost use Rattle.iscsi_ports.specs.declared.results.Named.{Named};

use crate::ending::{any_ended, either, has_ended, is_done};
use crate::fault::ServeFault;
use crate::named::count_named;
use crate::reading::{HEADER, MOST_READ, ReadArray, read_one};
use iscsi_ports::{Accepted, IoResult, Named, PortFault, Ports};
use iscsi_target::Target;
use media_store::Store;
use target_limits::CONNECTIONS;

/// Returns the lowest free number, or 64 if there is none.
fn free_number<S: Store>(target: &Target<S>) -> usize
    ensures value { result ≡ lowest_free target.now }
    ensures free { result < 64 → is_open_at target.now result ≡ false }
    ensures range { result ≤ 64 }
{
    for c in 0..CONNECTIONS {
        if !target.is_open(c) {
            return c;
        }
    }
    CONNECTIONS
}

/// Accepts a waiting connection. Closes it at once if no number is free for it.
fn accept_one<P: Ports, S: Store>(ports: &mut P, target: &mut Target<S>) -> Result<(), ServeFault>
    ensures ok { OnOk result (P.tells ports.new ≡ true
        → MovesBy HasAccepted (P.log ports.old) (P.log ports.new) target.old target.new none_ended none_ended) }
    ensures failed { IfErr result (λ fault. (fault ≡ ServeFault.Accept) × (target.new ≡ target.old)
        × (P.tells ports.new ≡ true → P.log ports.new ≡ P.log ports.old ++ AcceptFailed ∷ [])) }
    ensures keeps { Keeps (P.tells ports.old) (P.tells ports.new) (P.log ports.old) (P.log ports.new) target.old target.new }
{
    let c = free_number(target);
    match ports.accept(c) {
        Ok(Accepted::Nobody) => {}
        Ok(Accepted::Connection) => {
            if c == CONNECTIONS {
                ports.close(c);
            } else if target.open(c).is_err() {
                ports.close(c);
            }
        }
        Err(PortFault) => return Err(ServeFault::Accept),
    }
    Ok(())
}

/// Writes the next contiguous bytes of an open connection, as many as the ports accept.
fn write_open<P: Ports, S: Store>(
    ports: &mut P,
    target: &mut Target<S>,
    ended: &mut [bool; CONNECTIONS],
    c: usize,
)
    requires in_range { c < 64 }
    requires open { is_open_at target.old c ≡ true }
    ensures does { StepsBy (Writes c) (P.tells ports.old) (P.tells ports.new) (P.log ports.old) (P.log ports.new) target.old target.new ended.old ended.new }
    ensures open { is_open_at target.new c ≡ true }
    ensures others { KeepsOthers c target.old target.new ended.old ended.new }
{
    let offered = target.out(c);
    if offered.is_empty() {
        return;
    }
    match ports.write(c, offered) {
        IoResult::Bytes(0) => target.note_stalled(c),
        IoResult::Bytes(count) => target.sent(c, count),
        IoResult::End | IoResult::Fault => ended[c] = true,
    }
}

/// Puts off the write of a stalled connection if the ports still take none of its bytes. Returns whether it did.
fn put_off<P: Ports, S: Store>(ports: &mut P, target: &Target<S>, c: usize) -> bool
    requires { c < 64 }
    ensures does { result ≡ true → (ended : List Bool) → StepsBy (Writes c) (P.tells ports.old) (P.tells ports.new)
        (P.log ports.old) (P.log ports.new) target.now target.now ended ended }
    ensures open { result ≡ true → is_open_at target.now c ≡ true }
    ensures waits { result ≡ true → 0 < length (link_at target.now c).waiting }
    ensures same { result ≡ false → ports.new ≡ ports.old }
{
    target.is_stalled(c) && ports.puts_off(c, target.out(c))
}

/// Writes what waits on a connection, as many bytes as the ports accept. Returns whether the connection is then to be
/// closed.
fn write_one<P: Ports, S: Store>(
    ports: &mut P,
    target: &mut Target<S>,
    ended: &mut [bool; CONNECTIONS],
    c: usize,
) -> bool
    requires { c < 64 }
    ensures does { StepsBy (Writes c) (P.tells ports.old) (P.tells ports.new) (P.log ports.old) (P.log ports.new) target.old target.new ended.old ended.new }
    ensures others { KeepsOthers c target.old target.new ended.old ended.new }
    ensures due { result ≡ is_to_close ended.new target.new c }
{
    // A connection that takes nothing is not looked at: there is a turn for each PDU of the others.
    if put_off(ports, target, c) {
        target.note_full(c);
        return ended[c];
    }
    if target.is_silent(c) {
        return has_ended(target, ended, c);
    }
    if !target.is_open(c) {
        return false;
    }
    write_open(ports, target, ended, c);
    is_done(target, ended, c)
}

/// Closes a connection that has ended, or that the target has closed and on which nothing waits.
fn close_one<P: Ports, S: Store>(
    ports: &mut P,
    target: &mut Target<S>,
    ended: &[bool; CONNECTIONS],
    c: usize,
)
    requires { c < 64 }
    ensures { StepsBy (Closes c) (P.tells ports.old) (P.tells ports.new) (P.log ports.old) (P.log ports.new) target.old target.new ended.now ended.now }
{
    if !target.is_open(c) {
        return;
    }
    if is_done(target, ended, c) {
        ports.close(c);
        target.gone(c);
    }
}

/// Makes all reads that are due.
fn read_all<P: Ports, S: Store>(
    ports: &mut P,
    target: &mut Target<S>,
    named: &Named,
    buffer: &mut ReadArray,
    ended: &mut [bool; CONNECTIONS],
)
    ensures { StepsBy (InOrder (Reads named.now) connections) (P.tells ports.old) (P.tells ports.new)
        (P.log ports.old) (P.log ports.new) target.old target.new ended.old ended.new }
{
    let mut unread = count_named(named);
    for c in 0..CONNECTIONS {
        if unread == 0 {
            return;
        }
        read_one(ports, target, named, buffer, ended, c);
        if named.connections[c] {
            unread -= 1;
        }
    }
}

/// Makes all writes that are due. Returns whether a close may be due then.
fn write_all<P: Ports, S: Store>(
    ports: &mut P,
    target: &mut Target<S>,
    ended: &mut [bool; CONNECTIONS],
) -> bool
    ensures does { StepsBy (InOrder Writes connections) (P.tells ports.old) (P.tells ports.new)
        (P.log ports.old) (P.log ports.new) target.old target.new ended.old ended.new }
    ensures due { result ≡ false → NoneToClose 64 ended.new target.new }
{
    let mut has_closes = any_ended(ended);
    let mut from = 0;
    while let Some(c) = target.next_busy(from) {
        let closes = write_one(ports, target, ended, c);
        has_closes = either(has_closes, closes);
        from = c + 1;
    }
    has_closes
}

/// Closes each connection whose close is due.
fn close_each<P: Ports, S: Store>(
    ports: &mut P,
    target: &mut Target<S>,
    ended: &[bool; CONNECTIONS],
)
    ensures { StepsBy (InOrder Closes connections) (P.tells ports.old) (P.tells ports.new)
        (P.log ports.old) (P.log ports.new) target.old target.new ended.now ended.now }
{
    for c in 0..CONNECTIONS {
        close_one(ports, target, ended, c);
    }
}

/// Closes each connection whose close is due, if any may be.
fn close_all<P: Ports, S: Store>(
    ports: &mut P,
    target: &mut Target<S>,
    ended: &[bool; CONNECTIONS],
    has_closes: bool,
)
    requires { has_closes ≡ false → NoneToClose 64 ended.now target.old }
    ensures { StepsBy (InOrder Closes connections) (P.tells ports.old) (P.tells ports.new)
        (P.log ports.old) (P.log ports.new) target.old target.new ended.now ended.now }
{
    if has_closes {
        close_each(ports, target, ended);
    }
}

/// Accepts one connection if the poll named the listener.
fn accept_named<P: Ports, S: Store>(
    ports: &mut P,
    target: &mut Target<S>,
    named: &Named,
) -> Result<(), ServeFault>
    ensures ok { OnOk result (P.tells ports.new ≡ true
        → MovesBy (Accepts named.now) (P.log ports.old) (P.log ports.new) target.old target.new none_ended none_ended) }
    ensures failed { IfErr result (λ fault. (fault ≡ ServeFault.Accept) × (named.now.listener ≡ true) × (target.new ≡ target.old)
        × (P.tells ports.new ≡ true → P.log ports.new ≡ P.log ports.old ++ AcceptFailed ∷ [])) }
    ensures keeps { Keeps (P.tells ports.old) (P.tells ports.new) (P.log ports.old) (P.log ports.new) target.old target.new }
{
    if !named.listener {
        return Ok(());
    }
    accept_one(ports, target)
}

/// Makes all reads, writes and closes that are due, in this order.
fn carry<P: Ports, S: Store>(
    ports: &mut P,
    target: &mut Target<S>,
    named: &Named,
    buffer: &mut ReadArray,
)
    ensures carries { P.tells ports.new ≡ true → (before turn : List Entry) → P.log ports.old ≡ before ++ turn → AreEnded none_ended turn
        → (after : List Entry) × (P.log ports.new ≡ before ++ after) × Carries named.now (moment target.old before turn) (moment target.new before after) }
    ensures keeps { Keeps (P.tells ports.old) (P.tells ports.new) (P.log ports.old) (P.log ports.new) target.old target.new }
{
    let mut ended = [false; CONNECTIONS];
    read_all(ports, target, named, buffer, &mut ended);
    let has_closes = write_all(ports, target, &mut ended);
    close_all(ports, target, &ended, has_closes);
}

/// Makes a turn that reads into this buffer.
fn turn_with<P: Ports, S: Store>(
    ports: &mut P,
    target: &mut Target<S>,
    buffer: &mut ReadArray,
) -> Result<(), ServeFault>
    ensures turned { P.tells ports.new ≡ true
        → (m : Moment) × (P.log ports.new ≡ log_of m) × (target.new ≡ m.target) × EndsTurn (beginning target.old (P.log ports.old)) result m }
    ensures keeps { Keeps (P.tells ports.old) (P.tells ports.new) (P.log ports.old) (P.log ports.new) target.old target.new }
{
    let named = match ports.poll() {
        Ok(named) => named,
        Err(PortFault) => return Err(ServeFault::Poll),
    };
    match accept_named(ports, target, &named) {
        Ok(()) => {
            carry(ports, target, &named, buffer);
            Ok(())
        }
        Err(fault) => Err(fault),
    }
}

/// Makes one turn:
///
/// 1. one poll;
/// 2. one accept, if the poll named the listener;
/// 3. one read of each connection that the poll named and that wants bytes;
/// 4. one write of each connection on which bytes wait;
/// 5. a close of each connection that has ended, or that the target has closed and on which nothing waits.
///
/// Reads, writes and closes go through the connections in rising number.
///
/// Returns a fault only if the poll or the accept failed. A failed allocation closes one connection and is no fault.
pub fn turn<P: Ports, S: Store>(ports: &mut P, target: &mut Target<S>) -> Result<(), ServeFault>
    ensures turned { P.tells ports.new ≡ true
        → (m : Moment) × (P.log ports.new ≡ log_of m) × (target.new ≡ m.target) × EndsTurn (beginning target.old (P.log ports.old)) result m }
    ensures served { P.tells ports.new ≡ true → IsSound target.new → StaysServed (P.log ports.old) (P.log ports.new) target.old target.new }

    // This holds of every target, whatever its stores do: the commands came out as these comings say.
    ensures came { P.tells ports.new ≡ true → ComesOutServed (P.log ports.old) (P.log ports.new) target.old target.new }
    ensures bounded { Bounded target.old → Bounded target.new }
    ensures back { P.tells ports.new ≡ true → P.tells ports.old ≡ true }
    ensures each { ReflectsSoundness target.old target.new }
    ensures sure { IsSure target.old → IsSure target.new }
{
    let mut buffer = [0; MOST_READ + HEADER];
    turn_with(ports, target, &mut buffer)
}

/// Makes `count` turns, or fewer if a fault ends them.
pub fn turns<P: Ports, S: Store>(
    ports: &mut P,
    target: &mut Target<S>,
    count: u64,
) -> Result<(), ServeFault>
    ensures turned { P.tells ports.new ≡ true
        → (m : Moment) × (P.log ports.new ≡ log_of m) × (target.new ≡ m.target) × EndsTurns count (beginning target.old (P.log ports.old)) result m }
    ensures served { P.tells ports.new ≡ true → IsSound target.new → StaysServed (P.log ports.old) (P.log ports.new) target.old target.new }

    // This holds of every target, whatever its stores do: the commands came out as these comings say.
    ensures came { P.tells ports.new ≡ true → ComesOutServed (P.log ports.old) (P.log ports.new) target.old target.new }
    ensures bounded { Bounded target.old → Bounded target.new }
    ensures back { P.tells ports.new ≡ true → P.tells ports.old ≡ true }
    ensures each { ReflectsSoundness target.old target.new }
    ensures sure { IsSure target.old → IsSure target.new }
{
    let mut buffer = [0; MOST_READ + HEADER];
    for _ in 0..count {
        turn_with(ports, target, &mut buffer)?;
    }
    Ok(())
}
