//! Reads of a connection: into the buffer of its half-read PDU, or into one from which they are fed.

ghost use Rattle.std.specs.Prelude.{◌≡◌, ◌<◌, ◌≤◌, ◌+◌, ◌++◌, ◌∷◌, [], true, false, length, take, drop, IfSome, IfNone};
ghost use Rattle.iscsi_target.specs.Header.{header_length};
ghost use Rattle.iscsi_target.specs.Feeding.{LacksRoom, LendsRoomAt};
ghost use Rattle.iscsi_target.specs.Rooms.{filled_in};
ghost use Rattle.iscsi_target.specs.Machine.{Machine, link_at, is_open_at, is_reading};
ghost use Rattle.iscsi_serve.specs.Turn.{is_read, Reads};
ghost use Rattle.iscsi_serve.specs.Progress.{FeedsPiece, IsDue, StepsBy};
ghost use Rattle.iscsi_ports.specs.Log.{Read};
ghost use Rattle.iscsi_ports.specs.Results.{carried_read, read_count, LendsSome};
ghost use Rattle.iscsi_ports.specs.declared.results.Named.{Named};

use iscsi_ports::{Named, Ports, ReadResult};
use iscsi_target::{FrameRoom, Starved, Target};
use media_store::Store;
use target_limits::CONNECTIONS;

/// The most bytes that a read has room for.
pub(crate) const MOST_READ: usize = 65_536;

/// The length in bytes of a header (RFC 7143 §11.2.1).
pub(crate) const HEADER: usize = 48;

/// The least room, in bytes, for which the buffer of a half-read PDU is lent to the ports. Less is copied.
const LEAST_FILLED: usize = 4_096;

/// A buffer for a read, and for the next header after it.
pub(crate) type ReadArray = [u8; MOST_READ + HEADER];

/// Feeds a connection. If an allocation fails, returns the connection that the target is closing; the others go on.
fn feed<S: Store>(target: &mut Target<S>, c: usize, piece: &[u8]) -> Option<usize>
    requires in_range { c < 64 }
    requires open { is_open_at target.old c ≡ true }
    ensures { FeedsPiece c piece.now target.old target.new }
{
    match target.feed(c, piece) {
        Ok(()) => None,
        Err(Starved { connection }) => Some(connection),
    }
}

/// Reports to the ports the connection that closes because an allocation failed, if there is one.
fn tell_starved<P: Ports>(ports: &mut P, starved: Option<usize>)
    ensures log { P.log ports.new ≡ P.log ports.old }
    ensures tells { P.tells ports.new ≡ P.tells ports.old }
{
    if let Some(connection) = starved {
        ports.starved(connection);
    }
}

/// Returns whether a connection is open. A stalled one is, without a look at it.
fn is_open<S: Store>(target: &Target<S>, c: usize) -> bool
    requires { c < 64 }
    ensures { result ≡ is_open_at target.now c }
{
    target.is_stalled(c) || target.is_open(c)
}

/// Returns how many bytes to read from a connection: 0 if no read is due.
fn room_for<S: Store>(target: &Target<S>, named: &Named, c: usize) -> usize
    requires { c < 64 }
    ensures none { result ≡ 0 → is_read named.now c (link_at target.now c) ≡ false }
    ensures due { 0 < result → IsDue named.now c result target.now }
    ensures bound { result ≤ 65536 }
{
    if !named.connections[c] || !is_open(target, c) {
        return 0;
    }
    target.want(c).min(MOST_READ)
}

/// Returns where the buffer ends for a read with this room: after one more header if a PDU ends in the room, so that the
/// ports need no read for that alone.
fn end_of<S: Store>(target: &Target<S>, c: usize, room: usize) -> usize
    requires in_range { c < 64 }
    requires open { is_open_at target.now c ≡ true }
    requires bound { room ≤ 65536 }
    ensures least { room ≤ result }
    ensures most { result ≤ 65584 }
{
    if room == MOST_READ && target.want(c) > MOST_READ {
        return room;
    }
    room + HEADER
}

/// Reads a piece from a connection, of at most `room` bytes, and feeds it.
fn read_piece<P: Ports, S: Store>(
    ports: &mut P,
    target: &mut Target<S>,
    buffer: &mut [u8],
    room: usize,
    ended: &mut [bool; CONNECTIONS],
    c: usize,
)
    requires in_range { c < 64 }
    requires open { is_open_at target.old c ≡ true }
    requires room { room ≤ length buffer.old }
    ensures { (named : Named) → IsDue named c room target.old → StepsBy (Reads named c) (P.tells ports.old) (P.tells ports.new)
        (P.log ports.old) (P.log ports.new) target.old target.new ended.old ended.new }
{
    match ports.read_front(c, room, buffer) {
        ReadResult::Bytes(0) => {}
        ReadResult::Bytes(count) => {
            let starved = feed(target, c, &buffer[..count]);
            tell_starved(ports, starved);
        }
        ReadResult::Lent(lent) => {
            let starved = feed(target, c, lent.as_slice());
            tell_starved(ports, starved);
            ports.take_back(lent);
        }
        ReadResult::End | ReadResult::Fault => ended[c] = true,
    }
}

/// Feeds a connection what a reader has filled into the buffer of its PDU. If an allocation fails, returns the connection
/// that the target is closing.
fn feed_room<S: Store>(
    target: &mut Target<S>,
    c: usize,
    lent: FrameRoom,
    count: usize,
) -> Option<usize>
    requires in_range { c < 64 }
    requires reads { is_reading (link_at target.old c).phase ≡ true }
    requires header { length (link_at target.old c).half ≡ header_length }
    requires within { lent.from + count ≤ length lent.buffer.items }
    ensures { (before : Machine) → LacksRoom c lent before target.old → FeedsPiece c (filled_in lent count) before target.new }
{
    match target.feed_room(c, lent, count) {
        Ok(()) => None,
        Err(Starved { connection }) => Some(connection),
    }
}

/// Lends the buffer of a connection's half-read PDU for a read with this room, if that is large.
fn lend_room<S: Store>(target: &mut Target<S>, c: usize, room: usize) -> Option<FrameRoom>
    requires { c < 64 }
    ensures lent { IfSome result (λ lent. LendsRoomAt c lent room target.old target.new) }
    ensures none { IfNone result (target.new ≡ target.old) }
{
    if room < LEAST_FILLED {
        return None;
    }
    target.lend_room(c, room)
}

/// Reads at most `room` bytes from a connection into the lent buffer of its half-read PDU. The ports may use what stands
/// after the room, up to `end` bytes in all.
fn read_into<P: Ports>(
    ports: &mut P,
    lent: &mut FrameRoom,
    room: usize,
    end: usize,
    c: usize,
) -> ReadResult
    requires in_range { c < 64 }
    requires least { room ≤ end }
    requires most { end ≤ 65584 }
    requires room { lent.old.to ≡ lent.old.from + room }
    requires within { lent.old.to ≤ length lent.old.buffer.items }
    ensures count { read_count result ≤ room }
    ensures some { LendsSome result }
    ensures log { P.tells ports.new ≡ true → P.log ports.new ≡ P.log ports.old
        ++ Read c room (carried_read result (take room (drop lent.new.from lent.new.buffer.items))) ∷ [] }
    ensures back { P.tells ports.new ≡ true → P.tells ports.old ≡ true }
    ensures from { lent.new.from ≡ lent.old.from }
    ensures front { take lent.old.from lent.new.buffer.items ≡ take lent.old.from lent.old.buffer.items }
    ensures long { length lent.new.buffer.items ≡ length lent.old.buffer.items }
{
    let from = lent.from;
    let stop = lent.buffer.len().min(from + end);
    ports.read_front(c, room, &mut lent.buffer.as_mut_slice()[from..stop])
}

/// Reads a piece from a connection, of at most `room` bytes, into the lent buffer of its half-read PDU, and feeds it.
fn read_room<P: Ports, S: Store>(
    ports: &mut P,
    target: &mut Target<S>,
    lent: FrameRoom,
    room: usize,
    end: usize,
    ended: &mut [bool; CONNECTIONS],
    c: usize,
)
    requires in_range { c < 64 }
    requires least { room ≤ end }
    requires most { end ≤ 65584 }
    requires reads { is_reading (link_at target.old c).phase ≡ true }
    requires header { length (link_at target.old c).half ≡ header_length }
    requires room { lent.to ≡ lent.from + room }
    requires within { lent.to ≤ length lent.buffer.items }
    ensures { (named : Named) (before : Machine) → LacksRoom c lent before target.old → IsDue named c room before
        → StepsBy (Reads named c) (P.tells ports.old) (P.tells ports.new) (P.log ports.old) (P.log ports.new) before target.new ended.old ended.new }
{
    let mut lent = lent;
    match read_into(ports, &mut lent, room, end, c) {
        ReadResult::Bytes(0) => target.return_room(c, lent),
        ReadResult::Bytes(count) => {
            let starved = feed_room(target, c, lent, count);
            tell_starved(ports, starved);
        }
        ReadResult::Lent(piece) => {
            target.return_room(c, lent);
            let starved = feed(target, c, piece.as_slice());
            tell_starved(ports, starved);
            ports.take_back(piece);
        }
        ReadResult::End | ReadResult::Fault => {
            target.return_room(c, lent);
            ended[c] = true;
        }
    }
}

/// Reads from a connection if a read is due.
pub(crate) fn read_one<P: Ports, S: Store>(
    ports: &mut P,
    target: &mut Target<S>,
    named: &Named,
    buffer: &mut ReadArray,
    ended: &mut [bool; CONNECTIONS],
    c: usize,
)
    requires { c < 64 }
    ensures { StepsBy (Reads named.now c) (P.tells ports.old) (P.tells ports.new)
        (P.log ports.old) (P.log ports.new) target.old target.new ended.old ended.new }
{
    let room = room_for(target, named, c);
    if room == 0 {
        return;
    }
    let end = end_of(target, c, room);
    if let Some(lent) = lend_room(target, c, room) {
        read_room(ports, target, lent, room, end, ended, c);
        return;
    }
    read_piece(ports, target, &mut buffer[..end], room, ended, c);
}
