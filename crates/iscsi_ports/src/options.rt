//! The options of connections: what is written is sent at once, and the system finds out that a peer is gone
//! (tcp(7)).
//!
//! They are set on the listener: a connection has those that its listener had when it came.

ghost use Rattle.std.specs.Prelude.{◌≡◌, take};
ghost use Rattle.std.specs.Int.{w32, to_le_bytes, cast_unsigned};
ghost use Rattle.libc.specs.Net.{SockOption};

use libc::net::{
    IPPROTO_TCP, SO_KEEPALIVE, SOL_SOCKET, TCP_KEEPCNT, TCP_KEEPIDLE, TCP_KEEPINTVL, TCP_NODELAY,
    TCP_USER_TIMEOUT, setsockopt,
};
use mio::net::TcpListener;
use std::os::fd::AsRawFd;

/// The number of seconds without a byte after which the peer is asked whether it is there.
const IDLE: i32 = 30;

/// The number of seconds after which it is asked again.
const INTERVAL: i32 = 10;

/// How often it is asked before it counts as gone.
const ASKED: i32 = 3;

/// For how many milliseconds it may leave what was sent unacknowledged, or have no room for it, before it counts as gone.
const UNACKNOWLEDGED: i32 = 60_000;

/// Returns a number as the value of an option.
fn value(number: i32) -> [u8; 16]
    ensures { take 4 result ≡ to_le_bytes w32 (cast_unsigned w32 number) }
{
    let mut bytes = [0; 16];
    bytes[..4].copy_from_slice(&number.to_ne_bytes());
    bytes
}

/// Sets an option of a listener. One that the system does not have is passed over.
fn set(listener: &TcpListener, level: i32, name: i32, number: i32)
    requires { SockOption level name }
{
    let _ = unsafe { setsockopt(listener.as_raw_fd(), level, name, &value(number), 4) };
}

/// Sets that the system sends at once what is written to the connections of a listener, and ends one whose peer is
/// gone: its next read then fails.
pub(crate) fn set_options(listener: &TcpListener) {
    set(listener, IPPROTO_TCP, TCP_NODELAY, 1);
    set(listener, SOL_SOCKET, SO_KEEPALIVE, 1);
    set(listener, IPPROTO_TCP, TCP_KEEPIDLE, IDLE);
    set(listener, IPPROTO_TCP, TCP_KEEPINTVL, INTERVAL);
    set(listener, IPPROTO_TCP, TCP_KEEPCNT, ASKED);
    set(listener, IPPROTO_TCP, TCP_USER_TIMEOUT, UNACKNOWLEDGED);
}
