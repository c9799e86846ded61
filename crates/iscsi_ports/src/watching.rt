//! Sockets that the system watches, so that a poll names them.

ghost use Rattle.std.specs.Prelude.{◌≡◌, ◌≤◌, true, None, IfSome};
ghost use Rattle.mio.specs.Interest.{is_readable, is_writable, is_priority};

use crate::options::set_options;
use mio::net::{TcpListener, TcpStream};
use mio::{Interest, Poll, Registry, Token};
use std::io;
use std::net::{Net, SocketAddr};
use target_limits::CONNECTIONS;

/// The listener's token. A connection's token is its number.
pub(crate) const LISTENER: usize = CONNECTIONS;

/// Makes a listening socket whose connections a poll names.
pub(crate) fn watched(net: &impl Net, poll: &Poll, address: SocketAddr) -> io::Result<TcpListener> {
    let mut listener = TcpListener::bind(net, address)?;
    set_options(&listener);
    poll.registry()
        .register(&mut listener, Token(LISTENER), Interest::READABLE)?;
    Ok(listener)
}

/// Returns what of a connection is watched: that it can be read, that it can be written again, and urgent data.
fn all_of_it() -> Interest
    ensures readable { is_readable result ≡ true }
    ensures writable { is_writable result ≡ true }
    ensures priority { is_priority result ≡ true }
{
    Interest::READABLE | Interest::WRITABLE | Interest::PRIORITY
}

/// Lets the system watch a connection by its number, so that a poll names it. One without a number is closed at
/// once, and not watched.
pub(crate) fn watch(registry: &Registry, stream: &mut TcpStream, c: usize) -> Option<usize>
    ensures by_its_number { IfSome result (λ token. token ≡ c) }
    ensures without { 64 ≤ c → result ≡ None }
{
    if c >= CONNECTIONS {
        return None;
    }
    let token = Token(c);
    match registry.register(stream, token, all_of_it()) {
        Ok(()) => Some(token.0),
        Err(_) => None,
    }
}
