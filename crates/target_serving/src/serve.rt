//! Serving: the target listens, and initiators connect to it.

ghost use Rattle.std.specs.Prelude.{◌≡◌, ◌++◌, ◌∷◌, [], IfOk, string_bytes};
ghost use Rattle.target_serving.specs.Serve.{listening_line, Serves};

use crate::fault::Fault;
use iscsi_ports::Ports;
use iscsi_serve::turns;
use iscsi_target::Target;
use media_store::Store;
use std::alloc::{AllocError, Global};
use std::io::Write;
use std::net::SocketAddr;
use target_replay::print_all;

/// Returns the line that says where the target listens.
fn announcement(alloc: Global, address: SocketAddr) -> Result<String, AllocError>
    ensures { IfOk result (λ line. string_bytes line ≡ listening_line address) }
{
    let mut line = String::new(alloc);
    writeln!(line, "listening on {address}")?;
    Ok(line)
}

/// Prints the address that the target listens on, then serves for `count` turns, or up to the first fault.
pub fn serve<P: Ports, S: Store, W: Write>(
    alloc: Global,
    address: SocketAddr,
    ports: &mut P,
    target: &mut Target<S>,
    count: u64,
    writer: &mut W,
) -> Result<(), Fault>
    ensures { Serves (listening_line address) count (P.tells ports.new) (P.log ports.old) (P.log ports.new) target.old target.new
        (W.contents writer.old) (W.contents writer.new) result }
{
    let line = announcement(alloc, address)?;
    print_all(line.as_bytes(), writer)?;
    turns(ports, target, count)?;
    Ok(())
}
