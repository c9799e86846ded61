//! Serving with a log, if the configuration names one.

ghost use Rattle.std.specs.Prelude.{◌≡◌, ◌⊎◌, IfErr, OnOk, OnErr, option_map, string_bytes};
ghost use Rattle.target_serving.specs.Logging.{HasOpenedLog, HasNoLog, OpensLog};
ghost use Rattle.target_serving.specs.Serve.{listening_line, Serves};
ghost use Rattle.target_serving.specs.declared.fault.Fault.TheVariants.{Output, OutOfMemory};

use crate::fault::Fault;
use crate::serve::serve;
use call_record::Record;
use iscsi_ports::{MioPorts, Ports};
use iscsi_target::Target;
use media_store::Store;
use session_log::{LogFile, ObservedPorts, SessionLog};
use std::fs::File;
use std::io::{self, ErrorKind, Write};
use std::net::{Net, SocketAddr};
use std::rt::{Clock, Files};

/// The numbers of the notes: a path that is opened as the log, and what came of it.
const ASKED: u64 = 0;

const ANSWERED: u64 = 1;

/// Returns the fault for an error of the system at the log's file.
fn unopened(error: &io::Error) -> Fault
    ensures { (result ≡ Output) ⊎ (result ≡ OutOfMemory) }
{
    match error.kind() {
        ErrorKind::OutOfMemory => Fault::OutOfMemory,
        _ => Fault::Output,
    }
}

/// Opens the log at this path, if there is one. Notes the path, and then whether it was opened.
fn open_log<'r, R: Files<File = File> + AllocGlobal + Net + Clock>(
    rt: &'r R,
    path: Option<String>,
    address: SocketAddr,
    logged: &mut Record,
) -> Result<Option<SessionLog<'r, R>>, Fault>
    ensures opened { OnOk result (HasOpenedLog (option_map string_bytes path) logged.old.calls logged.new.calls) }
    ensures unopened { OnErr result (HasNoLog (option_map string_bytes path) logged.old.calls logged.new.calls) }
    ensures fault { IfErr result (λ fault. (fault ≡ Output) ⊎ (fault ≡ OutOfMemory)) }
{
    let Some(path) = path else {
        return Ok(None);
    };
    logged.note(&[ASKED], path.as_bytes(), &[]);
    match LogFile::open(rt, rt, rt.alloc(), path) {
        Ok(file) => {
            logged.note(&[ANSWERED], &[], &[true]);
            Ok(Some(SessionLog::new(rt.alloc(), file, address)?))
        }
        Err(error) => {
            logged.note(&[ANSWERED], &[], &[false]);
            Err(unopened(&error))
        }
    }
}

/// Serves, and writes the log at this path, if there is one. If the log cannot be opened, nothing is served. It does
/// not change what is served.
pub fn serve_logged<S: Store, W: Write, R: Files<File = File> + AllocGlobal + Net + Clock>(
    rt: &R,
    address: SocketAddr,
    ports: MioPorts,
    log: Option<String>,
    logged: &mut Record,
    target: &mut Target<S>,
    count: u64,
    writer: &mut W,
) -> (MioPorts, Result<(), Fault>)
    ensures logged { OpensLog (option_map string_bytes log) logged.old.calls logged.new.calls (⟦<MioPorts as Ports>⟧.log ports)
        (⟦<MioPorts as Ports>⟧.log result.0) (W.contents writer.old) (W.contents writer.new) }
    ensures serves { Serves (listening_line address) count (⟦<MioPorts as Ports>⟧.tells result.0) (⟦<MioPorts as Ports>⟧.log ports)
        (⟦<MioPorts as Ports>⟧.log result.0) target.old target.new (W.contents writer.old) (W.contents writer.new) result.1 }
{
    let observer = match open_log(rt, log, address, logged) {
        Ok(observer) => observer,
        Err(fault) => return (ports, Err(fault)),
    };
    let mut observed = ObservedPorts { ports, observer };
    let ended = serve(rt.alloc(), address, &mut observed, target, count, writer);
    let ObservedPorts { ports, .. } = observed;
    (ports, ended)
}
