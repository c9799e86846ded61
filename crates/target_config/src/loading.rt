//! Reading the configuration file by its path. What the system returned for it is recorded.

ghost use Rattle.std.specs.Prelude.{◌≡◌, ◌≢◌, IfOk, IfErr, IfSome, take};
ghost use Rattle.std.specs.IoError.{error_kind};
ghost use Rattle.target_config.specs.Loading.{Loads};

use crate::config_file::MOST_BYTES;
use crate::fault::ConfigFault;
use call_record::Record;
use std::alloc::Global;
use std::fs::File;
use std::io;
use std::io::{ErrorKind, Read};
use std::rt::Files;

/// The numbers of the notes: a path, the contents of its file, and that the file cannot be read.
const NAMED: u64 = 0;

const HELD: u64 = 1;

const UNREADABLE: u64 = 2;

/// Returns the fault for an error of the system on the configuration file.
fn unreadable(error: io::Error) -> ConfigFault
    ensures memory { error_kind error ≡ ErrorKind.OutOfMemory → result ≡ ConfigFault.OutOfMemory }
    ensures other { error_kind error ≢ ErrorKind.OutOfMemory → result ≡ ConfigFault.Unreadable }
{
    match error.kind() {
        ErrorKind::OutOfMemory => ConfigFault::OutOfMemory,
        _ => ConfigFault::Unreadable,
    }
}

/// Reads a file, up to one byte more than a configuration may have.
fn contents<F: Read + Drop>(alloc: Global, file: F) -> Result<Vec<u8>, ConfigFault>
    ensures contents { IfOk result (λ contents. IfSome (F.remaining file) (λ all. contents.items ≡ take 1048577 all)) }
    ensures fault { IfErr result (λ fault. fault ≢ ConfigFault.OutOfMemory → fault ≡ ConfigFault.Unreadable) }
{
    let mut contents = Vec::new(alloc);
    match file.take(MOST_BYTES as u64 + 1).read_to_end(&mut contents) {
        Ok(_) => Ok(contents),
        Err(error) => Err(unreadable(error)),
    }
}

/// Reads the file at a path, up to one byte more than a configuration may have.
fn read_file(rt: &(impl Files + AllocGlobal), path: &str) -> Result<Vec<u8>, ConfigFault>
    ensures { IfErr result (λ fault. fault ≢ ConfigFault.OutOfMemory → fault ≡ ConfigFault.Unreadable) }
{
    match File::open(rt, path) {
        Ok(file) => contents(rt.alloc(), file),
        Err(error) => Err(unreadable(error)),
    }
}

/// Reads the file at a path. Notes the path, and then the contents of the file, or that it cannot be read.
pub fn load(
    rt: &(impl Files + AllocGlobal),
    path: &str,
    told: &mut Record,
) -> Result<Vec<u8>, ConfigFault>
    ensures { Loads path.now told.old.calls told.new.calls result }
{
    let read = read_file(rt, path);
    match &read {
        Ok(contents) => {
            told.note(&[NAMED], path.as_bytes(), &[]);
            told.note(&[HELD], contents.as_slice(), &[]);
        }
        Err(_) => {
            told.note(&[NAMED], path.as_bytes(), &[]);
            told.note(&[UNREADABLE], &[], &[]);
        }
    }
    read
}
