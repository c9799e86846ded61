//! Why nothing is served, as one line of the log.

use crate::log_file::LogFile;
use std::alloc::Global;
use std::fs::{self, File};
use std::net::Net;
use std::os::unix::fs::MetadataExt;
use std::rt::{Clock, Files};

/// Returns whether two paths name one file.
fn are_one_file(rt: &impl Files<File = File>, one: &str, other: &str) -> bool {
    match (fs::metadata(rt, one), fs::metadata(rt, other)) {
        (Ok(one), Ok(other)) => one.dev() == other.dev() && one.ino() == other.ino(),
        _ => false,
    }
}

/// Returns whether a path names one of these files.
fn names_one_of(rt: &impl Files<File = File>, path: &str, units: &[String]) -> bool {
    for unit in units {
        if are_one_file(rt, path, unit.as_str()) {
            return true;
        }
    }
    false
}

/// Appends a line to the log at this path, or writes it to standard error for `-`. Writes nothing if the path names one
/// of the files of units, which may not be locked now. A line that cannot be written is lost.
pub fn tell_start_fault(
    rt: &(impl Files<File = File> + Net + Clock),
    alloc: Global,
    path: &str,
    units: &[String],
    text: &str,
) {
    if names_one_of(rt, path, units) {
        return;
    }
    let Ok(path) = String::from_str(alloc, path) else {
        return;
    };
    if let Ok(mut file) = LogFile::open(rt, rt, alloc, path) {
        let second = file.seconds();
        let _ = file.put_timed(alloc, second, text);
    }
}
