//! Why nothing is served, for the log. The program's own line names neither the rule nor the system's error.

use iscsi_ports::BindFault;
use session_log::tell_start_fault;
use std::alloc::{AllocError, Global};
use std::fs::File;
use std::io;
use std::net::Net;
use std::rt::{Clock, Files};
use target_config::{Configuration, MediumConfiguration, TargetConfiguration};
use target_units::{DeviceCause, OpenFault};

/// Where causes are reported.
#[derive(Drop)]
pub struct Causes {
    /// The path of the log; `None` if none is written.
    log: Option<String>,
    /// The paths of the files of units.
    files: Vec<String>,
}

/// Appends the paths of the files of a target's units.
fn put_files(
    alloc: Global,
    files: &mut Vec<String>,
    target: &TargetConfiguration,
) -> Result<(), AllocError> {
    for unit in &target.units {
        match &unit.medium {
            MediumConfiguration::FileDisk(path) | MediumConfiguration::FileTape { path, .. } => {
                files.push(String::from_str(alloc, path.as_str())?)?;
            }
            MediumConfiguration::MemoryDisk(_) | MediumConfiguration::MemoryTape { .. } => {}
        }
    }
    Ok(())
}

/// Appends an error of the system in words, with its number.
fn put_error(line: &mut String, code: Option<i32>) -> Result<(), AllocError> {
    match code {
        Some(code) => {
            let error = io::Error::from_raw_os_error(code);
            write!(line, "{error}")
        }
        None => line.push_str("the system refuses it"),
    }
}

/// Appends what is wrong with the file of a unit.
fn put_cause(line: &mut String, cause: DeviceCause) -> Result<(), AllocError> {
    match cause {
        DeviceCause::Unopened { code } => put_error(line, code),
        DeviceCause::Locked => line.push_str("another process or unit has its file open"),
        DeviceCause::Unread => line.push_str("its file cannot be read"),
        DeviceCause::Length => {
            line.push_str("the length of its file is no positive multiple of 512 bytes")
        }
        DeviceCause::Torn { at } => write!(line, "its last item, at byte {at}, is torn"),
        DeviceCause::TooLong => line.push_str("its file is longer than its capacity"),
    }
}

/// Returns the log's line about a unit that is not opened.
fn device_line(
    alloc: Global,
    target: &str,
    lun: u8,
    cause: DeviceCause,
) -> Result<String, AllocError> {
    let mut line = String::new(alloc);
    write!(line, "device fault at {target} unit {lun}: ")?;
    put_cause(&mut line, cause)?;
    Ok(line)
}

/// Returns the log's line about an address that is not listened on.
fn socket_line(alloc: Global, address: &str, code: Option<i32>) -> Result<String, AllocError> {
    let mut line = String::new(alloc);
    write!(line, "socket fault at {address}: ")?;
    match code {
        Some(_) => put_error(&mut line, code)?,
        None => line.push_str("it is no address with a port")?,
    }
    Ok(line)
}

/// Returns the paths of the files of all units.
fn files_of(alloc: Global, configuration: &Configuration) -> Result<Vec<String>, AllocError> {
    let mut files = Vec::new(alloc);
    for target in &configuration.targets {
        put_files(alloc, &mut files, target)?;
    }
    Ok(files)
}

/// Returns a copy of the path of the log. It is `None` if the configuration names no log, or if an allocation fails.
fn log_of(alloc: Global, configuration: &Configuration) -> Option<String> {
    match &configuration.log {
        Some(path) => String::from_str(alloc, path.as_str()).ok(),
        None => None,
    }
}

impl Causes {
    /// Returns where the causes of this configuration are reported: nowhere if an allocation fails.
    pub fn of(alloc: Global, configuration: &Configuration) -> Causes {
        match files_of(alloc, configuration) {
            Ok(files) => Causes {
                log: log_of(alloc, configuration),
                files,
            },
            Err(_) => Causes {
                log: None,
                files: Vec::new(alloc),
            },
        }
    }

    /// Writes a line to the log, if there is a log and the line could be allocated.
    fn tell(
        &self,
        rt: &(impl Files<File = File> + Net + Clock),
        alloc: Global,
        line: Result<String, AllocError>,
    ) {
        if let (Some(path), Ok(line)) = (&self.log, line) {
            tell_start_fault(
                rt,
                alloc,
                path.as_str(),
                self.files.as_slice(),
                line.as_str(),
            );
        }
    }

    /// Writes to the log why units are not opened, unless an allocation failed.
    pub fn tell_unopened(
        &self,
        rt: &(impl Files<File = File> + Net + Clock),
        alloc: Global,
        fault: &OpenFault,
    ) {
        if let OpenFault::Device { target, lun, cause } = fault {
            let line = device_line(alloc, target.as_str(), *lun, *cause);
            self.tell(rt, alloc, line);
        }
    }

    /// Writes to the log why an address is not listened on, unless an allocation failed.
    pub fn tell_unbound(
        &self,
        rt: &(impl Files<File = File> + Net + Clock),
        alloc: Global,
        address: &str,
        fault: BindFault,
    ) {
        if let BindFault::Socket { code } = fault {
            let line = socket_line(alloc, address, code);
            self.tell(rt, alloc, line);
        }
    }
}
