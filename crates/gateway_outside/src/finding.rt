//! Folders that are there.

use crate::advice::Task;
use crate::failures::Failure;
use crate::faults::Fault;
use std::fs;
use std::io::{self, ErrorKind};

/// The folder at this path is there. This is what it is looked for.
pub fn find_folder<'a>(rt: &HostRuntime, path: &str, task: Task<'a>) -> Result<(), Failure<'a>> {
    match look_into(rt, path) {
        Ok(()) => Ok(()),
        Err(error) => Err(Failure::new(Fault::from(error), task, error)),
    }
}

/// Looks for the folder at this path. Refused as the system refuses it, and with `NotADirectory` where a file is there.
pub fn look_into(rt: &HostRuntime, path: &str) -> io::Result<()> {
    if fs::metadata(rt, path)?.is_dir() {
        Ok(())
    } else {
        Err(io::Error::from(ErrorKind::NotADirectory))
    }
}
