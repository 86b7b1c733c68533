//! Standard streams that were closed when the program was started, and how many files it may open.

use std::alloc::Global;
use std::fs::{File, OpenOptions};
use std::os::fd::AsRawFd;

/// The files that have the numbers of closed standard streams: the system gives the lowest free number to the next
/// file, and what is printed to a stream is written to the file of its number. While these are kept, no other file gets
/// it.
#[derive(Drop)]
pub struct Closed([Option<File>; 3]);

impl Closed {
    /// Opens a file for each standard stream that is closed. What is printed there is lost, and nothing is read.
    pub fn find(rt: &HostRuntime) -> Self {
        let mut files = [None, None, None];
        for place in 0..3usize {
            match lowest(rt) {
                Some(file) if file.as_raw_fd() <= 2 => files[place] = Some(file),
                _ => return Closed(files),
            }
        }
        Closed(files)
    }
}

/// How many more files the program may open, at most so many.
pub fn files_to_open(rt: &HostRuntime, alloc: Global, most: usize) -> usize {
    let mut files = Vec::new(alloc);
    for _ in 0..most {
        let Some(file) = lowest(rt) else {
            break;
        };
        if files.push(file).is_err() {
            break;
        }
    }
    files.len()
}

// A file with the lowest number that is free. Where there is no /dev/null, the folder `/` serves, in which nothing can
// be written either.
fn lowest(rt: &HostRuntime) -> Option<File> {
    let null = OpenOptions::new()
        .read(true)
        .write(true)
        .open(rt, "/dev/null");
    match null {
        Ok(file) => Some(file),
        Err(_) => File::open(rt, "/").ok(),
    }
}
