//! Measures the throughput of the transcoder. A file is transcoded several times, in pieces of 4,096 bytes, as a server
//! reads it.
#![tactic(auto)]

mod command_line;
mod faults;
mod rounds;

use clap::Error;
use clap::error::ErrorKind;
use command_line::{Task, read_task};
use enc_index::{Index, IndexSet};
use faults::Fault;
use rounds::{Round, best_round};
use std::alloc::Global;
use std::process::ExitCode;
use std::{env, fs};

fn main(rt: HostRuntime) -> ExitCode {
    match run(&rt) {
        Ok(code) => code,
        Err(fault) => {
            // If standard error fails too, only the exit status reports the fault.
            let reported = eprintln!(rt; "bench: {fault}");
            drop(reported);
            ExitCode::FAILURE
        }
    }
}

// Runs the command line.
fn run(rt: &HostRuntime) -> Result<ExitCode, Fault> {
    let alloc = rt.alloc();
    let mut words = Vec::new(alloc);
    for word in env::args(rt)? {
        words.push(word)?;
    }
    match read_task(alloc, &words) {
        Ok(Some(task)) => measure(rt, alloc, &task),
        Ok(None) => Err(Fault::Label),
        Err(error) => reported(rt, error),
    }
}

// Transcodes the task's file. The size and the sum of the text go to standard output, and the time to standard error.
fn measure(rt: &HostRuntime, alloc: Global, task: &Task) -> Result<ExitCode, Fault> {
    let indexes = read_indexes(rt, alloc, task)?;
    let bytes = fs::read(rt, task.file)?;
    let round = Round::new(task.from, task.to, &indexes);
    let best = best_round(rt, alloc, &round, &bytes, task.rounds)?;
    println!(rt;
        "{} bytes, {} written, sum {}",
        bytes.len(),
        best.written,
        best.sum
    )?;
    eprintln!(rt;
        "{} ns, {} MB/s",
        best.nanos,
        bytes.len() as u128 * 1000 / best.nanos.max(1)
    )?;
    Ok(ExitCode::SUCCESS)
}

// The index files that the command line names.
fn read_indexes(rt: &HostRuntime, alloc: Global, task: &Task) -> Result<IndexSet, Fault> {
    let mut set = IndexSet::new(alloc)?;
    for (kind, path) in task.indexes() {
        if let Some(path) = path {
            set.set(Index::read(alloc, &fs::read(rt, path)?, kind)?);
        }
    }
    Ok(set)
}

// Prints help, or the error in the command line.
fn reported(rt: &HostRuntime, error: Error) -> Result<ExitCode, Fault> {
    if error.kind() == ErrorKind::OutOfMemory {
        return Err(Fault::NoMemory);
    }
    error.print(rt)?;
    Ok(if error.use_stderr() {
        ExitCode::FAILURE
    } else {
        ExitCode::SUCCESS
    })
}
