//! The program: a gateway for resumable uploads of text in old and new encodings.
#![tactic(auto)]

ghost use Rattle.std.specs.Prelude.{◌≡◌};
ghost use Rattle.gateway.specs.Obeys.{Obeys};

use clap::Error;
use clap::error::ErrorKind;
use common::Stop;
use gateway_delete::{delete_in, incomplete_in};
use gateway_engine::{Connections, CountedRead, CountedWrite, Gateway};
use gateway_export::{Places, SystemPlaces, export_in};
use gateway_format::{NewSpool, format_at, raise_in, upgrade_in};
use gateway_indexes::{IndexFolders, SystemFolders};
use gateway_labels::{WantedLabels, labels_in};
use gateway_list::{json_in, list_in};
use gateway_orders::{Order, USAGE, read_order, report_usage};
use gateway_outside::{
    Closed, Failure, Fault, Input, Noted, Output, SpoolFiles, SystemFiles, Task, ended,
};
use gateway_run::script_in;
use gateway_serve::{Showing, Timer};
use gateway_text::{WantedText, text_in};
use gateway_up::{Listeners, Reporting, SystemListeners, Upkeep, serve_in, up_in};
use spool_disk::{Disk, MemoryDisk};
use spool_image::Spool;
use std::alloc::Global;
use std::process::ExitCode;
use std::{env, io};

fn main(rt: HostRuntime) -> ExitCode {
    // First of all, and to the end: so no file of the program gets the number of a standard stream.
    let closed = Closed::find(&rt);
    let status = match words(&rt, rt.alloc()) {
        Ok(words) => run(&rt, &words),
        Err(error) => ended(&mut rt.stderr(), no_words(&rt, error)),
    };
    drop(closed);
    ExitCode::from(status)
}

// Does what the command line asks for, and returns the exit status.
fn run(rt: &HostRuntime, words: &[String]) -> u8 {
    match read_order(rt.alloc(), words) {
        Ok(Some(order)) => ended(&mut rt.stderr(), obey_system(rt, order)),
        Ok(None) => USAGE,
        Err(error) => ended(&mut rt.stderr(), refuse(rt, error)),
    }
}

// Does an order, over the system's files and streams: 0.
fn obey_system<'a>(rt: &'a HostRuntime, order: Order<'a>) -> Result<u8, Failure<'a>> {
    let mut files = SystemFiles::new(rt);
    let mut folders = SystemFolders::new(rt);
    let mut places = SystemPlaces::new(rt);
    let mut listeners = SystemListeners::new(rt);
    let mut clock = Showing::new(rt);
    let mut input = Noted::new(rt.reader());
    let mut output = Noted::new(io::writer(rt));
    let mut errors = Noted::new(rt.stderr());
    match obey(
        rt,
        &mut files,
        &mut folders,
        &mut places,
        &mut listeners,
        &mut clock,
        &mut input,
        &mut output,
        &mut errors,
        order,
    ) {
        Ok(()) => Ok(0),
        Err(failure) => Err(failure),
    }
}

// Does an order, over these files, sockets and streams. By the runtime only a log and a sentry ask for the time.
fn obey<'a, F, R, P, L, T, I, W, E>(
    rt: &'a HostRuntime,
    files: &mut F,
    folders: &mut R,
    places: &mut P,
    listeners: &mut L,
    clock: &mut T,
    input: &mut I,
    output: &mut W,
    errors: &mut E,
    order: Order<'a>,
) -> Result<(), Failure<'a>>
where
    F: SpoolFiles,
    R: IndexFolders,
    P: Places,
    L: Listeners,
    T: Timer,
    I: Input + CountedRead,
    W: Output + CountedWrite,
    E: Output,
    ensures { Obeys F.File.Disk P.Folder.Folder ⟦<MemoryDisk as Disk>⟧ ⟦<Gateway<Spool<F::File>> as Connections>⟧
        L.Stream.remaining L.Stream.contents (F.holds files.old) (F.holds files.new) (F.unopened files.old)
        (F.unopened files.new) (R.have folders.old) (R.calls folders.old) (R.calls folders.new) (P.holds places.old)
        (P.holds places.new) (P.searches places.old) (P.searches places.new) (L.asked listeners.old)
        (L.asked listeners.new) (T.shown clock.old) (T.shown clock.new) (I.Input.remaining input.old)
        (I.Input.remaining input.new) (I.Input.refusals input.old) (I.Input.refusals input.new)
        (W.Output.contents output.old) (W.Output.contents output.new) (W.Output.refusals output.old)
        (W.Output.refusals output.new) (I.CountedRead.remaining input.old) (I.CountedRead.refusals input.old)
        (I.CountedRead.refusals input.new) (W.CountedWrite.contents output.old) (W.CountedWrite.contents output.new)
        (W.CountedWrite.refusals output.old) (W.CountedWrite.refusals output.new) (files.new ≡ files.old)
        ((files.new ≡ files.old) × (output.new ≡ output.old)) ((input.new ≡ input.old) × (output.new ≡ output.old))
        ((clock.new ≡ clock.old) × (listeners.new ≡ listeners.old) × (output.new ≡ output.old)
        × (errors.new ≡ errors.old)) result order.entry }
{
    let alloc = rt.alloc();
    match order {
        Order::Format {
            spool,
            blocks,
            indexes,
            overwrite,
            standard,
            first,
        } => {
            let wanted = NewSpool {
                blocks,
                indexes,
                overwrite,
                standard,
                first,
            };
            format_at(alloc, files, folders, output, errors, spool, wanted)
        }
        Order::Script { spool } => script_in(alloc, files, input, output, spool),
        Order::Serve(service) => serve_in(alloc, clock, files, listeners, output, errors, service),
        Order::Up {
            spool,
            listen,
            quiet,
            log,
        } => {
            let upkeep = Upkeep {
                spool,
                listen,
                reporting: Reporting { quiet, log },
            };
            up_in(rt, alloc, clock, files, listeners, output, errors, upkeep)
        }
        Order::List { spool, long } => list_in(alloc, files, output, errors, spool, long),
        Order::Json { spool } => json_in(alloc, files, output, spool),
        Order::Delete { spool, numbers } => delete_in(alloc, files, output, spool, &numbers),
        Order::DeleteIncomplete { spool, but, yes } => {
            incomplete_in(alloc, files, output, errors, spool, &but, yes)
        }
        Order::Export { spool, folder, all } => {
            export_in(alloc, files, places, output, spool, folder, all)
        }
        Order::Labels { indexes, all, json } => {
            let wanted = WantedLabels { all, json };
            labels_in(alloc, folders, input, output, errors, wanted, indexes)
        }
        Order::Text {
            from,
            to,
            mode,
            indexes,
            strict,
        } => {
            let wanted = WantedText {
                from,
                to,
                mode,
                strict,
            };
            text_in(alloc, folders, input, output, errors, wanted, indexes)
        }
        Order::Upgrade { spool } => upgrade_in(alloc, files, output, spool),
        Order::Raise { spool, number } => raise_in(alloc, files, output, spool, number),
    }
}

// The words of the command line.
fn words(rt: &HostRuntime, alloc: Global) -> io::Result<Vec<String>> {
    let mut words = Vec::new(alloc);
    for word in env::args(rt)? {
        words.push(word)?;
    }
    Ok(words)
}

// The failure to read the command line. A word that isn't UTF-8 is a usage fault.
fn no_words<'a>(rt: &HostRuntime, error: io::Error) -> Result<u8, Failure<'a>> {
    match error.kind() {
        io::ErrorKind::InvalidData => {
            match eprintln!(rt; "error: invalid UTF-8 was detected in one or more arguments") {
                Ok(()) => Ok(USAGE),
                Err(error) => Err(unprinted(error)),
            }
        }
        io::ErrorKind::OutOfMemory => Err(Failure::from(Fault::Stop(Stop::NoMemory))),
        _ => Err(Failure::new(Fault::from(error), Task::ReadWords, error)),
    }
}

// Prints help, or the fault of the command line. Out of memory isn't a fault of the command line.
fn refuse<'a>(rt: &HostRuntime, error: Error) -> Result<u8, Failure<'a>> {
    if error.kind() == ErrorKind::OutOfMemory {
        return Err(Failure::from(Fault::Stop(Stop::NoMemory)));
    }
    match report_usage(&error, &mut io::writer(rt), &mut rt.stderr()) {
        Ok(status) => Ok(status),
        Err(error) => Err(unprinted(error)),
    }
}

// What is said of the command line wasn't printed.
fn unprinted<'a>(error: io::Error) -> Failure<'a> {
    Failure::new(Fault::from(error), Task::Print, error)
}
