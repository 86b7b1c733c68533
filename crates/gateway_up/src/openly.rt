//! Serving a spool at an address until the program is ended.
ghost use Rattle.std.specs.Prelude.{◌≡◌, IfErr, IfOk, true};
ghost use Rattle.gateway_up.specs.Listeners.{Listens};
ghost use Rattle.gateway_up.specs.Serving.{Serves, ServesAt, ServesDisk, Unheard};
ghost use Rattle.gateway_up.specs.Sessions.{Session};

use crate::guarded::{Guarded, Sentry};
use crate::listeners::{Bound, Listeners};
use crate::logged::Logged;
use crate::reports::{MOST_SOCKETS, report_few, report_few_sockets, report_open, report_up};
use crate::serving::{Ran, listen_at, serve_all, unprinted};
use crate::stops::{Stopped, stopped_in};
use crate::watched::Watched;
use gateway_engine::{Connections, Gateway};
use gateway_indexes::{Survey, survey_of};
use gateway_log::Log;
use gateway_outside::{Failure, Fault, Output, SpoolFiles, open_in};
use gateway_serve::{Listening, Timer};
use spool_disk::Disk;
use spool_image::Spool;
use std::alloc::Global;
use std::io::{IsTerminal, Read, Write};
use std::net::{OpenListener, OpenStream, SocketAddr};
use tus_session::MOST_OPEN;

/// What a server prints while it serves.
#[derive(Clone, Copy, Drop)]
pub struct Reporting {
    /// Only errors.
    pub quiet: bool,
    /// Requests and replies, on standard error.
    pub log: bool,
}

impl Reporting {
    // Whether there is a log. At a terminal it needn't be asked for.
    fn has_log(self, rt: &HostRuntime) -> bool {
        self.log || !self.quiet && rt.stderr().is_terminal()
    }
}

/// What to serve until the program is ended.
#[derive(Clone, Copy, Drop)]
pub struct Upkeep<'a> {
    /// The path of the spool's file.
    pub spool: &'a str,
    /// The address; port 0 means any.
    pub listen: SocketAddr,
    /// What is printed.
    pub reporting: Reporting,
}

/// Serves the spool in a file until the program is ended or there is a disk fault. Prints the spool and the address,
/// unless it is quiet, and warns if other machines may reach the address, or few files may be open.
pub fn up_in<'a, T: Timer, F: SpoolFiles, L: Listeners, W: Output, E: Output>(
    rt: &HostRuntime,
    alloc: Global,
    clock: &mut T,
    files: &mut F,
    listeners: &mut L,
    output: &mut W,
    errors: &mut E,
    upkeep: Upkeep<'a>,
) -> Result<(), Failure<'a>>
    // Where the file can be opened and its spool opens, a listener was asked for at this address, and clients were
    // served with what `gateway_serve::serve_on` promises. Where the one call that was to open the file failed, nothing
    // else was asked. The other files stay.
    ensures serves { ServesAt F.File.Disk ⟦<Gateway<Spool<F::File>> as Connections>⟧ L.Stream.remaining
        L.Stream.contents (L.asked listeners.old) (L.asked listeners.new) (T.shown clock.old) (T.shown clock.new)
        (W.refusals output.old) (W.refusals output.new) upkeep.entry.listen 18446744073709551615 18446744073709551615
        ((clock.new ≡ clock.old) × (listeners.new ≡ listeners.old) × (output.new ≡ output.old)
        × (errors.new ≡ errors.old)) (F.holds files.old) (F.holds files.new) (F.unopened files.old)
        (F.unopened files.new) upkeep.entry.spool.now result }
{
    let disk = match open_in(files, upkeep.spool) {
        Ok(disk) => disk,
        Err(failure) => return Err(failure),
    };
    match up_disk(rt, alloc, clock, listeners, output, errors, disk, upkeep) {
        Ok(disk) => {
            files.close(upkeep.spool, disk);
            Ok(())
        }
        Err((disk, stopped)) => Err(stopped_in(files, stopped, upkeep.spool, disk)),
    }
}

// Serves the spool on a disk, which is handed back.
fn up_disk<'a, T: Timer, D: Disk, L: Listeners, W: Output, E: Output>(
    rt: &HostRuntime,
    alloc: Global,
    clock: &mut T,
    listeners: &mut L,
    output: &mut W,
    errors: &mut E,
    disk: D,
    upkeep: Upkeep<'a>,
) -> Result<D, (D, Stopped<'a>)>
    ensures { ServesDisk D.Disk ⟦<Gateway<Spool<D>> as Connections>⟧ L.Stream.remaining L.Stream.contents
        (L.asked listeners.old) (L.asked listeners.new) (T.shown clock.old) (T.shown clock.new) (W.refusals output.old)
        (W.refusals output.new) upkeep.entry.listen 18446744073709551615 18446744073709551615
        ((clock.new ≡ clock.old) × (listeners.new ≡ listeners.old) × (output.new ≡ output.old)
        × (errors.new ≡ errors.old)) disk result }
{
    match Gateway::open(alloc, disk) {
        Ok(gateway) => up_gateway(rt, alloc, clock, listeners, output, errors, gateway, upkeep),
        Err((disk, fault)) => Err((disk, Stopped::Spool(Fault::from(fault)))),
    }
}

// Serves a gateway over a spool. Its disk is handed back.
fn up_gateway<'a, T: Timer, D: Disk, L: Listeners, W: Output, E: Output>(
    rt: &HostRuntime,
    alloc: Global,
    clock: &mut T,
    listeners: &mut L,
    output: &mut W,
    errors: &mut E,
    gateway: Gateway<Spool<D>>,
    upkeep: Upkeep<'a>,
) -> Result<D, (D, Stopped<'a>)>
    ensures { Serves D.Disk ⟦<Gateway<Spool<D>> as Connections>⟧ L.Stream.remaining L.Stream.contents
        (L.asked listeners.old) (L.asked listeners.new) (T.shown clock.old) (T.shown clock.new) (W.refusals output.old)
        (W.refusals output.new) upkeep.entry.listen 18446744073709551615 18446744073709551615 gateway result }
{
    let survey = survey_of(gateway.uploads());
    let bound = match listen_openly(alloc, listeners, output, errors, upkeep, &survey) {
        Ok(bound) => bound,
        Err(failure) => return Err((gateway.into_disk(), Stopped::Outside(failure))),
    };
    warn_of_few(alloc, listeners, errors);
    let Ran {
        gateway,
        opened: _,
        served,
    } = serve_openly(
        rt,
        alloc,
        clock,
        &bound.listener,
        gateway,
        upkeep,
        survey.blocks,
    );
    let disk = gateway.into_disk();
    match served {
        Ok(()) => Ok(disk),
        Err(fault) => Err((disk, Stopped::Spool(Fault::from(fault)))),
    }
}

// Serves clients of a listener, with a log or without. The spool has so many text blocks.
fn serve_openly<T: Timer, D: Disk, L: OpenListener>(
    rt: &HostRuntime,
    alloc: Global,
    clock: &mut T,
    listener: &L,
    gateway: Gateway<Spool<D>>,
    upkeep: Upkeep<'_>,
    blocks: u64,
) -> Ran<Gateway<Spool<D>>>
where
    L::Stream: Read + Write + OpenStream + Drop,
    ensures { Session ⟦<Gateway<Spool<D>> as Connections>⟧ L.Stream.remaining L.Stream.contents gateway result.gateway
        result.served (T.shown clock.old) (T.shown clock.new) 18446744073709551615 18446744073709551615 }
{
    let sentry = Sentry::new(rt, upkeep.spool);
    if upkeep.reporting.has_log(rt) {
        return serve_logged(rt, alloc, clock, listener, sentry, gateway, blocks);
    }
    serve_quietly(alloc, clock, listener, sentry, gateway)
}

// Serves without a log.
fn serve_quietly<T: Timer, D: Disk, L: OpenListener>(
    alloc: Global,
    clock: &mut T,
    listener: &L,
    sentry: Sentry<'_>,
    gateway: Gateway<Spool<D>>,
) -> Ran<Gateway<Spool<D>>>
where
    L::Stream: Read + Write + OpenStream + Drop,
    ensures { Session ⟦<Gateway<Spool<D>> as Connections>⟧ L.Stream.remaining L.Stream.contents gateway result.gateway
        result.served (T.shown clock.old) (T.shown clock.new) 18446744073709551615 18446744073709551615 }
{
    let mut guarded = Guarded::new(Listening::new(listener), sentry);
    serve_all(alloc, clock, &mut guarded, gateway, u64::MAX, u64::MAX)
}

// Serves with a log on standard error. The spool has so many text blocks.
fn serve_logged<T: Timer, D: Disk, L: OpenListener>(
    rt: &HostRuntime,
    alloc: Global,
    clock: &mut T,
    listener: &L,
    sentry: Sentry<'_>,
    gateway: Gateway<Spool<D>>,
    blocks: u64,
) -> Ran<Gateway<Spool<D>>>
where
    L::Stream: Read + Write + OpenStream + Drop,
    ensures { Session ⟦<Gateway<Spool<D>> as Connections>⟧ L.Stream.remaining L.Stream.contents gateway result.gateway
        result.served (T.shown clock.old) (T.shown clock.new) 18446744073709551615 18446744073709551615 }
{
    let log = Log::new(rt, alloc, rt.stderr());
    let watched = Watched::new(gateway, blocks, &log);
    let logged = Logged::new(Listening::new(listener), &log);
    let mut guarded = Guarded::new(logged, sentry);
    let Ran {
        gateway: watched,
        opened,
        served,
    } = serve_all(alloc, clock, &mut guarded, watched, u64::MAX, u64::MAX);
    log.end();
    Ran {
        gateway: watched.into_gateway(),
        opened,
        served,
    }
}

// Warns if fewer files may be opened than there may be connections, or sockets.
fn warn_of_few<L: Listeners, E: Output>(alloc: Global, listeners: &L, errors: &mut E) {
    let files = listeners.room(alloc, MOST_SOCKETS);
    // If `errors` refuses, the warning is lost.
    if files < MOST_OPEN {
        drop(report_few(errors, files));
    } else if files < MOST_SOCKETS {
        drop(report_few_sockets(errors, files));
    }
}

// Listens at an address. Prints the spool and where, unless it is quiet, and warns if others may reach it.
fn listen_openly<'a, L: Listeners, W: Output, E: Output>(
    alloc: Global,
    listeners: &mut L,
    output: &mut W,
    errors: &mut E,
    upkeep: Upkeep<'a>,
    survey: &Survey,
) -> Result<Bound<L::Listener>, Failure<'a>>
    ensures heard { IfOk result (λ bound. Listens (L.asked listeners.old) (L.asked listeners.new) upkeep.entry.listen
        true) }
    ensures failed { IfErr result (Unheard (L.asked listeners.old) (L.asked listeners.new) upkeep.entry.listen
        (W.refusals output.old) (W.refusals output.new)) }
{
    let bound = match listen_at(listeners, upkeep.listen) {
        Ok(bound) => bound,
        Err(failure) => return Err(failure),
    };
    let place = bound.address.to_string(alloc)?;
    if !bound.address.ip().to_canonical().is_loopback() {
        // If `errors` refuses, the warning is lost.
        drop(report_open(errors, place.as_str()));
    }
    if upkeep.reporting.quiet {
        return Ok(bound);
    }
    match report_up(output, upkeep.spool, survey, place.as_str()) {
        Ok(()) => Ok(bound),
        Err(_refused) => Err(unprinted(output.error())),
    }
}
