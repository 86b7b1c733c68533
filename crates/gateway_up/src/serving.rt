//! Serving a spool at a port of this machine, with an end.
ghost use Rattle.std.specs.Prelude.{◌≡◌, [], ◌∷◌, IfErr, IfOk, true, false};
ghost use Rattle.std.specs.Net.Addr.{ipv4_octets};
ghost use Rattle.std.specs.Net.Socket.{v4_ip, v4_port};
ghost use Rattle.gateway_outside.specs.Failures.{fault_in};
ghost use Rattle.gateway_outside.specs.declared.faults.Fault.{Fault};
ghost use Rattle.gateway_up.specs.Addresses.{IsLocal};
ghost use Rattle.gateway_up.specs.Listeners.{Listens};
ghost use Rattle.gateway_up.specs.Serving.{IsUnheard, Serves, ServesAt, ServesDisk, ServesLocal, Unheard};
ghost use Rattle.gateway_up.specs.Sessions.{Session};

use crate::listeners::{Bound, Listeners};
use crate::reports::report_served;
use crate::stops::{Stopped, stopped_in};
use gateway_engine::{Connections, Gateway};
use gateway_orders::Service;
use gateway_outside::{Failure, Fault, Output, SpoolFiles, Task, open_in};
use gateway_serve::{Acceptor, Listening, Outcome, Timer, serve_on};
use spool_disk::{Disk, DiskFault};
use spool_image::Spool;
use std::alloc::Global;
use std::io::{self, Read, Write};
use std::net::{Ipv4Addr, OpenStream, SocketAddr, SocketAddrV4};

// Where, how many connections, and how many turns: so long serving goes on.
#[derive(Clone, Copy, Drop)]
struct Term {
    address: SocketAddr,
    connections: u64,
    turns: u64,
}

/// Serves the spool in the file at a path, at a port of 127.0.0.1, which is printed. At the end the number of
/// connections is printed to `errors`; if that refuses, the number is lost.
pub fn serve_in<'a, T: Timer, F: SpoolFiles, L: Listeners, W: Output, E: Output>(
    alloc: Global,
    clock: &mut T,
    files: &mut F,
    listeners: &mut L,
    output: &mut W,
    errors: &mut E,
    service: Service<'a>,
) -> Result<(), Failure<'a>>
    // Where the file can be opened and its spool opens, a listener was asked for at this port of 127.0.0.1, and clients
    // were served with what `gateway_serve::serve_on` promises. Where the one call that was to open the file failed,
    // nothing else was asked. The other files stay.
    ensures serves { ServesLocal F.File.Disk ⟦<Gateway<Spool<F::File>> as Connections>⟧ L.Stream.remaining
        L.Stream.contents (L.asked listeners.old) (L.asked listeners.new) (T.shown clock.old) (T.shown clock.new)
        (W.refusals output.old) (W.refusals output.new) service.entry.port service.entry.connections
        service.entry.turns
        ((clock.new ≡ clock.old) × (listeners.new ≡ listeners.old) × (output.new ≡ output.old)
        × (errors.new ≡ errors.old)) (F.holds files.old) (F.holds files.new) (F.unopened files.old)
        (F.unopened files.new) service.entry.spool.now result }
{
    let term = Term {
        address: local(service.port),
        connections: service.connections,
        turns: service.turns,
    };
    serve_term(
        alloc,
        clock,
        files,
        listeners,
        output,
        errors,
        service.spool,
        term,
    )
}

// Serves the spool in the file at a path so long.
fn serve_term<'a, T: Timer, F: SpoolFiles, L: Listeners, W: Output, E: Output>(
    alloc: Global,
    clock: &mut T,
    files: &mut F,
    listeners: &mut L,
    output: &mut W,
    errors: &mut E,
    spool: &'a str,
    term: Term,
) -> Result<(), Failure<'a>>
    ensures { ServesAt F.File.Disk ⟦<Gateway<Spool<F::File>> as Connections>⟧ L.Stream.remaining L.Stream.contents
        (L.asked listeners.old) (L.asked listeners.new) (T.shown clock.old) (T.shown clock.new) (W.refusals output.old)
        (W.refusals output.new) term.address term.connections term.turns
        ((clock.new ≡ clock.old) × (listeners.new ≡ listeners.old) × (output.new ≡ output.old)
        × (errors.new ≡ errors.old)) (F.holds files.old) (F.holds files.new) (F.unopened files.old)
        (F.unopened files.new) spool.now result }
{
    let disk = match open_in(files, spool) {
        Ok(disk) => disk,
        Err(failure) => return Err(failure),
    };
    match serve_disk(alloc, clock, listeners, output, errors, disk, term) {
        Ok(disk) => {
            files.close(spool, disk);
            Ok(())
        }
        Err((disk, stopped)) => Err(stopped_in(files, stopped, spool, disk)),
    }
}

// Serves the spool on a disk, which is handed back.
fn serve_disk<'a, T: Timer, D: Disk, L: Listeners, W: Output, E: Output>(
    alloc: Global,
    clock: &mut T,
    listeners: &mut L,
    output: &mut W,
    errors: &mut E,
    disk: D,
    term: Term,
) -> Result<D, (D, Stopped<'a>)>
    ensures { ServesDisk D.Disk ⟦<Gateway<Spool<D>> as Connections>⟧ L.Stream.remaining L.Stream.contents
        (L.asked listeners.old) (L.asked listeners.new) (T.shown clock.old) (T.shown clock.new) (W.refusals output.old)
        (W.refusals output.new) term.address term.connections term.turns
        ((clock.new ≡ clock.old) × (listeners.new ≡ listeners.old) × (output.new ≡ output.old)
        × (errors.new ≡ errors.old)) disk result }
{
    match Gateway::open(alloc, disk) {
        Ok(gateway) => serve_gateway(alloc, clock, listeners, output, errors, gateway, term),
        Err((disk, fault)) => Err((disk, Stopped::Spool(Fault::from(fault)))),
    }
}

// Serves a gateway over a spool. Its disk is handed back.
fn serve_gateway<'a, T: Timer, D: Disk, L: Listeners, W: Output, E: Output>(
    alloc: Global,
    clock: &mut T,
    listeners: &mut L,
    output: &mut W,
    errors: &mut E,
    gateway: Gateway<Spool<D>>,
    term: Term,
) -> Result<D, (D, Stopped<'a>)>
    ensures { Serves D.Disk ⟦<Gateway<Spool<D>> as Connections>⟧ L.Stream.remaining L.Stream.contents
        (L.asked listeners.old) (L.asked listeners.new) (T.shown clock.old) (T.shown clock.new) (W.refusals output.old)
        (W.refusals output.new) term.address term.connections term.turns gateway result }
{
    let bound = match listen(listeners, output, term.address) {
        Ok(bound) => bound,
        Err(failure) => return Err((gateway.into_disk(), Stopped::Outside(failure))),
    };
    let mut acceptor = Listening::new(&bound.listener);
    let Ran {
        gateway,
        opened,
        served,
    } = serve_all(
        alloc,
        clock,
        &mut acceptor,
        gateway,
        term.connections,
        term.turns,
    );
    // If `errors` refuses, the number isn't reported.
    drop(report_served(errors, opened));
    let disk = gateway.into_disk();
    match served {
        Ok(()) => Ok(disk),
        Err(fault) => Err((disk, Stopped::Spool(Fault::from(fault)))),
    }
}

/// What serving connections came to.
pub(crate) struct Ran<C> {
    /// The connections, which are handed back.
    pub gateway: C,
    /// How many clients got one.
    pub opened: u64,
    /// How it ended.
    pub served: Result<(), DiskFault>,
}

/// Serves clients of a listener that was asked nothing so far, for so many connections and turns at most.
pub(crate) fn serve_all<A: Acceptor, C: Connections, T: Timer>(
    alloc: Global,
    clock: &mut T,
    acceptor: &mut A,
    gateway: C,
    connections: u64,
    turns: u64,
) -> Ran<C>
where
    A::Stream: Read + Write + OpenStream + Drop,
    requires { A.answers acceptor.old ≡ [] }
    ensures { Session C.Connections A.Stream.remaining A.Stream.contents gateway result.gateway result.served
        (T.shown clock.old) (T.shown clock.new) turns connections }
{
    let Outcome {
        gateway,
        clients,
        door: _,
        times: _,
        ended: _,
        drained: _,
        served,
    } = serve_on(clock, alloc, acceptor, gateway, connections, turns);
    Ran {
        gateway,
        opened: clients.opened,
        served,
    }
}

// Listens at an address, and prints where.
fn listen<'a, L: Listeners, W: Output>(
    listeners: &mut L,
    output: &mut W,
    address: SocketAddr,
) -> Result<Bound<L::Listener>, Failure<'a>>
    ensures heard { IfOk result (λ bound. Listens (L.asked listeners.old) (L.asked listeners.new) address true) }
    ensures failed { IfErr result (Unheard (L.asked listeners.old) (L.asked listeners.new) address
        (W.refusals output.old) (W.refusals output.new)) }
{
    let bound = match listen_at(listeners, address) {
        Ok(bound) => bound,
        Err(failure) => return Err(failure),
    };
    match writeln!(output, "listening {}", bound.address) {
        Ok(()) => Ok(bound),
        Err(_refused) => Err(unprinted(output.error())),
    }
}

/// A listener at this address.
pub(crate) fn listen_at<'a, L: Listeners>(
    listeners: &mut L,
    address: SocketAddr,
) -> Result<Bound<L::Listener>, Failure<'a>>
    ensures heard { IfOk result (λ bound. Listens (L.asked listeners.old) (L.asked listeners.new) address true) }
    ensures unheard { IfErr result (λ failure. Listens (L.asked listeners.old) (L.asked listeners.new) address false
        × IsUnheard (fault_in failure)) }
{
    match listeners.listen(address) {
        Ok(bound) => Ok(bound),
        Err(error) => Err(Failure::new(Fault::from(error), Task::Listen(address), error)),
    }
}

/// What is to be said where the program listens wasn't printed, for this reason.
pub(crate) fn unprinted<'a>(error: Option<io::Error>) -> Failure<'a>
    ensures { fault_in result ≡ Fault.Io }
{
    Failure::on_streams(Fault::Io, None, error)
}

// A port of 127.0.0.1, and never another address.
fn local(port: u16) -> SocketAddr
    ensures { IsLocal result port }
{
    SocketAddr::V4(address_of(port))
}

fn address_of(port: u16) -> SocketAddrV4
    ensures address { ipv4_octets (v4_ip result) ≡ 127 ∷ 0 ∷ 0 ∷ 1 ∷ [] }
    ensures port { v4_port result ≡ port }
{
    SocketAddrV4::new(Ipv4Addr::LOCALHOST, port)
}
