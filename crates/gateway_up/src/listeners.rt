//! Listeners at addresses.
ghost use Rattle.std.specs.Prelude.{◌≡◌, ◌∷◌, [], List};
ghost use Rattle.std.specs.Result.{is_ok};
ghost use Rattle.gateway_up.specs.Listeners.{listen_call};
ghost use Rattle.gateway_up.specs.declared.listeners.ListenCall.{ListenCall};

use common::Trace;
use gateway_outside::files_to_open;
use std::alloc::Global;
use std::io::{self, Read, Write};
use std::net::{OpenListener, OpenStream, SocketAddr, TcpListener, TcpStream};

/// A listener was asked for. Only clauses read it.
#[derive(Drop)]
pub struct ListenCall {
    /// At this address.
    pub address: SocketAddr,
    /// Whether it was given.
    pub listens: bool,
}

impl ListenCall {
    /// A listener was asked for at this address, and was given or not.
    pub fn new(address: SocketAddr, listens: bool) -> ListenCall
        ensures { result ≡ listen_call address listens }
    {
        ListenCall { address, listens }
    }
}

/// A listener, and its actual address: for port 0 the system chooses a port.
#[derive(Drop)]
pub struct Bound<L> {
    /// The listener.
    pub listener: L,
    /// Where it listens.
    pub address: SocketAddr,
}

/// Where listeners come from. Its ghost record has each call.
pub trait Listeners {
    /// The stream of a client.
    type Stream: Read + Write + OpenStream + Drop;

    /// A listener.
    type Listener: OpenListener<Stream = Self::Stream> + Drop;

    /// Which listeners were asked for, the latest first.
    ghost asked: { Self → List ListenCall };

    /// A listener at this address.
    fn listen(&mut self, address: SocketAddr) -> io::Result<Bound<Self::Listener>>
        ensures { asked self.new ≡ listen_call address (is_ok result) ∷ asked self.old };

    /// How many more files may be open, at most so many.
    fn room(&self, alloc: Global, most: usize) -> usize;
}

/// The listeners of the operating system. That one listens at the address that it was asked for, and nowhere else, is
/// trusted, since no contract of the kit states where a listener listens.
#[derive(Drop)]
pub struct SystemListeners<'a> {
    rt: &'a HostRuntime,
    asked: Trace<ListenCall>,
}

impl<'a> SystemListeners<'a> {
    ghost use Rattle.gateway_up.specs.Listeners.{asked_of};

    /// The listeners that this runtime gives. None was asked for so far.
    pub fn new(rt: &'a HostRuntime) -> Self
        ensures { asked_of result ≡ [] }
    {
        SystemListeners {
            rt,
            asked: Trace::new(),
        }
    }
}

impl Listeners for SystemListeners<'_> {
    ghost use Rattle.gateway_up.specs.Listeners.{asked_of};

    type Stream = TcpStream;

    type Listener = TcpListener;

    ghost asked = { asked_of };

    fn listen(&mut self, address: SocketAddr) -> io::Result<Bound<TcpListener>> {
        let bound = bind(self.rt, address);
        self.asked = self.asked.and(&ListenCall::new(address, bound.is_ok()));
        bound
    }

    fn room(&self, alloc: Global, most: usize) -> usize {
        files_to_open(self.rt, alloc, most)
    }
}

// Asks the system for a listener whose calls don't wait: one that waits would serve nobody.
fn bind(rt: &HostRuntime, address: SocketAddr) -> io::Result<Bound<TcpListener>> {
    let listener = TcpListener::bind(rt, address)?;
    listener.set_nonblocking(true)?;
    let address = listener.local_addr()?;
    Ok(Bound { listener, address })
}
