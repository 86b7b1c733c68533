//! Connections over sockets, turn by turn in one thread.
ghost use Rattle.std.specs.Prelude.{Bool, IsErr};
ghost use Rattle.upload_rules.specs.Answers.{Counts};
ghost use Rattle.tus_session.specs.History.{State};
ghost use Rattle.gateway_serve.specs.Acceptors.{HasServed};
ghost use Rattle.gateway_serve.specs.Drains.{HasDrained};
ghost use Rattle.gateway_serve.specs.Reasons.{IsLeftReasoned};
ghost use Rattle.gateway_serve.specs.Served.{ServesPart, AllServed, AllLeft};
ghost use Rattle.gateway_serve.specs.Streams.{AllHad};
ghost use Rattle.gateway_serve.specs.Times.{HasShown};

use crate::acceptors::Acceptor;
use crate::clocks::Timer;
use crate::doors::{AtDoor, Clients};
use crate::drains::Drained;
use crate::idle::Watch;
use crate::server::Server;
use crate::sockets::Seen;
use common::{DiskFault, Trace};
use std::alloc::Global;
use std::io::{Read, Write};
use std::net::OpenStream;
use std::time::Duration;
use tus_session::Connections;

/// What serving came to.
pub struct Outcome<C> {
    /// The gateway, which is handed back.
    pub gateway: C,
    /// What became of the clients that the listener gave.
    pub clients: Clients,
    /// What was done for them, turn by turn, which only clauses read.
    pub door: Trace<AtDoor>,
    /// The time at the beginning of each turn, as the clock showed it, which only clauses read.
    pub times: Trace<Duration>,
    /// The sockets that served them, which only clauses read.
    pub ended: Trace<Seen>,
    /// What was done with those of them that were to drain, which only clauses read.
    pub drained: Trace<Drained>,
    /// `DiskFault` where a call of the session was refused with it: serving stopped there.
    pub served: Result<(), DiskFault>,
}

/// Serves the connections of a listener, until so many were closed or so many turns were taken.
///
/// Each turn asks the listener for a client, which gets a connection if fewer than `MOST_OPEN` are open. Then it goes
/// on at each open connection, in order. If something is left to write, it is written; else, if a text is pending, its
/// next piece is asked for; else up to 4,096 bytes are read and given to the session, and what it gives is written. A
/// socket that fails or is at its end ends its connection. So does a socket over which nothing came or went for a
/// minute, or whose request's head isn't whole after one; the body of a request that was refused is a body as any
/// other. At the end the open connections are ended.
///
/// A connection that the session closed is closed once all is written, and its place is free. Its socket drains: the
/// writing side is shut down, and what still comes is read and dropped (RFC 9112, section 9.6), so that the client
/// doesn't lose the reply to a reset. The socket is let go at its end, after two seconds in which nothing came, after
/// ten if something came before, after a minute, after 1,073,741,824 bytes, once 64 others were closed after it, or if
/// it is the oldest when the listener fails, as it does where no more files may be open; and at the end.
///
/// If all are open, one more client is taken in and waits for a place. Meanwhile a connection gives way. One whose
/// socket has nothing to do: the one that has been between requests longest, after 20 milliseconds; a head or a body
/// that brought less than 4,096 bytes a second for two seconds, and less than as many in each of its turns. And whether
/// there is something to do or not, a body that has come for ten seconds, and any that has had its place for ten
/// seconds once no reply is owed: what was read of a next request is dropped, and the socket drains if something came
/// or went just before. A reply never gives way. A socket that still waits when serving ends is closed.
///
/// While there is something to do, the listener and each connection that had nothing are passed over in more and more
/// turns, in at most 31 one after the other and for at most some 10 milliseconds. A connection whose time is over is
/// ended as much later. In a turn that has taken 10 milliseconds the session is called once for each connection that
/// follows, so it takes as long as one commit of each. Where 65,536 bytes wait for a socket, nothing more is taken of
/// it.
///
/// After turns in which no socket had anything to do it rests, at most 10 milliseconds.
pub fn serve_on<A: Acceptor, C: Connections, T: Timer>(
    clock: &mut T,
    alloc: Global,
    acceptor: &mut A,
    gateway: C,
    connections: u64,
    turns: u64,
) -> Outcome<C>
where
    A::Stream: Read + Write + OpenStream + Drop,

    // The gateway is where the history of some events is. After a disk fault only its images are known. If the disk is
    // known to be honest, they show the uploads after these events, and the bytes given of a text are the text's. Over
    // any disk they are as many, and all else is the same.
    //
    // A connection has one socket for each time that these events opened it, in order. The session took all bytes that
    // came from the socket, but for at most 4,096 at the end. The bytes that went to it are the first ones that the
    // session gave. They are all of these, unless it was reported to the session that the client is gone. Then at most
    // 135,167 are missing at the end, since no more ever wait to be written. Each connection is closed again.
    //
    // After a disk fault it isn't promised that all bytes went, nor that each connection is closed. All went even then
    // if the reason is that the session closed the connection, or that it was late between requests or in one.
    ensures serves { (sure : Bool) (st : State) → C.represents gateway sure st
        → ServesPart C.Connections sure gateway result.gateway st result.served
        (AllServed sure result.ended.items result.clients.refused st)
        (AllLeft sure result.ended.items result.clients.refused st) }
    ensures counts { Counts (IsErr result.served) (C.failures gateway) (C.failures result.gateway) }

    // Each of these sockets had a stream of its own, as it was accepted. Until its connection was closed that was read
    // and written and nothing else: what the reads gave is what came, what the writes took is what went, and the latest
    // of these calls answered so. What comes behind the last reply of a connection that the session closed is dropped.
    // When the connection was opened, and when something last came or went, are times at which turns began.
    ensures streams { AllHad A.Stream.remaining A.Stream.contents result.times.items result.ended.items }

    // Each of them ended for the reason that it has:
    // - the session closed its connection;
    // - the latest call of its stream was a read that had room and gave nothing, a write that was offered something and
    //   took nothing, or a call that failed, but not because it would have waited or was interrupted;
    // - nothing came or went for as long as it may be idle at what it was at, by its own times and those of the turns,
    //   or it gave way, in a turn in which a client waited for a place;
    // - serving was over: at most one for each number of a connection, and one more if the disk failed.
    ensures reasons { IsLeftReasoned result.times.items result.door.items result.ended.items }

    // Each of them drained whose connection the session closed, or that gave way just after a reply, and no other. Its
    // writing side was shut once, and since then it was read and nothing else: what came was dropped. It drained until
    // - it was at its end, or a read failed, but not because it would have waited or was interrupted;
    // - its writing side couldn't be shut, or nothing came for too long, it drained for too long, or it brought too
    //   much, by the times of its turns;
    // - room was needed, since as many drained as may or no more files may be open, or memory for it was refused;
    // - serving was over.
    ensures drains { HasDrained result.ended.items result.drained.items }

    // There is a time for each turn. Each turn began at the time that the clock showed, which was asked once before it,
    // or at that of the turn before, if it couldn't be read. At the end it was asked once more at most.
    ensures times { HasShown (T.shown clock.old) (T.shown clock.new) result.door.items result.times.items }

    // Each client that the listener gave got a connection, which is one of these sockets, or was refused one by the
    // session, or waited for a place at the end, which one does at most. Unless the disk failed or so many connections
    // were closed before, it took so many turns, and no more connections were closed than that: in at least every 32nd
    // turn in which no client waited it asked the listener.
    ensures clients { HasServed (A.answers acceptor.old) (A.answers acceptor.new) turns connections result.door.items
        result.clients result.ended.items (IsErr result.served) }
{
    let mut gateway = gateway;
    let mut server = Server::new(alloc, Watch::new(clock.show()));
    let served = server.serve(clock, acceptor, &mut gateway, connections, turns);
    let Server {
        door,
        times,
        ended,
        drains,
        ..
    } = server;
    Outcome {
        gateway,
        clients: door.clients,
        door: door.done,
        times,
        ended,
        drained: drains.end(),
        served,
    }
}
