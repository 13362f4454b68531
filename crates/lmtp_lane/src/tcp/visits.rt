//! The clients that connect to a listener.

ghost use Rattle.std.specs.Prelude.{◌≡◌};
ghost use Rattle.std.specs.Arc.{arc_value};

use crate::tcp::failed_accept::{FailedAccept, next_pause, why_failed};
use crate::tcp::listener::Listener;
use crate::visits::Visits;
use lmtp_talk::{Client, EndCause};
use lmtp_tcp::{Bounds, ClientStream, Curfew, TcpPeer};
use std::io;
use std::io::{ErrorKind, Read, Write};
use std::sync::{Arc, Wait};
use std::time::Duration;

/// How long a read or a write of a client waits before it is looked whether its conversation is over.
pub const WAIT_MS: u64 = 500;

/// How long no accept is tried after one that the network refused.
const MOMENT_MS: u64 = 10;

/// A tenth of a second: after each one of a pause it is looked whether the server's end was asked for.
const TENTH_MS: u64 = 100;

/// The first pause of a machine that lacks something, in tenths of a second.
const FIRST_PAUSE: u32 = 1;

/// As many clients of a listener, that other lanes may share, as it may hold conversations, while no end was asked
/// for.
#[derive(Drop)]
pub struct TcpVisits<L: Drop, E: Drop> {
    listener: Arc<L>,
    // how many conversations may still be held
    pub(super) connections: u64,
    // what each of them may ask of its client
    bounds: Bounds,
    curfew: Arc<E>,
    // how many conversations have ended; it stays at its largest value
    ended: u64,
    // whether a client was handed out, and isn't back
    out: bool,
    over: bool,
    failed: bool,
    stopped: bool,
}

impl<L: Drop, E: Drop> TcpVisits<L, E> {
    ghost use Rattle.std.specs.Prelude.{false};
    ghost use Rattle.lmtp_lane.specs.TcpVisits.{IsReady, has_failed, was_stopped};

    /// As many clients of the listener, each within these bounds.
    pub fn new(
        listener: Arc<L>,
        connections: u64,
        bounds: Bounds,
        curfew: Arc<E>,
    ) -> TcpVisits<L, E>
        ensures ready { IsReady connections bounds result }
        ensures listener { result.listener ≡ listener }
        ensures curfew { result.curfew ≡ curfew }
    {
        TcpVisits {
            listener,
            connections,
            bounds,
            curfew,
            ended: 0,
            out: false,
            over: false,
            failed: false,
            stopped: false,
        }
    }

    /// Whether an accept failed since what listens doesn't any more; the lane took no client after that.
    pub fn failed(&self) -> bool
        ensures { result ≡ has_failed self.now }
    {
        self.failed
    }

    /// Whether the server's end was asked for before all conversations were held; the lane took no client after that.
    pub fn stopped(&self) -> bool
        ensures { result ≡ was_stopped self.now }
    {
        self.stopped
    }
}

impl<L, E> TcpVisits<L, E>
where
    L: Listener + Drop,
    L::Stream: Read + Write + ClientStream + Drop,
    E: Curfew,
{
    ghost use Rattle.std.specs.Prelude.{false, true, Ok, None, IfErr};
    ghost use Rattle.std.specs.IoError.{raw_os_error};
    ghost use Rattle.lmtp_lane.specs.Accepts.{HasBroken, why_failed};
    ghost use Rattle.lmtp_lane.specs.TcpVisits.{TakesClient, is_out};

    // The next client, where one is to be had.
    fn take_client<R: Wait>(&mut self, rt: &R) -> Option<TcpPeer<L::Stream, E>>
        requires { is_out self.old ≡ false }
        ensures takes { TakesClient self.old self.new result }
        ensures stopped { self.old.stopped ≡ false → self.new.stopped ≡ true → E.IsAsked (arc_value self.old.curfew) }
        ensures failed { self.old.failed ≡ false → self.new.failed ≡ true
            → HasBroken (L.MayFail (arc_value self.old.listener)) }
    {
        if self.connections == 0 || self.failed || self.stopped {
            return None;
        }
        match self.accept(rt) {
            Ok(Some((stream, client, curfew))) => {
                self.connections -= 1;
                self.out = true;
                Some(TcpPeer::new(stream, client, self.bounds, curfew))
            }
            Ok(None) => {
                self.stopped = true;
                None
            }
            Err(_) => {
                self.failed = true;
                None
            }
        }
    }

    // The next client that is still there, or none once the server's end is asked for. It fails where what listens
    // doesn't any more; after any other failure another accept is tried.
    fn accept<R: Wait>(&self, rt: &R) -> io::Result<Option<(L::Stream, Client, Arc<E>)>>
        ensures asked { result ≡ Ok None → E.IsAsked (arc_value self.now.curfew) }
        ensures broken { IfErr result (λ error. L.MayFail (arc_value self.now.listener) error
            × (why_failed (raw_os_error error) ≡ FailedAccept.Broken)) }
    {
        let mut pause = FIRST_PAUSE;
        for _ in rt.forever() {
            if self.curfew.is_asked() {
                return Ok(None);
            }
            match self.listener.accept() {
                Ok((stream, client)) => {
                    if let Ok(curfew) = self.receive(&stream) {
                        return Ok(Some((stream, client, curfew)));
                    }
                    pause = FIRST_PAUSE;
                }
                Err(error) => match why_failed(&error) {
                    FailedAccept::Broken => return Err(error),
                    FailedAccept::Passing => {}
                    FailedAccept::Refused => {
                        self.curfew.sleep(Duration::from_millis(MOMENT_MS));
                    }
                    FailedAccept::Lacking => {
                        self.curfew.accept_failed(&error);
                        self.pause(pause);
                        pause = next_pause(pause);
                    }
                },
            }
        }
        unreachable!()
    }

    // Gives a client's stream its times; where it takes none its conversation is over before it began.
    fn receive(&self, stream: &L::Stream) -> io::Result<Arc<E>> {
        stream.set_read_timeout(Duration::from_millis(WAIT_MS))?;
        stream.set_write_timeout(Duration::from_millis(WAIT_MS))?;
        match Arc::try_clone(&self.curfew) {
            Ok(curfew) => Ok(curfew),
            Err(_) => Err(io::Error::from(ErrorKind::OutOfMemory)),
        }
    }

    // Waits for as many tenths of a second, unless the server's end is asked for meanwhile.
    fn pause(&self, tenths: u32) {
        for _ in 0..tenths {
            if self.curfew.is_asked() {
                return;
            }
            self.curfew.sleep(Duration::from_millis(TENTH_MS));
        }
    }
}

impl<L, E> Visits for TcpVisits<L, E>
where
    L: Listener + Drop,
    L::Stream: Read + Write + ClientStream + Drop,
    E: Curfew,
{
    type P = TcpPeer<L::Stream, E>;

    ghost use Rattle.std.specs.Prelude.{true, false, is_none};
    ghost use Rattle.lmtp_lane.specs.Accepts.{HasBroken};
    ghost use Rattle.lmtp_lane.specs.TcpVisits.{TakesClient, TakesBack, IsNewcomer, told_by, is_out, is_over};

    ghost MayGive = { λ visits peer. IsNewcomer peer };

    ghost finished = { λ visits. told_by visits };

    ghost out = { λ visits. is_out visits };

    ghost over = { λ visits. is_over visits };

    /// Waits for the next client; one that had gone before it was taken, or whose stream takes no time, is passed over.
    /// Where an accept fails another one is tried, but that there are no more clients once what listens doesn't any
    /// more, and once the server's end was asked for.
    fn next<R: Wait>(&mut self, rt: &R) -> Option<TcpPeer<L::Stream, E>>
        requires { is_out self.old ≡ false }
        ensures takes { TakesClient self.old self.new result }
        ensures over { is_over self.new ≡ is_none result }
        ensures stopped { self.old.stopped ≡ false → self.new.stopped ≡ true → E.IsAsked (arc_value self.old.curfew) }
        ensures failed { self.old.failed ≡ false → self.new.failed ≡ true
            → HasBroken (L.MayFail (arc_value self.old.listener)) }
    {
        let client = self.take_client(rt);
        self.over = client.is_none();
        client
    }

    /// Closes the connection; a client who may still send has up to a second to hear the last reply.
    fn done(&mut self, peer: TcpPeer<L::Stream, E>, end: EndCause)
        requires { is_out self.old ≡ true }
        ensures { TakesBack self.old self.new }
    {
        peer.close(end);
        self.out = false;
        self.ended = self.ended.saturating_add(1);
    }
}
