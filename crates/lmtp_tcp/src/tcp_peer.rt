//! A client over a stream.

ghost use Rattle.std.specs.Prelude.{◌≡◌, ◌<◌, [], false, length, Ok, IfOk, OnOk, OnErr};
ghost use Rattle.std.specs.Arc.{arc_value};
ghost use Rattle.std.specs.Duration.{as_nanos};

use crate::at_rest::{begins_mail, ends_at_rest, has_rested};
use crate::curfew::{Curfew, has_passed};
use crate::drain::close;
use crate::silence::is_silence;
use crate::stream::ClientStream;
use lmtp_talk::{Came, Client, EndCause, Pause, Peer, PeerFault, ReadBuffer, Traffic, write_some};
use std::io;
use std::io::{Error, ErrorKind, Read, Write};
use std::sync::Arc;
use std::time::Duration;

/// How much of a client one conversation may ask.
#[derive(Clone, Copy, PartialEq, Eq)]
pub struct Bounds {
    /// How many reads may be made.
    pub reads: u64,
    /// How many waits of the stream, one after another, may bring nothing.
    pub waits: u32,
    /// How many bad commands the client may send between two messages' data.
    pub bad_commands: u32,
}

/// A client whose bytes come and go over a stream. What the system has for it is read at once, as far as the
/// buffer goes, which lends it in pieces. It says that the server is to stop once as many pieces were handed
/// out as may be, once the client sent as many bad commands as it may, once it was silent for as many waits of the
/// stream as it may be (RFC 5321, 4.5.3.2), and once the curfew says that its conversation is over, though bytes wait.
/// Before that, but after the server's end was asked for, it says so at rest: in place of a line that ends the
/// conversation there, which stays in the buffer, and after three seconds of silence.
#[derive(Drop)]
pub struct TcpPeer<T, E: Drop> {
    stream: T,
    curfew: Arc<E>,
    client: Client,
    // when the conversation began
    begun: Duration,
    // how many waits may bring nothing
    waits: u32,
    // how many replies to bad commands the client may get between two messages' data
    bad_limit: u32,
    // how many reads may still be made
    reads_left: u64,
    // how many bytes it left in its buffer as it was last read
    left: usize,
    // when it was found that bytes had come, last
    heard: Duration,
    // whether MAIL was handed on at rest since the server's end was asked for
    had_mail: bool,
    // when it was first to be written to after its conversation was over
    over_since: Option<Duration>,
    // the bytes that reads of the stream brought, and that its writes took; each count stays at its largest value
    bytes_read: u64,
    bytes_written: u64,
    // how often it was read, failed and said stop, likewise
    reads: u64,
    failures: u64,
    stops: u64,
}

impl<T, E: Curfew> TcpPeer<T, E> {
    ghost use Rattle.lmtp_tcp.specs.TcpPeer.{IsNew};

    /// A client whose conversation begins now, within these bounds.
    pub fn new(stream: T, client: Client, bounds: Bounds, curfew: Arc<E>) -> TcpPeer<T, E>
        ensures fresh { IsNew bounds result }
        ensures stream { result.stream ≡ stream }
        ensures client { result.client ≡ client }
    {
        let begun = curfew.moment();
        TcpPeer {
            stream,
            curfew,
            client,
            begun,
            waits: bounds.waits,
            bad_limit: bounds.bad_commands,
            reads_left: bounds.reads,
            left: 0,
            heard: begun,
            had_mail: false,
            over_since: None,
            bytes_read: 0,
            bytes_written: 0,
            reads: 0,
            failures: 0,
            stops: 0,
        }
    }
}

impl<T, E: Curfew> TcpPeer<T, E> {
    ghost use Rattle.std.specs.Prelude.{true, IfSome, ◌⊎◌};
    ghost use Rattle.lmtp_talk.specs.Pause.{is_at_rest};
    ghost use Rattle.lmtp_talk.specs.ReadBuffer.{waiting};
    ghost use Rattle.lmtp_tcp.specs.AtRest.{begins_mail};
    ghost use Rattle.lmtp_tcp.specs.TcpPeer.{EndsAtRest};

    // Whether the conversation is over.
    fn is_over(&self) -> bool
        ensures { result ≡ true → E.IsOver (arc_value self.now.curfew) (as_nanos self.now.begun) }
    {
        self.curfew.is_over(self.begun)
    }

    // When the server's end was asked for, where it was and the client is at rest.
    fn asked_at(&self, pause: Pause) -> Option<Duration>
        ensures asked { IfSome result (λ _. E.IsAsked (arc_value self.now.curfew)) }
        ensures rest { IfSome result (λ _. is_at_rest pause ≡ true) }
    {
        match pause {
            Pause::Within => None,
            Pause::Before | Pause::Between => self.curfew.asked_at(),
        }
    }

    // Whether the client's silence ends the conversation where it is at rest.
    fn has_rested(&self, pause: Pause) -> bool
        ensures asked { result ≡ true → E.IsAsked (arc_value self.now.curfew) }
        ensures rest { result ≡ true → is_at_rest pause ≡ true }
    {
        match self.asked_at(pause) {
            Some(asked) => has_rested(asked, self.heard, self.curfew.moment()),
            None => false,
        }
    }

    // Whether what waits ends the conversation where it is at rest; else MAIL is kept in mind.
    fn refuses(&mut self, buffer: &ReadBuffer, pause: Pause) -> bool
        ensures refused { result ≡ true → EndsAtRest E.IsAsked pause self.old (waiting buffer.now) }
        ensures mail { self.new.had_mail ≡ true → (self.old.had_mail ≡ true)
            ⊎ (E.IsAsked (arc_value self.old.curfew) × (is_at_rest pause ≡ true)
            × (begins_mail (waiting buffer.now) ≡ true)) }
        ensures same { self.new ≡ record self.old { had_mail = self.new.had_mail } }
    {
        if self.asked_at(pause).is_none() {
            return false;
        }
        if ends_at_rest(pause, self.had_mail, buffer.unread()) {
            return true;
        }
        self.had_mail = self.had_mail || begins_mail(buffer.unread());
        false
    }
}

impl<T, E: Drop> TcpPeer<T, E> {
    ghost use Rattle.std.specs.IoError.{error_kind};
    ghost use Rattle.mail_world.specs.Failures.{Rises};
    ghost use Rattle.lmtp_tcp.specs.Silence.{IsSilence};

    // Counts a stop.
    fn stop(&mut self) -> Came
        ensures came { result ≡ Came.Stop }
        ensures counts { Rises self.old.stops self.new.stops }
        ensures same { self.new ≡ record self.old { stops = self.new.stops } }
    {
        self.stops = self.stops.saturating_add(1);
        Came::Stop
    }

    // Counts a failure.
    fn fail(&mut self) -> PeerFault
        ensures counts { Rises self.old.failures self.new.failures }
        ensures same { self.new ≡ record self.old { failures = self.new.failures } }
    {
        self.failures = self.failures.saturating_add(1);
        PeerFault
    }

    // What the client did whose stream gave that error: one that was silent for the stream's time is waited for again,
    // any other error is a failure.
    fn answer(&mut self, error: &Error) -> Result<(), PeerFault>
        ensures silent { OnOk result (IsSilence (error_kind error.now) × (self.new ≡ self.old)) }
        ensures fails { OnErr result ((IsSilence (error_kind error.now) → ⊥)
            × Rises self.old.failures self.new.failures
            × (self.new ≡ record self.old { failures = self.new.failures })) }
    {
        if is_silence(error) {
            Ok(())
        } else {
            Err(self.fail())
        }
    }
}

/// What a wait for a client's bytes came to.
#[derive(Clone, Copy, PartialEq, Eq)]
enum Waited {
    /// Bytes stand in the buffer.
    Came,
    /// The client has closed its end.
    End,
    /// As many waits as may be brought nothing, or the client was silent at rest.
    Silent,
    /// The conversation is over.
    Over,
}

impl<T: Read, E: Drop> TcpPeer<T, E> {
    ghost use Rattle.std.specs.Prelude.{MatchResult};
    ghost use Rattle.lmtp_talk.specs.Peer.{RisesBy};
    ghost use Rattle.lmtp_talk.specs.ReadBuffer.{waiting, Refills};

    // Reads the stream once, where nothing waits, and counts what it brings.
    fn refill(&mut self, buffer: &mut ReadBuffer) -> io::Result<usize>
        requires { waiting buffer.old ≡ [] }
        ensures fills { Refills (T.remaining self.old.stream) (T.remaining self.new.stream) result
            (waiting buffer.new) }
        ensures counts { MatchResult result
            (λ n. RisesBy n self.old.bytes_read self.new.bytes_read)
            (λ _. self.new.bytes_read ≡ self.old.bytes_read) }
        ensures same { self.new ≡ record self.old {
          stream = self.new.stream;
          bytes_read = self.new.bytes_read;
        } }
    {
        let size = buffer.refill(&mut self.stream)?;
        self.bytes_read = self.bytes_read.saturating_add(size as u64);
        Ok(size)
    }
}

impl<T: Read, E: Curfew> TcpPeer<T, E> {
    ghost use Rattle.std.specs.Prelude.{IfSome, Some, None, ◌⊎◌, ◌-◌};
    ghost use Rattle.mail_world.specs.Failures.{Rises};
    ghost use Rattle.lmtp_talk.specs.Peer.{WasRead, HasBrought, PeerFailed, RisesBy};
    ghost use Rattle.lmtp_talk.specs.ReadBuffer.{waiting, piece_of};
    ghost use Rattle.lmtp_tcp.specs.TcpPeer.{Fills, WaitedFor, TakesRead, brought, tcp_state};

    // Waits for bytes as long as the client may be silent and its conversation isn't over.
    fn wait(&mut self, buffer: &mut ReadBuffer, pause: Pause) -> Result<Waited, PeerFault>
        requires { waiting buffer.old ≡ [] }
        ensures waited { IfOk result (WaitedFor T.remaining self.old (waiting buffer.old) self.new (waiting buffer.new)) }
        ensures over { result ≡ Ok Waited.Over → E.IsOver (arc_value self.old.curfew) (as_nanos self.old.begun) }
        ensures silent { result ≡ Ok Waited.Silent → waiting buffer.new ≡ [] }
        ensures err { OnErr result (PeerFailed (tcp_state T.remaining self.old (waiting buffer.old))
            (tcp_state T.remaining self.new (waiting buffer.new))) }
        ensures counts { RisesBy (length (waiting buffer.new)) self.old.bytes_read self.new.bytes_read }
        ensures bounds { self.new ≡ record self.old {
          stream = self.new.stream;
          bytes_read = self.new.bytes_read;
          failures = self.new.failures;
          heard = self.new.heard;
        } }
    {
        for _ in 0..self.waits {
            if self.is_over() {
                return Ok(Waited::Over);
            }
            match self.refill(buffer) {
                Ok(0) => return Ok(Waited::End),
                Ok(_) => {
                    self.heard = self.curfew.moment();
                    return Ok(Waited::Came);
                }
                Err(error) => self.answer(&error)?,
            }
            if self.has_rested(pause) {
                return Ok(Waited::Silent);
            }
        }
        Ok(Waited::Silent)
    }

    // Says stop where the conversation is over, though bytes wait.
    fn stop_if_over(&mut self) -> Option<Came>
        ensures goes_on { result ≡ None → self.new ≡ self.old }
        ensures over { IfSome result (λ came. (came ≡ Came.Stop) × Rises self.old.stops self.new.stops
            × E.IsOver (arc_value self.old.curfew) (as_nanos self.old.begun)) }
        ensures same { self.new ≡ record self.old { stops = self.new.stops } }
    {
        if self.is_over() {
            Some(self.stop())
        } else {
            None
        }
    }

    // Reads on where nothing waits, and says what the client did where it said nothing.
    fn fill(&mut self, buffer: &mut ReadBuffer, pause: Pause) -> Result<Option<Came>, PeerFault>
        ensures ok { IfOk result (Fills T.remaining self.old (waiting buffer.old) self.new (waiting buffer.new)) }
        ensures err { OnErr result (PeerFailed (tcp_state T.remaining self.old (waiting buffer.old))
            (tcp_state T.remaining self.new (waiting buffer.new))) }
        ensures counts { RisesBy (length (waiting buffer.new) - length (waiting buffer.old))
            self.old.bytes_read self.new.bytes_read }
        ensures waits { 0 < length (waiting buffer.old)
            → ((result ≡ Ok None) × (self.new ≡ self.old) × (buffer.new ≡ buffer.old))
            ⊎ ((result ≡ Ok (Some Came.Stop)) × (self.new.stream ≡ self.old.stream)
            × (buffer.new ≡ buffer.old) × E.IsOver (arc_value self.old.curfew) (as_nanos self.old.begun)) }
        ensures causes { result ≡ Ok (Some Came.Stop) → (waiting buffer.new ≡ [])
            ⊎ E.IsOver (arc_value self.old.curfew) (as_nanos self.old.begun) }
        ensures same { (self.new.reads_left ≡ self.old.reads_left) × (self.new.reads ≡ self.old.reads)
            × (self.new.curfew ≡ self.old.curfew) × (self.new.had_mail ≡ self.old.had_mail)
            × (self.new.bad_limit ≡ self.old.bad_limit) }
    {
        if !buffer.is_empty() {
            return Ok(self.stop_if_over());
        }
        match self.wait(buffer, pause)? {
            Waited::Came => Ok(None),
            Waited::End => Ok(Some(Came::End)),
            Waited::Silent | Waited::Over => Ok(Some(self.stop())),
        }
    }

    // Makes a read, before which only what is the peer's own waits.
    fn take_read(
        &mut self,
        buffer: &mut ReadBuffer,
        pause: Pause,
        bad_commands: u32,
    ) -> Result<Came, PeerFault>
        ensures reads { WasRead 1 (tcp_state T.remaining self.old (waiting buffer.old))
            (tcp_state T.remaining self.new (waiting buffer.new)) }
        ensures come { IfOk result (HasBrought (tcp_state T.remaining self.old (waiting buffer.old))
            (tcp_state T.remaining self.new (waiting buffer.new)) (piece_of buffer.new)) }
        ensures failed { OnErr result (PeerFailed (tcp_state T.remaining self.old (waiting buffer.old))
            (tcp_state T.remaining self.new (waiting buffer.new))) }
        ensures bound { TakesRead E.IsAsked E.IsOver pause bad_commands self.old (waiting buffer.old)
            self.new (waiting buffer.new) result }
        ensures counts { RisesBy (brought (waiting buffer.old) (waiting buffer.new) result)
            self.old.bytes_read self.new.bytes_read }
    {
        self.reads = self.reads.saturating_add(1);
        let is_spent = self.reads_left == 0 || bad_commands >= self.bad_limit;
        self.reads_left = self.reads_left.saturating_sub(1);
        if is_spent {
            return Ok(self.stop());
        }
        if let Some(came) = self.fill(buffer, pause)? {
            return Ok(came);
        }
        if self.refuses(buffer, pause) {
            return Ok(self.stop());
        }
        Ok(Came::Bytes(buffer.lend()))
    }
}

impl<T: Read + ClientStream + Drop, E: Curfew> TcpPeer<T, E> {
    /// Closes the connection of a conversation that ended so; a client who may still send has up to a second to hear
    /// the last reply.
    pub fn close(self, end: EndCause) {
        let TcpPeer {
            mut stream,
            curfew,
            left,
            ..
        } = self;
        close(&mut stream, left > 0, end, &*curfew);
    }
}

impl<T: Write, E: Curfew> TcpPeer<T, E> {
    ghost use Rattle.std.specs.Prelude.{◌≤◌, None, Some, is_some, true};
    ghost use Rattle.std.specs.Io.{WritesAtMost};
    ghost use Rattle.lmtp_tcp.specs.TcpPeer.{time_over};

    // Whether a client whose conversation is over may be written to at that moment: for a second from the first time.
    fn has_last_time(&mut self, now: Duration) -> bool
        ensures same { self.new ≡ record self.old { over_since = self.new.over_since } }
        ensures goes_on { result ≡ true → time_over self.old.over_since now < 1_000_000_000 }
        ensures ends { result ≡ false → 1_000_000_000 ≤ time_over self.old.over_since now }
        ensures first { self.old.over_since ≡ None → self.new.over_since ≡ Some now }
        ensures later { is_some self.old.over_since ≡ true → self.new.over_since ≡ self.old.over_since }
    {
        match self.over_since {
            Some(since) => !has_passed(since, now, Duration::from_secs(1)),
            None => {
                self.over_since = Some(now);
                true
            }
        }
    }

    // Whether the client may be written to once more: once its conversation is over that goes on for a second.
    fn may_write(&mut self) -> bool
        ensures same { self.new ≡ record self.old { over_since = self.new.over_since } }
        ensures ended { result ≡ false → (is_some self.old.over_since ≡ true)
            × E.IsOver (arc_value self.old.curfew) (as_nanos self.old.begun) }
    {
        if !self.is_over() {
            return true;
        }
        let now = self.curfew.moment();
        self.has_last_time(now)
    }

    // Writes as long as the client may take nothing.
    fn write_on(&mut self, bytes: &[u8]) -> io::Result<usize>
        ensures bound { WritesAtMost result bytes.now }
        ensures same { self.new ≡ record self.old { stream = self.new.stream; over_since = self.new.over_since } }
    {
        for _ in 0..self.waits {
            if !self.may_write() {
                break;
            }
            match write_some(&mut self.stream, bytes) {
                Err(error) if is_silence(&error) => {}
                wrote => return wrote,
            }
        }
        Err(Error::from(ErrorKind::TimedOut))
    }
}

impl<T: Read + Write, E: Curfew> Peer for TcpPeer<T, E> {
    ghost use Rattle.std.specs.Prelude.{[], None, MatchResult};
    ghost use Rattle.lmtp_talk.specs.Peer.{WasRead, HasBrought, PeerFailed, HasWritten, RisesBy};
    ghost use Rattle.lmtp_talk.specs.ReadBuffer.{waiting, piece_of};
    ghost use Rattle.lmtp_tcp.specs.TcpPeer.{TakesRead, brought, own, tcp_state};

    ghost state = { λ p.
        record {
          read = None;
          unread = None;
          written = None;
          reads = p.reads;
          failures = p.failures;
          stops = p.stops;
          holds = [];
        } };

    /// What the buffer lends now, what waits in it and what the stream has left are, together, what waited of this
    /// client's bytes and the stream had. What another client left there is dropped.
    fn read(
        &mut self,
        buffer: &mut ReadBuffer,
        pause: Pause,
        bad_commands: u32,
    ) -> Result<Came, PeerFault>
        ensures reads { WasRead 1 (tcp_state T.remaining self.old (own self.old buffer.old))
            (tcp_state T.remaining self.new (waiting buffer.new)) }
        ensures come { IfOk result (λ came. HasBrought (tcp_state T.remaining self.old (own self.old buffer.old))
            (tcp_state T.remaining self.new (waiting buffer.new)) (piece_of buffer.new) came) }
        ensures failed { OnErr result (PeerFailed (tcp_state T.remaining self.old (own self.old buffer.old))
            (tcp_state T.remaining self.new (waiting buffer.new))) }
        ensures bound { TakesRead E.IsAsked E.IsOver pause bad_commands self.old (own self.old buffer.old)
            self.new (waiting buffer.new) result }
        ensures counts { RisesBy (brought (own self.old buffer.old) (waiting buffer.new) result)
            self.old.bytes_read self.new.bytes_read }
        ensures left { own self.new buffer.new ≡ waiting buffer.new }
    {
        buffer.keep(self.left);
        let read = self.take_read(buffer, pause, bad_commands);
        self.left = buffer.unread().len();
        read
    }

    fn write(&mut self, bytes: &[u8]) -> Result<usize, PeerFault>
        requires { 0 < length bytes.now }
        ensures reads { self.new.reads ≡ self.old.reads }
        ensures ok { IfOk result
            (λ n. HasWritten (tcp_state (λ _. None) self.old []) (tcp_state (λ _. None) self.new []) bytes.now n) }
        ensures err { OnErr result
            (PeerFailed (tcp_state (λ _. None) self.old []) (tcp_state (λ _. None) self.new [])) }
        ensures left { self.new.left ≡ self.old.left }
        ensures counts { MatchResult result
            (λ n. RisesBy n self.old.bytes_written self.new.bytes_written)
            (λ _. self.new.bytes_written ≡ self.old.bytes_written) }
    {
        match self.write_on(bytes) {
            Ok(0) | Err(_) => Err(self.fail()),
            Ok(size) => {
                self.bytes_written = self.bytes_written.saturating_add(size as u64);
                Ok(size)
            }
        }
    }

    fn traffic(&self) -> Traffic
        ensures { result ≡ record {
          client = self.now.client;
          began = self.now.begun;
          read = self.now.bytes_read;
          written = self.now.bytes_written;
        } }
    {
        Traffic {
            client: self.client,
            began: self.begun,
            read: self.bytes_read,
            written: self.bytes_written,
        }
    }
}
