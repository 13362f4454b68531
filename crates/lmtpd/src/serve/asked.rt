//! The server that the program's words ask for.

ghost use Rattle.std.specs.Prelude.{◌≡◌, false, length, map, None, MatchResult};
ghost use Rattle.std.specs.Arc.{arc_value};
ghost use Rattle.std.specs.List.{AllByRecursion};
ghost use Rattle.lmtp_threads.specs.Works.{spools_view};
ghost use Rattle.lmtpd_words.specs.Words.{serving_site};
ghost use Rattle.lmtpd_setup.specs.Curfew.{IsCurfewOf};
ghost use Rattle.lmtpd_setup.specs.Faults.{site_fault};
ghost use Rattle.lmtpd_setup.specs.Mailboxes.{IsUntold, held_as};
ghost use Rattle.lmtpd_setup.specs.Setup.{ends_asked, mailboxes_asked, quotas_asked};
ghost use Rattle.lmtpd.specs.Program.{IsListenedAt, IsNotServed, IsServedAsAsked};

use super::numbers::{conversations_asked, sizes_asked};
use crate::lacking::house_fault;
use box_worker::TurnObserver;
use lmtp_house::{HouseFault, Observer};
use lmtpd_listen::{Opened, listen_address_of};
use lmtpd_log::{LaneLog, LineLog, LogSink, MailboxLog};
use lmtpd_serve::{Served, serve_run, watch_stop};
use lmtpd_setup::{
    ServerLog, ServerSetup, Stop, WaitingMailbox, open_address, set_up, tell_of_sizes,
};
use lmtpd_words::ServeWords;
use log::Log;
use mbox_rd::{FileLock, RangeLock, Spool, Writeback};
use std::env::Env;
use std::fs::{Files, OpenOptions};
use std::io::Write;
use std::net::{Net, TcpListener, TcpStream};
use std::sync::Wait;
use std::thread::Threads;
use std::time::Clock;

/// Runs the server, while the standard streams' places are held. `rt` opens its listener, `threads` is the handle that
/// its threads take; by it their mailboxes are opened and locked.
pub fn serve_asked<'a, P, H, W>(
    rt: &P,
    threads: H,
    words: &ServeWords<'a>,
    writer: &mut W,
) -> Result<Served, Stop<'a>>
where
    P: AllocGlobal + Files + Net<Listener = TcpListener, Stream = TcpStream> + Env + Clock,
    P::File: FileLock,
    H::File: RangeLock + Writeback + Send + 'static,
    H::Dir: Send + 'static,
    H: Threads + Wait + Clock + Files + Eprint + Copy + Drop + Send + Sync + 'static,
    W: Write,
    requires { words.now.check_words ≡ false }
    ensures { MatchResult result
        (IsServedAsAsked H (⟦<LineLog<LogSink<ServerLog<H>>, H> as Observer>⟧.told)
        (⟦<LineLog<LogSink<ServerLog<H>>, H> as LaneLog>⟧.lines)
        (spools_view (⟦<WaitingMailbox<H> as Spool>⟧.state) (⟦<WaitingMailbox<H> as Spool>⟧.MayFind)
        (⟦<WaitingMailbox<H> as Spool>⟧.MayRefuse) (⟦<MailboxLog<LogSink<ServerLog<H>>> as TurnObserver>⟧.told))
        held_as words.now
        (W.contents writer.old) (W.contents writer.new))
        (IsNotServed words.now) }
{
    let _input = null(rt);
    let _output = null(rt);
    let _error = null(rt);
    let alloc = rt.alloc();
    let listen_address = listen_address_of(words.listen)?;
    let setup = set_up(rt, threads, words)?;
    let opened = open_address(rt, alloc, listen_address, words.socket_mode, &setup.log)?;
    watch_stop(threads, &setup.curfew, &setup.slow, &setup.site, setup.log);
    serve_opened(rt, threads, words, setup, opened, writer)
}

// Runs the server that was set up on what was opened, whose file is removed at the end.
fn serve_opened<'a, P, H, W>(
    rt: &P,
    threads: H,
    words: &ServeWords<'a>,
    setup: ServerSetup<H>,
    opened: Opened<'a>,
    writer: &mut W,
) -> Result<Served, Stop<'a>>
where
    P: AllocGlobal + Files + Clock,
    P::File: FileLock,
    H::File: RangeLock + Writeback + Send + 'static,
    H::Dir: Send + 'static,
    H: Threads + Wait + Clock + Files + Eprint + Copy + Drop + Send + Sync + 'static,
    W: Write,
    requires served { words.now.check_words ≡ false }
    requires opened { IsListenedAt words.now opened }
    requires site { arc_value setup.site ≡ serving_site words.now.site }
    requires sound { site_fault words.now.site ≡ None }
    requires count { length setup.spools.items ≡ length words.now.site.boxes.items }
    requires mailboxes { map held_as setup.spools.items ≡ mailboxes_asked words.now }
    requires quotas { setup.quotas.items ≡ quotas_asked words.now }
    requires untold { AllByRecursion (λ mailbox. IsUntold mailbox) setup.spools.items }
    requires ends { IsCurfewOf (ends_asked words.now) (arc_value setup.curfew) }
    requires addresses { setup.logs.addresses ≡ words.now.log_addresses }
    ensures { MatchResult result
        (IsServedAsAsked H (⟦<LineLog<LogSink<ServerLog<H>>, H> as Observer>⟧.told)
        (⟦<LineLog<LogSink<ServerLog<H>>, H> as LaneLog>⟧.lines)
        (spools_view (⟦<WaitingMailbox<H> as Spool>⟧.state) (⟦<WaitingMailbox<H> as Spool>⟧.MayFind)
        (⟦<WaitingMailbox<H> as Spool>⟧.MayRefuse) (⟦<MailboxLog<LogSink<ServerLog<H>>> as TurnObserver>⟧.told))
        held_as words.now
        (W.contents writer.old) (W.contents writer.new))
        (IsNotServed words.now) }
{
    let alloc = rt.alloc();
    let ServerSetup {
        site,
        log,
        curfew,
        slow,
        spools,
        quotas,
        logs,
    } = setup;
    let Opened { socket, file } = opened;
    let sizes = sizes_asked(words);
    let conversations = conversations_asked(words, curfew, slow);
    let served = serve_run(
        threads,
        alloc,
        site,
        sizes,
        quotas,
        conversations,
        socket,
        spools,
        logs,
        writer,
    );
    file.remove(rt);
    match served {
        Ok(served) => Ok(served),
        Err(cause) => {
            tell_of_cause(words, &log, cause);
            Err(Stop::Fault(house_fault(cause)))
        }
    }
}

// Where it was for a size the log says which.
fn tell_of_cause<G: Log>(words: &ServeWords<'_>, log: &G, cause: HouseFault) {
    if matches!(cause, HouseFault::Size) {
        tell_of_sizes(words, log);
    }
}

// Held three times, it stands where a standard stream is closed: else a mailbox would be opened there, and take what is
// said.
fn null<P: Files>(rt: &P) -> Option<P::File> {
    OpenOptions::new()
        .read(true)
        .write(true)
        .open(rt, "/dev/null")
        .ok()
}
