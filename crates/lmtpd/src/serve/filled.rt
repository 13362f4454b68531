//! The server that the program's words ask for, with the mailboxes that their file lists.

ghost use Rattle.std.specs.Prelude.{MatchResult};
ghost use Rattle.lmtp_threads.specs.Works.{spools_view};
ghost use Rattle.lmtpd_setup.specs.Boxes.{IsFilled};
ghost use Rattle.lmtpd_setup.specs.Mailboxes.{held_as};
ghost use Rattle.lmtpd.specs.Program.{IsNotServedFilled, IsServeDone, IsServedAsAsked};

use super::asked::serve_asked;
use super::checked::check_words;
use box_worker::TurnObserver;
use lmtp_house::Observer;
use lmtpd_log::{LaneLog, LineLog, LogSink, MailboxLog};
use lmtpd_serve::Served;
use lmtpd_setup::{ServerLog, Stop, WaitingMailbox, fill};
use lmtpd_words::ServeWords;
use mbox_rd::{FileLock, RangeLock, Spool, Writeback};
use std::env::Env;
use std::fs::Files;
use std::io::Write;
use std::net::{Net, TcpListener, TcpStream};
use std::sync::Wait;
use std::thread::Threads;
use std::time::Clock;

/// What became of the words of a server.
#[derive(Drop)]
pub enum ServeDone<W> {
    /// It ran, and said this on standard output.
    Served(Served, W),
    /// They alone were to be checked, and each can be used.
    WordsChecked,
}

/// Runs the server, or checks its words alone, once the file of its mailboxes is read; `room` keeps the text of that.
pub fn serve_filled<'a, P, H, W>(
    rt: &P,
    threads: H,
    mut words: ServeWords<'a>,
    room: &'a mut Vec<u8>,
    mut writer: W,
) -> Result<ServeDone<W>, Stop<'a>>
where
    P: AllocGlobal + Files + Net<Listener = TcpListener, Stream = TcpStream> + Env + Clock,
    P::File: FileLock,
    H::File: RangeLock + Writeback + Send + 'static,
    H::Dir: Send + 'static,
    H: Threads + Wait + Clock + Files + Eprint + Copy + Drop + Send + Sync + 'static,
    W: Write + Drop,
    ensures { MatchResult result
        (IsServeDone (IsFilled P.File.remaining)
        (λ asked after. IsServedAsAsked H (⟦<LineLog<LogSink<ServerLog<H>>, H> as Observer>⟧.told)
        (⟦<LineLog<LogSink<ServerLog<H>>, H> as LaneLog>⟧.lines)
        (spools_view (⟦<WaitingMailbox<H> as Spool>⟧.state) (⟦<WaitingMailbox<H> as Spool>⟧.MayFind)
        (⟦<WaitingMailbox<H> as Spool>⟧.MayRefuse) (⟦<MailboxLog<LogSink<ServerLog<H>>> as TurnObserver>⟧.told))
        held_as asked (W.contents writer) (W.contents after)) words.entry)
        (IsNotServedFilled (IsFilled P.File.remaining) words.entry) }
{
    fill(rt, &mut words.site, room)?;
    if words.check_words {
        check_words(rt, threads, &words)?;
        return Ok(ServeDone::WordsChecked);
    }
    let served = serve_asked(rt, threads, &words, &mut writer)?;
    Ok(ServeDone::Served(served, writer))
}
