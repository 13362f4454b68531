//! What the program does with its words, the lines that it says on standard error, and its status.

ghost use Rattle.std.specs.Prelude.{◌≡◌};
ghost use Rattle.lmtp_threads.specs.Works.{spools_view};
ghost use Rattle.lmtpd_words.specs.Words.{as_texts};
ghost use Rattle.lmtpd_setup.specs.Boxes.{IsFilled};
ghost use Rattle.lmtpd_setup.specs.Mailboxes.{held_as};
ghost use Rattle.lmtpd.specs.Program.{IsCheckedAsAsked, IsDoneAsAsked, IsServedAsAsked, exit_lines, exit_status};
ghost use Rattle.lmtpd.specs.Program.{streams_of};
ghost use Rattle.lmtpd.specs.Copied.{IsCopiedAsAsked};
ghost use Rattle.lmtpd_output.specs.Output.{IsListed};

use crate::check::{check_asked, report_checked};
use crate::copy::{Copied, copy_asked, report_copied};
use crate::lacking::rehearsal_fault;
use crate::rehearse::rehearse_filled;
use crate::serve::{ServeDone, report_served, serve_filled};
use box_worker::TurnObserver;
use lmtp_house::Observer;
use lmtpd_check::Checked;
use lmtpd_copy::{CopyTarget, TargetFile};
use lmtpd_log::{LaneLog, LineLog, LogSink, MailboxLog};
use lmtpd_output::is_journal;
use lmtpd_rehearse::Rehearsed;
use lmtpd_serve::Served;
use lmtpd_setup::{Exit, ServerLog, Stop, WaitingMailbox, report_fault};
use lmtpd_words::{Words, read_words};
use mbox_rd::{FileLock, MailboxFile, MailboxSource, RangeLock, Spool, StdMailboxFile, Writeback};
use std::env::Env;
use std::fs::Files;
use std::io::{Read, Write};
use std::net::{Net, TcpListener, TcpStream};
use std::sync::Wait;
use std::thread::Threads;
use std::time::Clock;

/// What the program did.
#[derive(Drop)]
pub enum Done<'a, R, W> {
    Rehearsed(Rehearsed<R, W>),
    /// A server ran, and said this on standard output.
    Served(Served, W),
    /// The words of a server alone were to be checked, and each can be used.
    WordsChecked,
    Checked(Checked<'a, W>),
    Copied(Copied<'a>),
    /// It stopped before its work was done.
    Stopped(Stop<'a>),
}

/// How the program ended.
#[derive(Drop)]
pub struct Ended<'a, R, W> {
    pub done: Done<'a, R, W>,
    /// Whether standard error is the journal, whose lines have a priority.
    pub is_journal: bool,
    pub exit: Exit,
}

/// Runs the program with these words, its own name first. `rt` prints clap's texts, and opens files and listeners; by
/// `threads` lanes and workers start. `room` keeps the text of the file that lists mailboxes. The program's own lines
/// go to `error`.
pub fn run_program<'a, P, H, R, W, E>(
    rt: &P,
    threads: H,
    words: &'a [String],
    room: &'a mut Vec<u8>,
    reader: R,
    writer: W,
    error: &mut E,
) -> Ended<'a, R, W>
where
    P: AllocGlobal + Print + Eprint + Files,
    P: Net<Listener = TcpListener, Stream = TcpStream> + Env + Clock,
    P::File: RangeLock + Writeback + FileLock,
    H::File: RangeLock + Writeback + Send + 'static,
    H::Dir: Send + 'static,
    H: Threads + Wait + Clock + Files + Eprint + Copy + Drop + Send + Sync + 'static,
    R: Read + Drop + Send + 'static,
    W: Write + Drop + Send + 'static,
    E: Write,
    ensures done { IsDoneAsAsked (streams_of R.remaining W.contents) (IsFilled P.File.remaining)
        (λ asked after. IsServedAsAsked H (⟦<LineLog<LogSink<ServerLog<H>>, H> as Observer>⟧.told)
        (⟦<LineLog<LogSink<ServerLog<H>>, H> as LaneLog>⟧.lines)
        (spools_view (⟦<WaitingMailbox<H> as Spool>⟧.state) (⟦<WaitingMailbox<H> as Spool>⟧.MayFind)
        (⟦<WaitingMailbox<H> as Spool>⟧.MayRefuse) (⟦<MailboxLog<LogSink<ServerLog<H>>> as TurnObserver>⟧.told))
        held_as asked (W.contents writer) (W.contents after))
        (IsCheckedAsAsked P.File.remaining W.contents (W.contents writer))
        (IsCopiedAsAsked (⟦<StdMailboxFile<H> as MailboxFile>⟧.state) (⟦<StdMailboxFile<H> as MailboxSource>⟧.unread)
        (⟦<TargetFile<'static, H> as CopyTarget>⟧.state)) (as_texts words.entry.now)
        (streams_of R.remaining W.contents reader writer) result.done }
    ensures status { result.exit.status ≡ exit_status result.done }
    ensures lines { IsListed (exit_lines result.is_journal result.done) (E.contents error.old) (E.contents error.new)
        result.exit.cut }
{
    let done = do_asked(rt, threads, words, room, reader, writer);
    let is_journal = is_journal(rt);
    let exit = report(rt, is_journal, &done, error);
    Ended {
        done,
        is_journal,
        exit,
    }
}

// Does what the words ask for.
fn do_asked<'a, P, H, R, W>(
    rt: &P,
    threads: H,
    words: &'a [String],
    room: &'a mut Vec<u8>,
    reader: R,
    writer: W,
) -> Done<'a, R, W>
where
    P: AllocGlobal + Files + Net<Listener = TcpListener, Stream = TcpStream> + Env + Clock,
    P::File: RangeLock + Writeback + FileLock,
    H::File: RangeLock + Writeback + Send + 'static,
    H::Dir: Send + 'static,
    H: Threads + Wait + Clock + Files + Eprint + Copy + Drop + Send + Sync + 'static,
    R: Read + Drop + Send + 'static,
    W: Write + Drop + Send + 'static,
    ensures { IsDoneAsAsked (streams_of R.remaining W.contents) (IsFilled P.File.remaining)
        (λ asked after. IsServedAsAsked H (⟦<LineLog<LogSink<ServerLog<H>>, H> as Observer>⟧.told)
        (⟦<LineLog<LogSink<ServerLog<H>>, H> as LaneLog>⟧.lines)
        (spools_view (⟦<WaitingMailbox<H> as Spool>⟧.state) (⟦<WaitingMailbox<H> as Spool>⟧.MayFind)
        (⟦<WaitingMailbox<H> as Spool>⟧.MayRefuse) (⟦<MailboxLog<LogSink<ServerLog<H>>> as TurnObserver>⟧.told))
        held_as asked (W.contents writer) (W.contents after))
        (IsCheckedAsAsked P.File.remaining W.contents (W.contents writer))
        (IsCopiedAsAsked (⟦<StdMailboxFile<H> as MailboxFile>⟧.state) (⟦<StdMailboxFile<H> as MailboxSource>⟧.unread)
        (⟦<TargetFile<'static, H> as CopyTarget>⟧.state)) (as_texts words.entry.now)
        (streams_of R.remaining W.contents reader writer) result }
{
    match read_words(rt.alloc(), words) {
        Ok(Words::Rehearse(asked)) => {
            match rehearse_filled(rt, threads, asked, room, reader, writer) {
                Ok(rehearsed) => Done::Rehearsed(rehearsed),
                Err(stop) => Done::Stopped(stop),
            }
        }
        Ok(Words::Serve(asked)) => match serve_filled(rt, threads, asked, room, writer) {
            Ok(ServeDone::Served(served, writer)) => Done::Served(served, writer),
            Ok(ServeDone::WordsChecked) => Done::WordsChecked,
            Err(stop) => Done::Stopped(stop),
        },
        Ok(Words::Check(asked)) => match check_asked(rt, &threads, &asked, writer) {
            Ok(checked) => Done::Checked(checked),
            Err(fault) => Done::Stopped(Stop::Fault(fault)),
        },
        Ok(Words::Copy(asked)) => Done::Copied(copy_asked(threads, rt.alloc(), &asked)),
        Err(refused) => Done::Stopped(Stop::from(refused)),
    }
}

// Says what is to be known of the run, what went wrong last, and gives the status.
fn report<P, R, W, E>(rt: &P, is_journal: bool, done: &Done<'_, R, W>, error: &mut E) -> Exit
where
    P: Print + Eprint,
    E: Write,
    ensures status { result.status ≡ exit_status done.now }
    ensures lines { IsListed (exit_lines is_journal done.now) (E.contents error.old) (E.contents error.new) result.cut }
{
    match done {
        Done::Rehearsed(rehearsed) => {
            report_fault(rehearsal_fault(rehearsed.ending), is_journal, error)
        }
        Done::Served(served, _) => report_served(served, is_journal, error),
        Done::WordsChecked => report_fault(None, is_journal, error),
        Done::Checked(checked) => report_checked(checked, is_journal, error),
        Done::Copied(copied) => report_copied(copied, is_journal, error),
        Done::Stopped(stop) => stop.report(rt, is_journal, error),
    }
}
