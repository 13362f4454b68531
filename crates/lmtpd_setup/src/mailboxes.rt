//! The files of a server's mailboxes, and a log beside each.

ghost use Rattle.std.specs.Prelude.{◌≡◌, ◌<◌, ◌%◌, [], Some, length, map, vec_len, IfOk, IfErr};
ghost use Rattle.std.specs.Arc.{arc_value};
ghost use Rattle.std.specs.List.{AllByRecursion};
ghost use Rattle.mail_post.specs.WorkerThreads.{threads_for};
ghost use Rattle.mail_post.specs.declared.kinds.TheConstants.{WORKER_THREADS};
ghost use Rattle.mbox_file.specs.StdFile.{file_mode, file_path};
ghost use Rattle.lmtpd_log.specs.MailboxLogs.{name_in, turns_told};
ghost use Rattle.lmtpd_output.specs.Printable.{printable_text};
ghost use Rattle.lmtpd_setup.specs.Mailboxes.{IsUntold, held_as, held_at, path_at};
ghost use Rattle.lmtpd_setup.specs.Shares.{AreOfTheirThreads, HasFilesOf, files_of};
ghost use Rattle.lmtpd_setup.specs.Unopened.{AreNotOpen, IsNotOpen};

use crate::access::{Access, path_of};
use crate::ends::ServerCurfew;
use crate::fault::Fault;
use crate::folder::look_at_folder;
use crate::hurried::HurriedClock;
use crate::shares::ThreadShare;
use crate::stop::Stop;
use lmtp_threads::Watched;
use lmtpd_log::{LogSink, MailboxLog};
use lmtpd_output::printable;
use log::{Log, error};
use mail_post::WORKER_THREADS;
use mbox_file::ThreadFiles;
use mbox_rd::{BoxedSpool, FileSpool, RangeLock, SharedBuffer, StdMailboxFile, Writeback};
use slow_boxes::SlowBoxes;
use std::alloc::Global;
use std::fs::Files;
use std::io;
use std::io::ErrorKind;
use std::sync::Arc;
use std::time::Clock;

/// A mailbox that waits for other programs until the server is to end. It stands once, wherever a list has room for it.
pub type WaitingMailbox<R> = BoxedSpool<StdMailboxFile<R>, HurriedClock<R>>;

/// One whose turns are logged.
pub type ServedMailbox<R, G> = Watched<WaitingMailbox<R>, MailboxLog<LogSink<G>>>;

/// What mailboxes share.
#[derive(Drop)]
pub struct Shared<R: Files + Clock + Drop> {
    /// What ends the server.
    pub curfew: Arc<ServerCurfew<R>>,
    /// Which mailboxes hold up lanes.
    pub slow: Arc<SlowBoxes>,
    /// What those of each thread have for their turns, by the thread's number.
    pub threads: Vec<ThreadShare<R>>,
}

// What a mailbox has of it.
#[derive(Drop)]
struct Part<R: Files + Clock + Drop> {
    number: u32,
    clock: HurriedClock<R>,
    files: Arc<ThreadFiles<R>>,
    buffer: Arc<SharedBuffer>,
}

/// Looks at the folder, and at the file of each mailbox, `FOLDER/NAME` and the suffix, in their order, up to the first
/// that shows as one that can't be opened, of which the log says why. None is opened or made before a turn. With
/// `anyway` it goes on after such a one, whose turns are missed until its file is in order; only a folder that can't be
/// read ends it. Each shares what its thread has, and has a log of its own, which was told of no turn yet.
pub fn open_mailboxes<'a, R, G>(
    rt: R,
    alloc: Global,
    access: Access<'a>,
    names: &[&'a [u8]],
    shared: &Shared<R>,
    log: G,
) -> Result<Vec<ServedMailbox<R, G>>, Stop<'a>>
where
    R: Files + Clock + Copy + Drop,
    R::File: RangeLock + Writeback,
    G: Log + Copy + Drop,
    requires threads { vec_len shared.now.threads ≡ threads_for (length names.now) }
    ensures count { IfOk result (λ spools. vec_len spools ≡ length names.now) }
    ensures held { IfOk result (λ spools. map held_as spools.items ≡ map (held_at access.entry) names.now) }
    ensures untold { IfOk result (λ spools. AllByRecursion (λ mailbox. IsUntold mailbox) spools.items) }
    ensures own { IfOk result (λ spools. AreOfTheirThreads shared.now.threads.items spools.items) }
    ensures refused { IfErr result (AreNotOpen access.entry names.now) }
{
    let mut spools = match Vec::with_capacity(alloc, names.len()) {
        Ok(spools) => spools,
        Err(_) => return Err(Stop::Fault(Fault::Memory)),
    };
    look_at_folder(&rt, access, names, &log)?;
    for name in names {
        let part = part_of(rt, shared, spools.len())?;
        spools.push_reserved(open_mailbox(rt, alloc, access, name, part, log)?);
    }
    Ok(spools)
}

// What the mailbox at that place has of what is shared: of its thread's share, too.
fn part_of<'a, R: Files + Clock + Drop>(
    rt: R,
    shared: &Shared<R>,
    place: usize,
) -> Result<Part<R>, Stop<'a>>
    requires { place % WORKER_THREADS < vec_len shared.now.threads }
    ensures own { IfOk result (λ part. HasFilesOf shared.now.threads.items place (arc_value part.files)) }
    ensures err { IfErr result (λ stop. stop ≡ Stop.Fault Fault.Memory) }
{
    let number = u32::try_from(place).unwrap_or(u32::MAX);
    let curfew = one_more(&shared.curfew)?;
    let slow = one_more(&shared.slow)?;
    let share = &shared.threads[place % WORKER_THREADS as usize];
    Ok(Part {
        number,
        clock: HurriedClock::new(rt, curfew, slow, number),
        files: one_more(&share.files)?,
        buffer: one_more(&share.buffer)?,
    })
}

fn open_mailbox<'a, R, G>(
    rt: R,
    alloc: Global,
    access: Access<'a>,
    name: &'a [u8],
    part: Part<R>,
    log: G,
) -> Result<ServedMailbox<R, G>, Stop<'a>>
where
    R: Files + Clock + Copy + Drop,
    R::File: RangeLock + Writeback,
    G: Log + Drop,
    ensures ok { IfOk result (λ mailbox. held_as mailbox ≡ held_at access.entry name.entry) }
    ensures untold { IfOk result (λ mailbox. IsUntold mailbox) }
    ensures files { IfOk result (λ mailbox. files_of mailbox ≡ arc_value part.files) }
    ensures err { IfErr result (IsNotOpen access.entry name.entry) }
{
    let Part {
        number,
        clock,
        files,
        buffer,
    } = part;
    let file = unopened_file(rt, alloc, access, name, files, number)?;
    if let Err(reason) = file.look() {
        allow_unopened(access, name, &reason, &log)?;
    }
    let inner = mailbox_over(alloc, file, clock, access.wait, buffer)?;
    let observer = mailbox_log(alloc, name, log)?;
    Ok(Watched { inner, observer })
}

// A mailbox over that file, which locks wait that many seconds for.
fn mailbox_over<'a, R: Files + Clock + Copy + Drop>(
    alloc: Global,
    file: StdMailboxFile<R>,
    clock: HurriedClock<R>,
    wait: u32,
    buffer: Arc<SharedBuffer>,
) -> Result<WaitingMailbox<R>, Stop<'a>>
where
    R::File: RangeLock + Writeback,
    ensures file { IfOk result (λ mailbox. mailbox.file ≡ file) }
    ensures wait { IfOk result (λ mailbox. mailbox.wait ≡ wait) }
    ensures err { IfErr result (λ stop. stop ≡ Stop.Fault Fault.Memory) }
{
    let spool = match FileSpool::new(alloc, file, clock, wait, buffer) {
        Ok(spool) => spool,
        Err(_) => return Err(Stop::Fault(Fault::Memory)),
    };
    match BoxedSpool::new(alloc, spool) {
        Ok(mailbox) => Ok(mailbox),
        Err(_) => Err(Stop::Fault(Fault::Memory)),
    }
}

// It is looked at and not opened, since the owner of a file may have that wait: the first turn opens it, or makes it.
fn unopened_file<'a, R: Files + Clock + Copy + Drop>(
    rt: R,
    alloc: Global,
    access: Access<'a>,
    name: &'a [u8],
    files: Arc<ThreadFiles<R>>,
    number: u32,
) -> Result<StdMailboxFile<R>, Stop<'a>>
where
    R::File: RangeLock + Writeback,
    ensures path { IfOk result (λ file. file_path file ≡ path_at access.entry name.entry) }
    ensures mode { IfOk result (λ file. file_mode file ≡ Some access.entry.mode) }
    ensures files { IfOk result (λ file. file.system.shared ≡ files) }
    ensures err { IfErr result (λ stop. stop ≡ Stop.Fault Fault.Memory) }
{
    let path = match path_of(alloc, access, name) {
        Ok(path) => path,
        Err(_) => return Err(Stop::Fault(Fault::Memory)),
    };
    let path = path.as_str();
    match StdMailboxFile::unopened(rt, alloc, path, access.mode, files, number) {
        Ok(file) => Ok(file),
        Err(_) => Err(Stop::Fault(Fault::Memory)),
    }
}

// Whether a mailbox is had whose file can't be opened, of which the log says why.
fn allow_unopened<'a, G: Log>(
    access: Access<'a>,
    name: &'a [u8],
    reason: &io::Error,
    log: &G,
) -> Result<(), Stop<'a>>
    ensures { IfErr result (IsNotOpen access.entry name.entry) }
{
    if reason.kind() == ErrorKind::OutOfMemory {
        return Err(Stop::Fault(Fault::Memory));
    }
    let mailbox = printable(name);
    error!(log; target: "lmtpd", mailbox:%, reason:%; "cannot open");
    if !access.anyway {
        return Err(Stop::Unopened(name, access.suffix));
    }
    Ok(())
}

// The log of the mailbox of that name.
fn mailbox_log<'a, G: Log + Drop>(
    alloc: Global,
    name: &[u8],
    log: G,
) -> Result<MailboxLog<LogSink<G>>, Stop<'a>>
    ensures name { IfOk result (λ made. name_in made ≡ printable_text name.now) }
    ensures untold { IfOk result (λ made. turns_told made ≡ []) }
    ensures err { IfErr result (λ stop. stop ≡ Stop.Fault Fault.Memory) }
{
    let shown = printable(name);
    match format!(in alloc; "{shown}") {
        Ok(name) => Ok(MailboxLog::new(LogSink::new(log), name)),
        Err(_) => Err(Stop::Fault(Fault::Memory)),
    }
}

// What is shared, for one more mailbox.
fn one_more<'a, T: Drop>(shared: &Arc<T>) -> Result<Arc<T>, Stop<'a>>
    ensures same { IfOk result (λ more. arc_value more ≡ arc_value shared.now) }
    ensures err { IfErr result (λ stop. stop ≡ Stop.Fault Fault.Memory) }
{
    match Arc::try_clone(shared) {
        Ok(shared) => Ok(shared),
        Err(_) => Err(Stop::Fault(Fault::Memory)),
    }
}
