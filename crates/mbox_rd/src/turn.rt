//! How a turn at a mailbox's file begins and ends: both locks are taken, on the file that the path names, and its end
//! is looked at again; what is to be cut is cut while both are held.
ghost use Rattle.std.specs.Prelude.{◌≡◌, ◌≤◌, ◌⊎◌, ◌-◌, [], true, false, IfOk, IfErr, OnOk, OnErr, OnSome};
ghost use Rattle.mail_world.specs.Failures.{Rises};
ghost use Rattle.mbox_file.specs.MailboxFile.{IsHeld};
ghost use Rattle.mbox_rd.specs.Turn.{HasBegun, HasMissed, HasTried, HasSeen, HasNotSeen, HasTakenLocks, HasLetGo};
ghost use Rattle.mbox_rd.specs.Turn.{HasCutBack, HasEndedTurn, IsBetweenTries, OpensFor, OpensAfter, OpensAfterTry};
ghost use Rattle.mbox_rd.specs.Turn.{IfSystem, IsOfFolder};
ghost use Rattle.mbox_rd.specs.Moments.{LeavesInTurn};
ghost use Rattle.mbox_rd.specs.Patience.{HasPaused, IsTimeOver, IsUnpaused, pauses_ms};

use crate::patience::Patience;
use mbox_file::{FileEnd, MailboxFile};
use mbox_spool::InUse;
use std::io;
use std::time::{Clock, Duration};

/// How many files are looked at in one try, where the path names another one each time.
const OPENINGS: usize = 4;

/// Where the look at one file, and the opening of the next, took so many seconds, no further one is looked at in this
/// try: whoever holds a lease on a file holds up each opening for as long as the system waits for him.
const LATE_SECONDS: u64 = 1;

const EPERM: i32 = 1;

const EACCES: i32 = 13;

const ENOSPC: i32 = 28;

const EROFS: i32 = 30;

const EDQUOT: i32 = 122;

/// Takes both locks as a turn does, on the file that the path names, which is only read. Other programs that have one
/// are waited for, that many seconds in all and 3,600 at most.
pub fn hold_locks<F: MailboxFile, C: Clock>(
    file: &mut F,
    clock: &C,
    seconds: u32,
) -> Result<FileEnd, InUse>
    ensures ok { IfOk result (HasBegun (F.state file.old) (F.state file.new)) }
    ensures err { OnErr result (HasMissed (F.state file.old) (F.state file.new)) }
    ensures opened { IfErr result (OpensAfter (F.state file.old) (F.state file.new)) }
{
    let mut patience = Patience::new();
    let tries = patience.tries(clock, seconds);
    wait_for_turn(file, clock, &mut patience, tries, false)
}

/// Opens what the path names, where that is asked for: after a turn that broke nothing of the open file is believed.
/// Where it can't be opened no lock file is left, as of a turn that is missed.
pub(crate) fn open_anew<F: MailboxFile>(file: &mut F, is_asked: bool) -> Result<(), InUse>
    ensures ok { OnOk result (IsBetweenTries (F.state file.old) (F.state file.new)) }
    ensures anew { is_asked ≡ true → OnOk result (Rises (F.state file.old).openings (F.state file.new).openings) }
    ensures err { OnErr result (HasMissed (F.state file.old) (F.state file.new)) }
    ensures unopened { OnErr result (Rises (F.state file.old).unopened (F.state file.new).unopened) }
    ensures opened { IfErr result (OpensAfter (F.state file.old) (F.state file.new)) }
{
    if !is_asked {
        return Ok(());
    }
    match file.reopen() {
        Ok(()) => Ok(()),
        Err(in_use) => {
            file.remove_lock_file();
            Err(in_use)
        }
    }
}

/// Tries for a turn that often, and pauses after each try that others' locks were in the way of, but the last, as long
/// as there is time. Where the file is written, the folder keeps its entry.
pub(crate) fn wait_for_turn<F: MailboxFile, C: Clock>(
    file: &mut F,
    clock: &C,
    patience: &mut Patience,
    tries: u64,
    is_written: bool,
) -> Result<FileEnd, InUse>
    requires unpaused { IsUnpaused patience.old }
    requires time { pauses_ms (tries - 1) ≤ 3_600_000 }
    ensures ok { IfOk result (HasBegun (F.state file.old) (F.state file.new)) }
    ensures entry { is_written ≡ true → OnOk result ((F.state file.new).has_entry ≡ true) }
    ensures err { OnErr result (HasMissed (F.state file.old) (F.state file.new)) }
    ensures opened { IfErr result (OpensAfter (F.state file.old) (F.state file.new)) }
    ensures paused { HasPaused patience.old patience.new tries }
    ensures given_up { IfErr result (λ in_use. in_use ≡ InUse.Locked
        → (patience.new.pauses ≡ tries - 1) ⊎ IsTimeOver patience.new) }
{
    for made in 0..tries.saturating_sub(1) {
        match begin_turn(file, clock, is_written) {
            Ok(end) => return Ok(end),
            Err(InUse::Locked) if patience.pause(clock, made) => {}
            Err(in_use) => return Err(in_use),
        }
    }
    begin_turn(file, clock, is_written)
}

// The path may name another file than the open one, which is then opened, and it is tried again, unless that took long.
fn begin_turn<F: MailboxFile, C: Clock>(
    file: &mut F,
    clock: &C,
    is_written: bool,
) -> Result<FileEnd, InUse>
    ensures ok { IfOk result (HasBegun (F.state file.old) (F.state file.new)) }
    ensures entry { is_written ≡ true → OnOk result ((F.state file.new).has_entry ≡ true) }
    ensures err { OnErr result (HasMissed (F.state file.old) (F.state file.new)) }
    ensures opened { IfErr result (OpensAfter (F.state file.old) (F.state file.new)) }
{
    for _ in 1..OPENINGS {
        let began = clock.monotonic();
        if let Some(end) = begin_or_reopen(file, is_written)? {
            return Ok(end);
        }
        if is_late(clock, began) {
            return Err(InUse::Locked);
        }
    }
    match begin_or_reopen(file, is_written)? {
        Some(end) => Ok(end),
        None => Err(InUse::Locked),
    }
}

// Whether seconds have passed since then. Where the clock tells no time none have.
fn is_late<C: Clock>(clock: &C, began: io::Result<Duration>) -> bool {
    match (began, clock.monotonic()) {
        (Ok(began), Ok(now)) => now.saturating_sub(began).as_secs() >= LATE_SECONDS,
        _ => false,
    }
}

// With both locks it is seen whether they are on the file that the path names. None: they weren't, and were given
// back, and that file is open now. Where the system refuses a lock, or the look, the open file may be why: what the
// path names is opened for the next try.
fn begin_or_reopen<F: MailboxFile>(file: &mut F, is_written: bool) -> Result<Option<FileEnd>, InUse>
    ensures ok { IfOk result (HasTried (F.state file.old) (F.state file.new)) }
    ensures entry { is_written ≡ true
        → IfOk result (λ seen. OnSome seen ((F.state file.new).has_entry ≡ true)) }
    ensures err { OnErr result (HasMissed (F.state file.old) (F.state file.new)) }
    ensures opened { IfErr result (OpensAfterTry (F.state file.old) (F.state file.new)) }
{
    take_locks(file)?;
    match own_end(file, is_written) {
        Ok(Some(end)) => Ok(Some(end)),
        Ok(None) => {
            let_go(file);
            file.reopen()?;
            Ok(None)
        }
        Err(in_use) => {
            let_go(file);
            open_for_next(file, in_use);
            Err(in_use)
        }
    }
}

// The lock file comes first, since a program that puts a new file in the place of the old one fails where it finds the
// new one's bytes locked for a moment. Where the second lock is refused the first is given back before anything is
// waited for, since others take them in the other order.
fn take_locks<F: MailboxFile>(file: &mut F) -> Result<(), InUse>
    ensures ok { OnOk result (HasTakenLocks (F.state file.old) (F.state file.new)) }
    ensures err { OnErr result (HasMissed (F.state file.old) (F.state file.new)) }
    ensures opened { IfErr result (OpensAfterTry (F.state file.old) (F.state file.new)) }
{
    if let Err(in_use) = file.try_lock_file() {
        if !is_of_folder(in_use) {
            open_for_next(file, in_use);
        }
        return Err(in_use);
    }
    match file.try_range_lock() {
        Ok(()) => Ok(()),
        Err(in_use) => {
            file.remove_lock_file();
            open_for_next(file, in_use);
            Err(in_use)
        }
    }
}

// Opens what the path names, where the system refused something: the open file may have gone bad.
fn open_for_next<F: MailboxFile>(file: &mut F, in_use: InUse)
    ensures { OpensFor (F.state file.old) (F.state file.new) in_use }
{
    if let InUse::System(_) = in_use {
        let _ = file.reopen();
    }
}

// Whether the folder takes no lock file, which says nothing of the open file: there is no right to it or no room, or
// its file system is only read.
fn is_of_folder(in_use: InUse) -> bool
    ensures { result ≡ true → IfSystem in_use IsOfFolder }
{
    match in_use {
        InUse::System(code) => is_folders(code),
        _ => false,
    }
}

fn is_folders(code: i32) -> bool
    ensures { result ≡ true → IsOfFolder code }
{
    code == EPERM || code == EACCES || code == ENOSPC || code == EROFS || code == EDQUOT
}

// The open file's end, if the path names it. Where the file is written, the folder keeps that entry.
fn own_end<F: MailboxFile>(file: &mut F, is_written: bool) -> Result<Option<FileEnd>, InUse>
    requires lock_file { (F.state file.old).has_lock_file ≡ true }
    requires range_lock { (F.state file.old).has_range_lock ≡ true }
    ensures ok { IfOk result (HasSeen (F.state file.old) (F.state file.new)) }
    ensures entry { is_written ≡ true
        → IfOk result (λ seen. OnSome seen ((F.state file.new).has_entry ≡ true)) }
    ensures err { OnErr result (HasNotSeen (F.state file.old) (F.state file.new)) }
{
    if !file.is_named()? {
        return Ok(None);
    }
    if is_written {
        file.keep_entry()?;
    }
    Ok(Some(file.end()?))
}

/// Gives both locks back.
pub fn let_go<F: MailboxFile>(file: &mut F)
    ensures { HasLetGo (F.state file.old) (F.state file.new) }
{
    file.remove_lock_file();
    file.unlock_range();
}

/// Ends a turn: where it broke the file is cut to its first bytes, then both locks are given back, and at last what was
/// lent for the turn. True: what is cut off, here or, as it says, before a turn that didn't break, may not be kept so.
pub(crate) fn end_turn<F: MailboxFile>(
    file: &mut F,
    is_broken: bool,
    size: u64,
    is_unsettled: bool,
) -> bool
    requires { IsHeld (F.state file.old) }
    ensures ended { HasEndedTurn (F.state file.old) (F.state file.new) is_broken size }
    ensures settled { (is_unsettled ≡ false → (F.state file.old).cut_off ≡ [])
        → result ≡ false → (F.state file.new).cut_off ≡ [] }
    ensures moments { LeavesInTurn size (F.state file.old).bytes (F.state file.old) (F.state file.new) }
{
    let is_unsettled = if is_broken {
        !cut_back(file, size)
    } else {
        is_unsettled
    };
    let_go(file);
    file.rest();
    is_unsettled
}

// Cuts the file to its first bytes, and has that kept. False: it may not be.
fn cut_back<F: MailboxFile>(file: &mut F, size: u64) -> bool
    requires { IsHeld (F.state file.old) }
    ensures cut { HasCutBack (F.state file.old) (F.state file.new) size }
    ensures settled { result ≡ true → (F.state file.new).cut_off ≡ [] }
    ensures moments { LeavesInTurn size (F.state file.old).bytes (F.state file.old) (F.state file.new) }
{
    file.cut(size).is_ok() && file.keep().is_ok()
}
