//! A mailbox that is copied: both locks are taken, the copy is made, filled and kept, and the locks are given back.
ghost use Rattle.std.specs.Prelude.{◌≡◌, ◌<◌, Some, true, false, length, OnOk, OnErr};
ghost use Rattle.std.specs.Io.{ReadsAtMost};
ghost use Rattle.std.specs.Io.KnownBytes.{Appends, Keeps, ReadConsumes};
ghost use Rattle.mbox_file.specs.MailboxFile.{IsHeld};
ghost use Rattle.lmtpd_copy.specs.Copied.{Copies, IsCopied, IsFilled, IsFree, IsGone, IsMadeAndFilled};
ghost use Rattle.lmtpd_copy.specs.Copied.{StandsLocked, StaysLocked, StaysMade};
ghost use Rattle.lmtpd_copy.specs.Target.{HasMade, HasSamePath};
ghost use Rattle.mbox_rd.specs.Turn.{HasMissed};

use crate::fault::CopyFault;
use crate::target::CopyTarget;
use mbox_rd::{MailboxSource, hold_locks, let_go};
use std::time::{Clock, Duration};

/// How many seconds the locks are waited for.
const WAIT_SECONDS: u32 = 10;

/// After how many seconds the lock file's time is set anew, by which others judge whether it is left behind.
const RENEWAL_SECONDS: u64 = 30;

/// Copies the source under its locks into a target that isn't made yet, by pieces of at most the buffer's length. Where
/// that fails what was made is removed. The locks are given back.
pub fn copy_mailbox<F: MailboxSource, T: CopyTarget, C: Clock>(
    source: &mut F,
    target: &mut T,
    clock: &C,
    buffer: &mut [u8],
) -> Result<(), CopyFault>
    requires { 0 < length buffer.old }
    ensures copied { OnOk result (IsCopied F.is_known F.state F.unread T.tells T.state
        source.old source.new target.old target.new) }
    ensures free { OnErr result (IsFree (F.state source.old) (F.state source.new)) }
    ensures path { HasSamePath (T.state target.old) (T.state target.new) }
    ensures gone { T.tells ≡ true → (T.state target.old).is_made ≡ false
        → OnErr result (IsGone (T.state target.old) (T.state target.new)) }
{
    hold(source, clock)?;
    let copied = make_copy(source, target, clock, buffer);
    let_go(source);
    copied
}

// Under both locks.
fn make_copy<F: MailboxSource, T: CopyTarget, C: Clock>(
    source: &mut F,
    target: &mut T,
    clock: &C,
    buffer: &mut [u8],
) -> Result<(), CopyFault>
    requires room { 0 < length buffer.old }
    requires held { IsHeld (F.state source.old) }
    ensures filled { OnOk result (IsMadeAndFilled F.is_known F.state F.unread T.tells T.state
        source.old source.new target.old target.new) }
    ensures locked { StaysLocked (F.state source.old) (F.state source.new) }
    ensures path { HasSamePath (T.state target.old) (T.state target.new) }
    ensures gone { T.tells ≡ true → (T.state target.old).is_made ≡ false
        → OnErr result (IsGone (T.state target.old) (T.state target.new)) }
{
    make(target)?;
    match copy_and_keep(source, target, clock, buffer) {
        Ok(()) => Ok(()),
        Err(fault) => {
            target.remove();
            Err(fault)
        }
    }
}

#[tactic(auto, using(crate::proofs::Moving::locked_then, crate::proofs::Moving::made_then))]
fn copy_and_keep<F: MailboxSource, T: CopyTarget, C: Clock>(
    source: &mut F,
    target: &mut T,
    clock: &C,
    buffer: &mut [u8],
) -> Result<(), CopyFault>
    requires room { 0 < length buffer.old }
    requires held { IsHeld (F.state source.old) }
    ensures filled { OnOk result (IsFilled F.is_known F.state F.unread T.tells T.state
        source.old source.new (T.state target.old) target.new) }
    ensures locked { StaysLocked (F.state source.old) (F.state source.new) }
    ensures path { HasSamePath (T.state target.old) (T.state target.new) }
    ensures made { T.tells ≡ true → StaysMade (T.state target.old) (T.state target.new) }
{
    rewind(source)?;
    copy_all(source, target, clock, buffer)?;
    renew(source)?;
    keep(target)
}

// Writes to the target all that the source has left.
fn copy_all<F: MailboxSource, T: CopyTarget, C: Clock>(
    source: &mut F,
    target: &mut T,
    clock: &C,
    buffer: &mut [u8],
) -> Result<(), CopyFault>
    requires room { 0 < length buffer.old }
    requires held { IsHeld (F.state source.old) }
    ensures copied { OnOk result (Copies (F.unread source.old) (T.state target.old).bytes
        (T.state target.new).bytes) }
    ensures same { OnOk result (F.state source.new ≡ F.state source.old) }
    ensures locked { StaysLocked (F.state source.old) (F.state source.new) }
    ensures path { HasSamePath (T.state target.old) (T.state target.new) }
    ensures made { T.tells ≡ true → StaysMade (T.state target.old) (T.state target.new) }
{
    let mut renewed = now(clock);
    for _ in 0..u64::MAX {
        let size = read_some(source, buffer)?;
        if size == 0 {
            return Ok(());
        }
        write(target, &buffer[..size])?;
        renewed = renew_in_time(source, clock, renewed)?;
    }
    Err(CopyFault::Unread)
}

// Renews the lock file where that was done 30 seconds ago, and says when it was done last.
fn renew_in_time<F: MailboxSource, C: Clock>(
    source: &mut F,
    clock: &C,
    renewed: Duration,
) -> Result<Duration, CopyFault>
    ensures unread { F.unread source.new ≡ F.unread source.old }
    ensures same { OnOk result (F.state source.new ≡ F.state source.old) }
    ensures locked { StaysLocked (F.state source.old) (F.state source.new) }
{
    let now = now(clock);
    if now.saturating_sub(renewed).as_secs() < RENEWAL_SECONDS {
        return Ok(renewed);
    }
    renew(source)?;
    Ok(now)
}

fn now<C: Clock>(clock: &C) -> Duration {
    clock.monotonic().unwrap_or(Duration::ZERO)
}

fn hold<F: MailboxSource, C: Clock>(source: &mut F, clock: &C) -> Result<(), CopyFault>
    ensures ok { OnOk result (StandsLocked (F.state source.old) (F.state source.new)) }
    ensures err { OnErr result (HasMissed (F.state source.old) (F.state source.new)) }
{
    match hold_locks(source, clock, WAIT_SECONDS) {
        Ok(_) => Ok(()),
        Err(_) => Err(CopyFault::InUse),
    }
}

fn rewind<F: MailboxSource>(source: &mut F) -> Result<(), CopyFault>
    ensures same { OnOk result (F.state source.new ≡ F.state source.old) }
    ensures all { F.is_known ≡ true → OnOk result (F.unread source.new ≡ Some (F.state source.new).bytes) }
    ensures locked { StaysLocked (F.state source.old) (F.state source.new) }
{
    match source.rewind() {
        Ok(()) => Ok(()),
        Err(_) => Err(CopyFault::Unread),
    }
}

fn read_some<F: MailboxSource>(source: &mut F, buffer: &mut [u8]) -> Result<usize, CopyFault>
    requires { IsHeld (F.state source.old) }
    ensures bound { ReadsAtMost result buffer.new }
    ensures bytes { ReadConsumes (F.unread source.old) (F.unread source.new) result buffer.new }
    ensures same { OnOk result (F.state source.new ≡ F.state source.old) }
    ensures locked { StaysLocked (F.state source.old) (F.state source.new) }
{
    match source.read(buffer) {
        Ok(size) => Ok(size),
        Err(_) => Err(CopyFault::Unread),
    }
}

fn renew<F: MailboxSource>(source: &mut F) -> Result<(), CopyFault>
    ensures unread { F.unread source.new ≡ F.unread source.old }
    ensures same { OnOk result (F.state source.new ≡ F.state source.old) }
    ensures locked { StaysLocked (F.state source.old) (F.state source.new) }
{
    match source.renew_lock_file() {
        Ok(()) => Ok(()),
        Err(_) => Err(CopyFault::InUse),
    }
}

fn make<T: CopyTarget>(target: &mut T) -> Result<(), CopyFault>
    ensures path { HasSamePath (T.state target.old) (T.state target.new) }
    ensures fresh { T.tells ≡ true → OnOk result (HasMade (T.state target.old) (T.state target.new)) }
    ensures same { T.tells ≡ true → OnErr result (T.state target.new ≡ T.state target.old) }
{
    match target.make() {
        Ok(()) => Ok(()),
        Err(_) => Err(CopyFault::Unmade),
    }
}

fn write<T: CopyTarget>(target: &mut T, bytes: &[u8]) -> Result<(), CopyFault>
    ensures bytes { OnOk result (Appends (T.state target.old).bytes (T.state target.new).bytes bytes.now) }
    ensures path { HasSamePath (T.state target.old) (T.state target.new) }
    ensures made { T.tells ≡ true → StaysMade (T.state target.old) (T.state target.new) }
{
    match target.write(bytes) {
        Ok(()) => Ok(()),
        Err(_) => Err(CopyFault::Device),
    }
}

fn keep<T: CopyTarget>(target: &mut T) -> Result<(), CopyFault>
    ensures bytes { OnOk result (Keeps (T.state target.old).bytes (T.state target.new).bytes) }
    ensures kept { T.tells ≡ true → OnOk result ((T.state target.new).kept ≡ (T.state target.new).bytes) }
    ensures path { HasSamePath (T.state target.old) (T.state target.new) }
    ensures made { T.tells ≡ true → StaysMade (T.state target.old) (T.state target.new) }
{
    match target.keep() {
        Ok(()) => Ok(()),
        Err(_) => Err(CopyFault::Device),
    }
}
