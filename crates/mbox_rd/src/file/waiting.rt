//! What a turn took and the file hasn't: how it is taken, written and kept.
ghost use Rattle.std.specs.Prelude.{◌≡◌, ◌≢◌, ◌<◌, ◌≤◌, ◌+◌, ℕ, [], ◌++◌, true, false, length, take};
ghost use Rattle.std.specs.Prelude.{IfErr, OnOk, OnErr};
ghost use Rattle.mbox_spool.specs.Lines.{HasLines};
ghost use Rattle.mbox_file.specs.MailboxFile.{IsHeld, HasAppended, HasNotAppended};
ghost use Rattle.mbox_rd.specs.FileSpool.{KeepsWritten, LosesPart};
ghost use Rattle.mbox_rd.specs.Moments.{LeavesInTurn};

use super::FileSpool;
use mbox_file::MailboxFile;
use mbox_spool::{Spool, SpoolFault};
use std::io;
use std::time::Clock;

impl<F: MailboxFile + Drop, C: Clock + Drop> FileSpool<F, C> {
    ghost use Rattle.mbox_file.specs.MailboxFile.{HasAppended, HasNotAppended};
    ghost use Rattle.mbox_rd.specs.FileSpool.{HasWritten, HasNotWritten, KeepsAll, HasLost, AddsLines, KnowsEnd};
    ghost use Rattle.mbox_rd.specs.FileSpool.{contents_of};

    // Puts as many bytes as may wait besides into the buffer; none: it is full.
    pub(super) fn take(&mut self, piece: &[u8]) -> usize
        requires some { 0 < length piece.now }
        requires turn { self.old.in_turn ≡ true }
        requires sound { self.old.has_failed ≡ false }
        ensures within { result ≤ length piece.now }
        ensures none { result ≡ 0 → self.new ≡ self.old }
        ensures some { 0 < result → self.new ≡ record self.old {
          waiting = self.old.waiting ++ take result piece.now;
          is_unsynced = true;
        } }
        ensures first { self.old.waiting ≡ [] → 0 < result }
        ensures ends { KnowsEnd F.state self.new }
    {
        let n = self.waiting.take(piece);
        if n > 0 {
            self.is_unsynced = true;
        }
        n
    }

    // Puts the lines of a piece into the buffer as they are written; none: for 64 bytes there is no room.
    pub(super) fn take_lines(&mut self, piece: &[u8]) -> usize
        requires lines { HasLines piece.now }
        requires turn { self.old.in_turn ≡ true }
        requires sound { self.old.has_failed ≡ false }
        ensures none { result ≡ 0 → self.new ≡ self.old }
        ensures some { 0 < result → self.new ≡ record self.old { waiting = self.new.waiting; is_unsynced = true } }
        ensures lines { 0 < result → AddsLines self.old.waiting self.new.waiting piece.now result }
        ensures ends { KnowsEnd F.state self.new }
    {
        let n = self.waiting.take_lines(piece);
        if n > 0 {
            self.is_unsynced = true;
        }
        n
    }

    // Writes what waits. How the file ends is known again after each write, and not after each piece; nobody knows it
    // where one failed.
    pub(super) fn write_waiting(&mut self) -> Result<(), SpoolFault>
        requires turn { self.old.in_turn ≡ true }
        requires settled { self.old.is_unsettled ≡ false }
        ensures ok { OnOk result (HasWritten self.old self.new) }
        ensures written { OnOk result (HasAppended (F.state self.old.file) (F.state self.new.file) self.old.waiting) }
        ensures err { OnErr result (HasNotWritten self.old self.new) }
        ensures failed { OnErr result
            (HasNotAppended (F.state self.old.file) (F.state self.new.file) self.old.waiting) }
        ensures reason { IfErr result (λ fault. fault ≢ SpoolFault.NoTurn) }
        ensures moments { LeavesInTurn self.old.began (contents_of F.state self.old)
            (F.state self.old.file) (F.state self.new.file) }
    {
        let tail = self.tail();
        match write_piece(&mut self.file, self.waiting.as_slice()) {
            Ok(()) => {
                self.waiting.begin_piece();
                self.tail = tail;
                Ok(())
            }
            Err(unwritten) => {
                self.has_failed = true;
                Err(SpoolFault::of(&unwritten))
            }
        }
    }

    // The same, and has all of the file kept.
    pub(super) fn keep_waiting(&mut self) -> Result<(), SpoolFault>
        requires turn { self.old.in_turn ≡ true }
        requires settled { self.old.is_unsettled ≡ false }
        ensures ok { OnOk result (HasWritten self.old self.new) }
        ensures kept { OnOk result (KeepsAll F.state self.old self.new) }
        ensures err { OnErr result (HasNotWritten self.old self.new) }
        ensures failed { OnErr result (HasLost F.state self.old self.new) }
        ensures reason { IfErr result (λ fault. fault ≢ SpoolFault.NoTurn) }
        ensures moments { LeavesInTurn self.old.began (contents_of F.state self.old)
            (F.state self.old.file) (F.state self.new.file) }
    {
        let end = self.tail();
        match write_and_keep(&mut self.file, self.waiting.as_slice()) {
            Ok(()) => {
                self.waiting.clear();
                self.tail = end;
                Ok(())
            }
            Err(unkept) => {
                self.has_failed = true;
                Err(SpoolFault::of(&unkept))
            }
        }
    }
}

// Has the system begin to write the piece to the disk, too, while the next one is put together.
fn write_piece<F: MailboxFile>(file: &mut F, piece: &[u8]) -> io::Result<()>
    requires held { IsHeld (F.state file.old) }
    requires settled { (F.state file.old).cut_off ≡ [] }
    ensures ok { OnOk result (HasAppended (F.state file.old) (F.state file.new) piece.now) }
    ensures err { OnErr result (HasNotAppended (F.state file.old) (F.state file.new) piece.now) }
{
    file.write(piece)?;
    file.begin_writeback(piece.len());
    Ok(())
}

fn write_and_keep<F: MailboxFile>(file: &mut F, bytes: &[u8]) -> io::Result<()>
    requires held { IsHeld (F.state file.old) }
    requires settled { (F.state file.old).cut_off ≡ [] }
    ensures kept { OnOk result (KeepsWritten (F.state file.old) (F.state file.new) bytes.now) }
    ensures lost { OnErr result (LosesPart (F.state file.old) (F.state file.new) bytes.now) }
    ensures moments { (began : ℕ)
        → LeavesInTurn began ((F.state file.old).bytes ++ bytes.now) (F.state file.old) (F.state file.new) }
{
    file.write(bytes)?;
    file.keep()
}
