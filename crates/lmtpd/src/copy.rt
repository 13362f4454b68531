//! The copy of a mailbox that the program's words ask for, and what is said of it.

ghost use Rattle.std.specs.Prelude.{◌≡◌, ◌++◌, ◌∷◌, [], codes, OnOk, OnErr};
ghost use Rattle.std.specs.Io.KnownBytes.{Appends};
ghost use Rattle.mail_world.specs.Text.{lf};
ghost use Rattle.lmtpd_setup.specs.Lines.{mark};
ghost use Rattle.lmtpd_output.specs.Output.{IsCutOff, IsListed};
ghost use Rattle.lmtpd.specs.Copied.{IsCopiedAsAsked, copy_line, copy_status};

use lmtpd_copy::{CopyFault, CopyTarget, TargetFile, copy_file};
use lmtpd_output::{WriteFault, write_each};
use lmtpd_setup::{Exit, Fault, mark, write_fault};
use lmtpd_words::CopyWords;
use mbox_rd::{MailboxFile, MailboxSource, RangeLock, StdMailboxFile, Writeback};
use std::alloc::Global;
use std::fs::Files;
use std::io::Write;
use std::time::Clock;

/// A copy that was asked for, and why it isn't there, if it isn't.
#[derive(Drop)]
pub struct Copied<'a> {
    /// The mailbox's file, by its path.
    pub file: &'a str,
    /// Where the copy is.
    pub to: &'a str,
    pub fault: Option<CopyFault>,
}

/// Copies the file that the words name to where they say.
pub fn copy_asked<'a, R>(rt: R, alloc: Global, words: &CopyWords<'a>) -> Copied<'a>
where
    R: Files + Clock + Copy + Drop,
    R::File: RangeLock + Writeback,
    ensures { IsCopiedAsAsked (⟦<StdMailboxFile<R> as MailboxFile>⟧.state)
        (⟦<StdMailboxFile<R> as MailboxSource>⟧.unread) (⟦<TargetFile<'static, R> as CopyTarget>⟧.state)
        words.now result }
{
    let copied = copy_file(rt, alloc, words.file, words.to);
    Copied {
        file: words.file,
        to: words.to,
        fault: copied.err(),
    }
}

/// Says on `error`, which may be the journal, why there is no copy, if there is none, and gives the status.
pub fn report_copied<E: Write>(copied: &Copied<'_>, is_journal: bool, error: &mut E) -> Exit
    ensures status { result.status ≡ copy_status copied.now.fault }
    ensures line { IsListed (copy_line is_journal copied.now.file.now copied.now.to.now copied.now.fault)
        (E.contents error.old) (E.contents error.new) result.cut }
{
    Exit {
        status: copy_status(copied.fault),
        cut: write_copied(copied, is_journal, error).is_err(),
    }
}

fn copy_status(fault: Option<CopyFault>) -> u8
    ensures { result ≡ copy_status fault }
{
    match fault {
        None => 0,
        Some(_) => 1,
    }
}

fn write_copied<E: Write>(
    copied: &Copied<'_>,
    is_journal: bool,
    error: &mut E,
) -> Result<(), WriteFault>
    ensures ok { OnOk result (Appends (E.contents error.old) (E.contents error.new)
        (copy_line is_journal copied.now.file.now copied.now.to.now copied.now.fault)) }
    ensures err { OnErr result (IsCutOff (E.contents error.old) (E.contents error.new)
        (copy_line is_journal copied.now.file.now copied.now.to.now copied.now.fault)) }
{
    match copied.fault {
        None => Ok(()),
        Some(CopyFault::Memory) => write_fault(Some(Fault::Memory), is_journal, error),
        Some(CopyFault::Unread) => write_unread(mark(is_journal), copied.file, error),
        Some(CopyFault::InUse) => write_in_use(mark(is_journal), copied.file, error),
        Some(CopyFault::Unmade) => write_unmade(mark(is_journal), copied.to, error),
        Some(CopyFault::Device) => write_fault(Some(Fault::Device), is_journal, error),
    }
}

fn write_unread<E: Write>(mark: &str, path: &str, error: &mut E) -> Result<(), WriteFault>
    ensures ok { OnOk result (Appends (E.contents error.old) (E.contents error.new)
        (mark.now ++ (codes "lmtpd: cannot read " ++ path.now ++ (lf ∷ [])))) }
    ensures err { OnErr result (IsCutOff (E.contents error.old) (E.contents error.new)
        (mark.now ++ (codes "lmtpd: cannot read " ++ path.now ++ (lf ∷ [])))) }
{
    let pieces: [&[u8]; 4] = [
        mark.as_bytes(),
        b"lmtpd: cannot read ",
        path.as_bytes(),
        b"\n",
    ];
    write_each(error, &pieces)
}

fn write_in_use<E: Write>(mark: &str, path: &str, error: &mut E) -> Result<(), WriteFault>
    ensures ok { OnOk result (Appends (E.contents error.old) (E.contents error.new)
        (mark.now ++ (codes "lmtpd: " ++ path.now ++ (codes " in use" ++ (lf ∷ []))))) }
    ensures err { OnErr result (IsCutOff (E.contents error.old) (E.contents error.new)
        (mark.now ++ (codes "lmtpd: " ++ path.now ++ (codes " in use" ++ (lf ∷ []))))) }
{
    let pieces: [&[u8]; 4] = [mark.as_bytes(), b"lmtpd: ", path.as_bytes(), b" in use\n"];
    write_each(error, &pieces)
}

fn write_unmade<E: Write>(mark: &str, path: &str, error: &mut E) -> Result<(), WriteFault>
    ensures ok { OnOk result (Appends (E.contents error.old) (E.contents error.new)
        (mark.now ++ (codes "lmtpd: cannot make " ++ path.now ++ (lf ∷ [])))) }
    ensures err { OnErr result (IsCutOff (E.contents error.old) (E.contents error.new)
        (mark.now ++ (codes "lmtpd: cannot make " ++ path.now ++ (lf ∷ [])))) }
{
    let pieces: [&[u8]; 4] = [
        mark.as_bytes(),
        b"lmtpd: cannot make ",
        path.as_bytes(),
        b"\n",
    ];
    write_each(error, &pieces)
}
