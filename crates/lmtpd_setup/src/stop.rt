//! Why the program ends before its work is done, and what it says then.

ghost use Rattle.std.specs.Prelude.{◌≡◌, ◌∷◌, ◌++◌, [], codes, false, OnOk, OnErr};
ghost use Rattle.std.specs.Io.KnownBytes.{Appends};
ghost use Rattle.clap.specs.Words.{kind_of};
ghost use Rattle.lmtpd_setup.specs.Faults.{listen_refusal, status_of, stop_for, stop_status, words_status};
ghost use Rattle.lmtpd_setup.specs.Lines.{line_after, mark, named_lines, status_after, stop_line, unopened_line};
ghost use Rattle.lmtpd_setup.specs.Lines.{unread_line};
ghost use Rattle.lmtpd_output.specs.Output.{IsCutOff, IsListed};
ghost use Rattle.mail_world.specs.Text.{lf};

use crate::fault::Fault;
use clap::Error;
use clap::error::ErrorKind;
use lmtpd_listen::ListenFault;
use lmtpd_output::{Urgent, WriteFault, priority_in, write_each};
use log::Level;
use std::io::Write;

/// How the program ends.
#[derive(Clone, Copy, PartialEq, Eq)]
pub struct Exit {
    pub status: u8,
    /// Whether a write to standard error failed; nothing was written after it.
    pub cut: bool,
}

/// Words that `clap` refuses or answers with help, a fault, a mailbox whose file can't be opened, alone or since its
/// folder can't be read, or a file of mailboxes that can't be read.
#[derive(Drop)]
pub enum Stop<'a> {
    Words(Error),
    Fault(Fault),
    /// A mailbox's name that can't be used, and the line of the log that says which.
    Name(Fault, String),
    /// The mailbox of this name, whose file has that suffix.
    Unopened(&'a [u8], &'a str),
    /// The mailbox of this name, whose file has that suffix, of a folder that isn't there or can't be read.
    NoFolder(&'a [u8], &'a str),
    /// The file at this path.
    Unread(&'a str),
}

impl From<Error> for Stop<'_> {
    ghost from_gives = { λ refused stop. stop ≡ stop_for refused };

    fn from(refused: Error) -> Self {
        if refused.kind() == ErrorKind::OutOfMemory {
            Stop::Fault(Fault::Memory)
        } else {
            Stop::Words(refused)
        }
    }
}

impl From<ListenFault> for Stop<'_> {
    ghost use Rattle.lmtpd_setup.specs.declared.stop.Stop.TheVariants as variant;

    ghost from_gives = { λ refused stop. stop ≡ variant.Fault (listen_refusal refused) };

    fn from(refused: ListenFault) -> Self {
        Stop::Fault(Fault::from(refused))
    }
}

impl From<Fault> for Stop<'_> {
    ghost use Rattle.lmtpd_setup.specs.declared.stop.Stop.TheVariants as variant;

    ghost from_gives = { λ fault stop. stop ≡ variant.Fault fault };

    fn from(fault: Fault) -> Self {
        Stop::Fault(fault)
    }
}

impl Stop<'_> {
    /// Says it on `error`, which may be the journal. What `clap` has to say is printed by `rt`, and dropped where it
    /// can't be.
    pub fn report<R: Print + Eprint, E: Write>(
        &self,
        rt: &R,
        is_journal: bool,
        error: &mut E,
    ) -> Exit
        ensures status { result.status ≡ stop_status self.now }
        ensures line { IsListed (stop_line is_journal self.now) (E.contents error.old) (E.contents error.new)
            result.cut }
    {
        match self {
            Stop::Words(refused) => print_refused(rt, is_journal, refused),
            Stop::Fault(fault) => report_fault(Some(*fault), is_journal, error),
            Stop::Name(fault, line) => report_name(*fault, line, is_journal, error),
            Stop::Unopened(name, suffix) | Stop::NoFolder(name, suffix) => {
                report_unopened(name, suffix, is_journal, error)
            }
            Stop::Unread(path) => report_unread(path, is_journal, error),
        }
    }
}

// Help goes where clap puts it; the journal gets an error's lines with their priority.
fn print_refused<R: Print + Eprint>(rt: &R, is_journal: bool, refused: &Error) -> Exit
    ensures status { result.status ≡ words_status (kind_of refused.now) }
    ensures whole { result.cut ≡ false }
{
    let status = words_status(refused.kind());
    let _ = if is_journal && status != 0 {
        rt.eprint(Urgent(refused))
    } else {
        refused.print(rt)
    };
    Exit { status, cut: false }
}

/// What stands before a line that ends the program.
pub fn mark(is_journal: bool) -> &'static str
    ensures { result.now ≡ mark is_journal }
{
    priority_in(is_journal, Level::Error)
}

fn report_name<E: Write>(fault: Fault, line: &str, is_journal: bool, error: &mut E) -> Exit
    ensures status { result.status ≡ status_of fault }
    ensures lines { IsListed (named_lines is_journal line.now fault) (E.contents error.old) (E.contents error.new)
        result.cut }
{
    Exit {
        status: fault.status(),
        cut: write_name(mark(is_journal), line, fault.text(), error).is_err(),
    }
}

fn write_name<E: Write>(mark: &str, line: &str, text: &str, error: &mut E) -> Result<(), WriteFault>
    ensures ok { OnOk result (Appends (E.contents error.old) (E.contents error.new)
        (mark.now ++ (line.now ++ (mark.now ++ (codes "lmtpd: " ++ text.now ++ (lf ∷ [])))))) }
    ensures err { OnErr result (IsCutOff (E.contents error.old) (E.contents error.new)
        (mark.now ++ (line.now ++ (mark.now ++ (codes "lmtpd: " ++ text.now ++ (lf ∷ [])))))) }
{
    let pieces: [&[u8]; 6] = [
        mark.as_bytes(),
        line.as_bytes(),
        mark.as_bytes(),
        b"lmtpd: ",
        text.as_bytes(),
        b"\n",
    ];
    write_each(error, &pieces)
}

/// Says on `error` what is lacking, if anything is, and gives the status.
pub fn report_fault<E: Write>(fault: Option<Fault>, is_journal: bool, error: &mut E) -> Exit
    ensures status { result.status ≡ status_after fault }
    ensures line { IsListed (line_after is_journal fault) (E.contents error.old) (E.contents error.new) result.cut }
{
    Exit {
        status: status_after(fault),
        cut: write_fault(fault, is_journal, error).is_err(),
    }
}

/// The status of a run that lacks this, if anything.
pub fn status_after(fault: Option<Fault>) -> u8
    ensures { result ≡ status_after fault }
{
    match fault {
        Some(fault) => fault.status(),
        None => 0,
    }
}

/// Says on `error` what is lacking, if anything is. After a fault of the writer it has gained a prefix of that line.
pub fn write_fault<E: Write>(
    fault: Option<Fault>,
    is_journal: bool,
    error: &mut E,
) -> Result<(), WriteFault>
    ensures ok { OnOk result (Appends (E.contents error.old) (E.contents error.new) (line_after is_journal fault)) }
    ensures err { OnErr result (IsCutOff (E.contents error.old) (E.contents error.new)
        (line_after is_journal fault)) }
{
    match fault {
        Some(fault) => {
            let pieces: [&[u8]; 4] = [
                mark(is_journal).as_bytes(),
                b"lmtpd: ",
                fault.text().as_bytes(),
                b"\n",
            ];
            write_each(error, &pieces)
        }
        None => Ok(()),
    }
}

fn report_unopened<E: Write>(name: &[u8], suffix: &str, is_journal: bool, error: &mut E) -> Exit
    ensures status { result.status ≡ 1 }
    ensures line { IsListed (unopened_line is_journal name.now suffix.now) (E.contents error.old) (E.contents error.new)
        result.cut }
{
    Exit {
        status: 1,
        cut: write_unopened(mark(is_journal), name, suffix, error).is_err(),
    }
}

fn write_unopened<E: Write>(
    mark: &str,
    name: &[u8],
    suffix: &str,
    error: &mut E,
) -> Result<(), WriteFault>
    ensures ok { OnOk result (Appends (E.contents error.old) (E.contents error.new)
        (mark.now ++ (codes "lmtpd: cannot open " ++ name.now ++ (suffix.now ++ (lf ∷ []))))) }
    ensures err { OnErr result (IsCutOff (E.contents error.old) (E.contents error.new)
        (mark.now ++ (codes "lmtpd: cannot open " ++ name.now ++ (suffix.now ++ (lf ∷ []))))) }
{
    let pieces: [&[u8]; 5] = [
        mark.as_bytes(),
        b"lmtpd: cannot open ",
        &name[..],
        suffix.as_bytes(),
        b"\n",
    ];
    write_each(error, &pieces)
}

fn report_unread<E: Write>(path: &str, is_journal: bool, error: &mut E) -> Exit
    ensures status { result.status ≡ 1 }
    ensures line { IsListed (unread_line is_journal path.now) (E.contents error.old) (E.contents error.new) result.cut }
{
    Exit {
        status: 1,
        cut: write_unread(mark(is_journal), path, error).is_err(),
    }
}

fn write_unread<E: Write>(mark: &str, path: &str, error: &mut E) -> Result<(), WriteFault>
    ensures ok { OnOk result (Appends (E.contents error.old) (E.contents error.new)
        (mark.now ++ (codes "lmtpd: cannot read " ++ path.now ++ (lf ∷ [])))) }
    ensures err { OnErr result (IsCutOff (E.contents error.old) (E.contents error.new)
        (mark.now ++ (codes "lmtpd: cannot read " ++ path.now ++ (lf ∷ [])))) }
{
    let pieces: [&[u8]; 4] = [
        mark.as_bytes(),
        b"lmtpd: cannot read ",
        path.as_bytes(),
        b"\n",
    ];
    write_each(error, &pieces)
}

fn words_status(kind: ErrorKind) -> u8
    ensures { result ≡ words_status kind }
{
    let shown = matches!(kind, ErrorKind::DisplayHelp | ErrorKind::DisplayVersion);
    if shown { 0 } else { 2 }
}
