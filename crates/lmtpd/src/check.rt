//! The check of files that the program's words ask for, and what is said of it.

ghost use Rattle.std.specs.Prelude.{◌≡◌, ◌++◌, MatchResult, OnOk, OnErr};
ghost use Rattle.std.specs.Io.KnownBytes.{Appends};
ghost use Rattle.std.specs.List.{list_all};
ghost use Rattle.lmtpd.specs.Lacking.{check_fault, check_status};
ghost use Rattle.lmtpd.specs.Program.{IsCheckedAsAsked};
ghost use Rattle.lmtpd_setup.specs.Lines.{line_after};
ghost use Rattle.lmtpd_check.specs.Checked.{is_letters, unlocked_lines};
ghost use Rattle.lmtpd_output.specs.Output.{IsCutOff, IsListed};

use crate::lacking::check_fault;
use lmtpd_check::{Checked, Finding, check_files, write_unlocked_lines};
use lmtpd_output::WriteFault;
use lmtpd_setup::{Exit, Fault, write_fault};
use lmtpd_words::CheckWords;
use mbox_rd::RangeLock;
use std::fs::Files;
use std::io::Write;
use std::time::Clock;

/// Checks the files that the words name; `clock` is for the pauses while one is locked. Where that isn't done, nothing
/// was written, and the writer is gone.
pub fn check_asked<'a, P, C, W>(
    rt: &P,
    clock: &C,
    words: &CheckWords<'a>,
    writer: W,
) -> Result<Checked<'a, W>, Fault>
where
    P: AllocGlobal + Files,
    P::File: RangeLock,
    C: Clock,
    W: Write + Drop,
    ensures { MatchResult result
        (IsCheckedAsAsked P.File.remaining W.contents (W.contents writer) words.now)
        (λ fault. fault ≡ Fault.Memory) }
{
    let checked = check_files(rt, clock, rt.alloc(), &words.files, writer)?;
    Ok(checked)
}

/// Says on `error` which files were read without their lock and whether a write failed, and gives the status: what is
/// wrong with a file was said on its line.
pub fn report_checked<W, E: Write>(
    checked: &Checked<'_, W>,
    is_journal: bool,
    error: &mut E,
) -> Exit
    ensures status { result.status ≡ check_status checked.now.findings.items checked.now.cut }
    ensures lines { IsListed
        (unlocked_lines checked.now.unlocked.items ++ line_after is_journal (check_fault checked.now.cut))
        (E.contents error.old) (E.contents error.new) result.cut }
{
    Exit {
        status: check_status(&checked.findings, checked.cut),
        cut: write_lines(
            &checked.unlocked,
            check_fault(checked.cut),
            is_journal,
            error,
        )
        .is_err(),
    }
}

// Says both; after a fault of the writer nothing.
#[tactic(auto, using(crate::proofs::AfterLines::fails_after))]
fn write_lines<E: Write>(
    unlocked: &[&str],
    fault: Option<Fault>,
    is_journal: bool,
    error: &mut E,
) -> Result<(), WriteFault>
    ensures ok { OnOk result (Appends (E.contents error.old) (E.contents error.new)
        (unlocked_lines unlocked.now ++ line_after is_journal fault)) }
    ensures err { OnErr result (IsCutOff (E.contents error.old) (E.contents error.new)
        (unlocked_lines unlocked.now ++ line_after is_journal fault)) }
{
    write_unlocked_lines(error, unlocked)?;
    write_fault(fault, is_journal, error)
}

fn check_status(findings: &[Finding], cut: bool) -> u8
    ensures { result ≡ check_status findings.now cut }
{
    if !cut && are_letters(findings) { 0 } else { 1 }
}

// Whether each is a count of letters.
fn are_letters(findings: &[Finding]) -> bool
    ensures { result ≡ list_all is_letters findings.now }
{
    findings.iter().all(|finding| finding.is_letters())
}
