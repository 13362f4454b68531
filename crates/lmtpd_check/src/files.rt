//! Files, read one after another; each has its line before the next is opened.

ghost use Rattle.std.specs.Prelude.{◌≡◌, ◌++◌, ◌∷◌, ◌<◌, ◌≤◌, [], if◌then◌else◌, length, vec_capacity, IfOk};
ghost use Rattle.lmtp_text.specs.Sites.{texts};
ghost use Rattle.lmtpd_check.specs.Checked.{IsChecked};

use crate::checked::{Checked, Finding};
use crate::lines::write_finding;
use crate::reader::check_file;
use mbox_locks::RangeLock;
use std::alloc::{AllocError, Global};
use std::fs::Files;
use std::io::Write;
use std::time::Clock;

/// The bytes that are read of a file at once.
const BUFFER_SIZE: usize = 65_536;

/// Reads the mailboxes in these files, in their order, and writes a line for each. A file that other programs have
/// locked is waited for by `clock`, for a second at most. All memory is taken before the first file is opened. Which
/// file a name means, what it holds and whether it is locked, nothing says.
pub fn check_files<'a, P: Files, C: Clock, W: Write + Drop>(
    rt: &P,
    clock: &C,
    alloc: Global,
    names: &[&'a str],
    mut writer: W,
) -> Result<Checked<'a, W>, AllocError>
where
    P::File: RangeLock,
    ensures { IfOk result (λ checked. IsChecked P.File.remaining (texts names.now)
        (W.contents writer) (W.contents checked.writer) checked.findings.items (texts checked.unlocked.items)
        checked.cut) }
{
    let mut findings = Vec::with_capacity(alloc, names.len())?;
    let mut unlocked = Vec::with_capacity(alloc, names.len())?;
    let mut buffer = vec![in alloc; 0u8; BUFFER_SIZE]?;
    let cut = check_each(
        rt,
        clock,
        names,
        &mut buffer,
        &mut writer,
        &mut findings,
        &mut unlocked,
    );
    Ok(Checked {
        writer,
        findings,
        unlocked,
        cut,
    })
}

// Reads the files up to the first whose line isn't written, and says whether there is one.
fn check_each<'a, P: Files, C: Clock, W: Write>(
    rt: &P,
    clock: &C,
    names: &[&'a str],
    buffer: &mut [u8],
    writer: &mut W,
    findings: &mut Vec<Finding>,
    unlocked: &mut Vec<&'a str>,
) -> bool
where
    P::File: RangeLock,
    requires buffer { 0 < length buffer.old }
    requires empty { findings.old.items ≡ [] }
    requires all_locked { unlocked.old.items ≡ [] }
    requires room { length names.now ≤ vec_capacity findings.old }
    requires unlocked_room { length names.now ≤ vec_capacity unlocked.old }
    ensures { IsChecked P.File.remaining (texts names.now) (W.contents writer.old) (W.contents writer.new)
        findings.new.items (texts unlocked.new.items) result }
{
    for name in names {
        let reading = check_file(rt, clock, name, buffer);
        findings.push_reserved(reading.finding);
        keep_if(reading.is_unlocked, name, unlocked);
        if write_finding(writer, name, reading.finding).is_err() {
            return true;
        }
    }
    false
}

fn keep_if<'a>(is_kept: bool, name: &'a str, kept: &mut Vec<&'a str>)
    requires { length kept.old.items < vec_capacity kept.old }
    ensures items { kept.new.items ≡ (if is_kept then kept.old.items ++ name.entry ∷ [] else kept.old.items) }
    ensures capacity { vec_capacity kept.new ≡ vec_capacity kept.old }
{
    if is_kept {
        kept.push_reserved(name);
    }
}
