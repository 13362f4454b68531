//! What is asked of the folder of the mailboxes at the start, and what the log says of it.

ghost use Rattle.std.specs.Prelude.{◌≡◌, IfErr};
ghost use Rattle.lmtpd_setup.specs.Unopened.{AreNotOpen, IsNotOpen};

use crate::access::Access;
use crate::fault::Fault;
use crate::stop::Stop;
use libc::{PATH_MAX, W_OK};
use lmtpd_output::printable;
use log::{Log, error};
use std::fs::Files;
use std::io;
use std::io::ErrorKind;

/// Looks at the folder of these mailboxes. Where it can't be read none of them is had, and the log says so of the
/// first; where it can't be written the log says so.
pub fn look_at_folder<'a, R: Files, G: Log>(
    rt: &R,
    access: Access<'a>,
    names: &[&'a [u8]],
    log: &G,
) -> Result<(), Stop<'a>>
    ensures { IfErr result (AreNotOpen access.entry names.now) }
{
    match (rt.open_dir(access.folder), names.first()) {
        (Err(reason), Some(first)) => Err(unread(access, first, &reason, log)),
        _ => {
            tell_of_right(access.folder, log);
            Ok(())
        }
    }
}

// Says that the folder can't be read, and the first mailbox not be opened.
fn unread<'a, G: Log>(access: Access<'a>, first: &'a [u8], reason: &io::Error, log: &G) -> Stop<'a>
    ensures { IsNotOpen access.entry first.entry result }
{
    if reason.kind() == ErrorKind::OutOfMemory {
        return Stop::Fault(Fault::Memory);
    }
    let mailbox = printable(first);
    error!(log; target: "lmtpd", mailbox:%, reason:%; "cannot open");
    let folder = printable(access.folder.as_bytes());
    error!(log; target: "lmtpd", folder:%, reason:%; "cannot read the folder");
    if access.anyway {
        Stop::NoFolder(first, access.suffix)
    } else {
        Stop::Unopened(first, access.suffix)
    }
}

// Says it where lock files and mailboxes can't be made in the folder.
fn tell_of_right<G: Log>(path: &str, log: &G) {
    if let Err(reason) = ask_to_write(path) {
        let folder = printable(path.as_bytes());
        error!(log; target: "lmtpd", folder:%, reason:%; "cannot write the folder");
    }
}

// Whether this process may write what is at that path, for which nothing is made. It was opened, so that it is no
// longer than a path may be.
fn ask_to_write(path: &str) -> io::Result<()> {
    let size = path.len().min(PATH_MAX - 1);
    let mut text = [0; PATH_MAX];
    text[..size].copy_from_slice(&path.as_bytes()[..size]);
    text[PATH_MAX - 1] = 0;
    if unsafe { libc::access(&text, W_OK) } < 0 {
        return Err(io::Error::from_raw_os_error(os::errno()));
    }
    Ok(())
}
