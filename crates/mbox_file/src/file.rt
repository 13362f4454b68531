//! A file at a path, opened or made, and where it ends.
ghost use Rattle.std.specs.Prelude.{◌≡◌, ◌==◌, if◌then◌else◌, IfOk, IfSome, length, min};
ghost use Rattle.mail_world.specs.Endings.{Empty, OneLf, TwoLf, ending};
ghost use Rattle.mail_world.specs.Text.{lf};
ghost use Rattle.mbox_spool.specs.Tail.{ending_of};
ghost use Rattle.mbox_file.specs.Told.{IsEndBy, bytes_ending};

use mail_world::limits::TAIL_SIZE;
use mbox_spool::{Tail, tail_of, tail_of_last};
use std::fs::{File, Files, OpenFile, OpenOptions, Permissions};
use std::io;
use std::io::{ErrorKind, Read, Seek, SeekFrom};
use std::os::unix::fs::{OpenOptionsExt, PermissionsExt};

/// The permission bits of a file that is made: its owner reads and writes it, and nobody else.
pub const OWNER_ONLY: u32 = 0o600;

/// Opens the file at that path, or makes it with these permission bits.
pub(crate) fn open_or_make<R: Files>(rt: &R, path: &str, mode: u32) -> io::Result<R::File> {
    let made = OpenOptions::new()
        .read(true)
        .append(true)
        .create_new(true)
        .mode(mode)
        .open(rt, path);
    match made {
        Ok(file) => {
            if mode != OWNER_ONLY {
                // what the process's mask took away
                file.set_permissions(Permissions::from_mode(mode))?;
            }
            Ok(file)
        }
        Err(error) if error.kind() == ErrorKind::AlreadyExists => {
            OpenOptions::new().read(true).append(true).open(rt, path)
        }
        Err(error) => Err(error),
    }
}

/// Has the entries of the folder that holds that path kept through a crash.
pub fn sync_folder<R: Files>(rt: &R, path: &str) -> io::Result<()> {
    File::open(rt, folder_of(path))?.sync_all()
}

fn folder_of(path: &str) -> &str {
    match path.rsplit_once('/') {
        None => ".",
        Some(("", _)) => "/",
        Some((folder, _)) => folder,
    }
}

/// Where a file ends, and how.
#[derive(Clone, Copy, Debug, PartialEq, Eq)]
pub struct FileEnd {
    pub at: u64,
    pub tail: Tail,
}

/// Where a file ends, and how, and its last bytes by which that is known: the last two tell, and where the last of them
/// is no LF, the last TAIL_SIZE.
pub(crate) fn read_end<'a, F: Read + Seek>(
    file: &mut F,
    few: &'a mut [u8; 2],
    many: &'a mut [u8; TAIL_SIZE],
) -> io::Result<(FileEnd, &'a [u8])>
    ensures { IfOk result (λ read. IsEndBy read.1.now read.0) }
{
    let (at, last) = read_last_two(file, few)?;
    match tail_of_line(at, last) {
        Some(tail) => Ok((FileEnd { at, tail }, last)),
        None => read_torn(file, at, many),
    }
}

// How long a file is, and its last two bytes, or as many as it has. Where the last two begin tells how long it is.
fn read_last_two<'a, F: Read + Seek>(
    file: &mut F,
    few: &'a mut [u8; 2],
) -> io::Result<(u64, &'a [u8])>
    ensures { IfOk result (λ read. length read.1.now ≡ min read.0 2) }
{
    match file.seek(SeekFrom::End(-2)) {
        Ok(start) => {
            file.read_exact(few)?;
            Ok((start.saturating_add(2), few))
        }
        Err(error) if error.kind() == ErrorKind::InvalidInput => {
            let at = file.seek(SeekFrom::End(0))?;
            Ok((at, read_last(file, at, few)?))
        }
        Err(error) => Err(error),
    }
}

// How a file of that size ends whose last two bytes these are, if its last line has its LF.
#[tactic(auto, using(crate::proofs::Ends::after_lf))]
fn tail_of_line(at: u64, last: &[u8]) -> Option<Tail>
    requires { length last.now ≡ min at 2 }
    ensures { IfSome result (λ tail. ending_of tail ≡ ending (bytes_ending at last.now)) }
{
    match last {
        [] => Some(Tail::Empty),
        [byte] if *byte == b'\n' => Some(Tail::OneLf),
        [before, byte] if *byte == b'\n' => Some(tail_after_lf(*before)),
        [..] => None,
    }
}

// How bytes end whose last one is LF, after that one.
fn tail_after_lf(before: u8) -> Tail
    ensures { ending_of result ≡ if before == lf then TwoLf else OneLf }
{
    if before == b'\n' {
        Tail::TwoLf
    } else {
        Tail::OneLf
    }
}

// The end of a file of that size whose last line has no LF.
fn read_torn<'a, F: Read + Seek>(
    file: &mut F,
    at: u64,
    many: &'a mut [u8; TAIL_SIZE],
) -> io::Result<(FileEnd, &'a [u8])>
    ensures { IfOk result (λ read. IsEndBy read.1.now read.0) }
{
    let last = read_last(file, at, many)?;
    let tail = if at <= TAIL_SIZE as u64 {
        tail_of(last)
    } else {
        tail_of_last(last)
    };
    Ok((FileEnd { at, tail }, last))
}

// The last bytes of a file of that size, as many as there is room for.
fn read_last<'a, F: Read + Seek>(file: &mut F, at: u64, room: &'a mut [u8]) -> io::Result<&'a [u8]>
    ensures { IfOk result (λ last. length last.now ≡ min at (length room.old)) }
{
    let count = at.min(room.len() as u64);
    file.seek(SeekFrom::Start(at - count))?;
    let last = &mut room[..count as usize];
    file.read_exact(last)?;
    Ok(last)
}
