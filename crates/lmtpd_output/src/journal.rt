//! Whether standard error is the journal's.

ghost use Rattle.std.specs.Prelude.{◌≡◌, ◌≢◌, ◌↔◌, ◌++◌, ℕ, List, MatchOption, IsTrue};
ghost use Rattle.lmtpd_output.specs.Journal.{stream_name};

use itoa::Buffer;
use std::env::Env;
use std::fs;
use std::fs::Files;
use std::os::unix::fs::MetadataExt;

/// Where systemd names the stream that it made for standard error (systemd.exec(5)).
const NAMED_IN: &str = "JOURNAL_STREAM";

/// As many bytes as two numbers of 64 bits and a colon have.
const NAME_SIZE: usize = 41;

const STANDARD_ERROR: &str = "/proc/self/fd/2";

/// Whether standard error is the stream to the journal that the environment names.
pub fn is_journal<R: Files + Env>(rt: &R) -> bool {
    let mut name = [0; NAME_SIZE];
    let Ok(size) = rt.var(NAMED_IN, &mut name) else {
        return false;
    };
    match fs::metadata(rt, STANDARD_ERROR) {
        Ok(found) => names_stream(&name[..size], found.dev(), found.ino()),
        Err(_) => false,
    }
}

/// Whether the text is `DEVICE:INODE`, both in decimal, of that device and inode.
pub fn names_stream(text: &[u8], device: u64, inode: u64) -> bool
    ensures { IsTrue result ↔ (text.now ≡ stream_name device inode) }
{
    let mut first = Buffer::new();
    let mut second = Buffer::new();
    match after(text, first.format(device).as_bytes()) {
        Some(rest) => match after(rest, b":") {
            Some(rest) => rest == second.format(inode).as_bytes(),
            None => false,
        },
        None => false,
    }
}

// What stands after the part, where the text begins with it.
fn after<'a>(text: &'a [u8], part: &[u8]) -> Option<&'a [u8]>
    ensures { MatchOption result ((rest : List ℕ) → text.now ≢ part.now ++ rest)
        (λ rest. text.now ≡ part.now ++ rest.now) }
{
    text.strip_prefix(part)
}
