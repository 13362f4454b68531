//! `lmtpd`, the last hop of a mail site: it speaks LMTP (RFC 2033) and delivers into mboxrd mailboxes.
//!
//! `run_program` does what the words ask for: here a rehearsal, a server, a check or a copy is run over what was made
//! ready for it, and faults become a line on standard error and a status. Nothing stands above it but the system; how
//! mail is served it never knows: that is done below.
#![tactic(auto)]

mod check;
mod copy;
mod lacking;
mod program;
mod rehearse;
mod serve;

use lmtpd_output::is_journal;
use lmtpd_setup::Stop;
use lmtpd_words::not_text;
use program::run_program;
use std::alloc::AllocError;
use std::process::ExitCode;
use std::{env, io};

// It hands on the words, room for the text of a file that they name, standard input, output and error, and ends with
// the status that it is given: that is all that no contract says of it. The lanes and workers start by a handle of
// their own, which threads may take.
fn main(rt: HostRuntime) -> ExitCode {
    let mut error = rt.stderr();
    let mut room = Vec::new(rt.alloc());
    let exit = match given_words(&rt) {
        Ok(words) => {
            let (reader, writer) = (rt.stdin(), rt.stdout());
            run_program(&rt, rt, &words, &mut room, reader, writer, &mut error).exit
        }
        Err(refused) => Stop::from(refused).report(&rt, is_journal(&rt), &mut error),
    };
    ExitCode::from(exit.status)
}

fn given_words(rt: &HostRuntime) -> Result<Vec<String>, clap::Error> {
    let alloc = rt.alloc();
    match env::args(rt) {
        Ok(given) => Ok(given.collect(alloc)?),
        Err(error) if error.kind() == io::ErrorKind::OutOfMemory => Err(AllocError.into()),
        Err(_) => Err(not_text(alloc)?),
    }
}
