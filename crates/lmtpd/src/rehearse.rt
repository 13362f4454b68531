//! The rehearsal that the program's words ask for.

ghost use Rattle.std.specs.Prelude.{MatchResult};
ghost use Rattle.lmtpd_setup.specs.Boxes.{IsFilled};
ghost use Rattle.lmtpd.specs.Program.{IsNotRehearsed, IsNotRehearsedFilled, IsRehearsedAsAsked, IsRehearsedFilled};
ghost use Rattle.lmtpd.specs.Program.{streams_of};

use crate::lacking::house_fault;
use lmtpd_rehearse::{Rehearsed, rehearse_run};
use lmtpd_setup::{Fault, Stop, fill, site_of};
use lmtpd_words::{COMMAND_LINE_BOX_LIMIT, RehearseWords};
use std::alloc::Global;
use std::fs::Files;
use std::io::{Read, Write};
use std::sync::{Arc, Wait};
use std::thread::Threads;

/// Holds the rehearsal on this reader and this writer, once the file of its mailboxes is read; `room` keeps the text of
/// that. Where there is none, they are gone.
pub fn rehearse_filled<'a, P, R, W, H>(
    rt: &P,
    threads: H,
    mut words: RehearseWords<'a>,
    room: &'a mut Vec<u8>,
    reader: R,
    writer: W,
) -> Result<Rehearsed<R, W>, Stop<'a>>
where
    P: AllocGlobal + Files,
    R: Read + Drop + Send + 'static,
    W: Write + Drop + Send + 'static,
    H: Threads + Wait + Copy + Send + 'static,
    ensures { MatchResult result (λ rehearsed. IsRehearsedFilled (IsFilled P.File.remaining) words.entry
        (streams_of R.remaining W.contents reader writer)
        (streams_of R.remaining W.contents rehearsed.reader rehearsed.writer) rehearsed.ending)
        (IsNotRehearsedFilled (IsFilled P.File.remaining) words.entry) }
{
    fill(rt, &mut words.site, room)?;
    match rehearse_asked(threads, rt.alloc(), &words, reader, writer) {
        Ok(rehearsed) => Ok(rehearsed),
        Err(fault) => Err(Stop::Fault(fault)),
    }
}

// The same, of words that name all mailboxes.
fn rehearse_asked<R, W, H>(
    rt: H,
    alloc: Global,
    words: &RehearseWords<'_>,
    reader: R,
    writer: W,
) -> Result<Rehearsed<R, W>, Fault>
where
    R: Read + Drop + Send + 'static,
    W: Write + Drop + Send + 'static,
    H: Threads + Wait + Copy + Send + 'static,
    ensures { MatchResult result (λ rehearsed. IsRehearsedAsAsked words.now
        (streams_of R.remaining W.contents reader writer)
        (streams_of R.remaining W.contents rehearsed.reader rehearsed.writer) rehearsed.ending)
        (IsNotRehearsed words.now) }
{
    let site = Arc::new(alloc, site_of(alloc, &words.site, COMMAND_LINE_BOX_LIMIT)?)?;
    let quotas = words.site.quotas_for(alloc, words.quota)?;
    let rehearsed = rehearse_run(
        rt,
        alloc,
        site,
        words.blocks,
        quotas,
        words.time,
        reader,
        writer,
    );
    match rehearsed {
        Ok(rehearsed) => Ok(rehearsed),
        Err(cause) => Err(house_fault(cause)),
    }
}
