//! The log of a server.

ghost use Rattle.std.specs.Prelude.{◌≡◌, IfErr, IfOk};
ghost use Rattle.log.specs.Handle.{max_level};

use crate::fault::Fault;
use lmtp_text::Site;
use lmtpd_log::LineSetting;
use lmtpd_output::{ErrorLines, is_journal};
use lmtpd_words::ServeWords;
use log::{LevelFilter, Logged};
use std::env::Env;
use std::fs::Files;
use std::io;
use std::sync::Arc;
use std::time::{Clock, Duration};

/// The log of the threads, on standard error.
pub type ServerLog<H> = Logged<H, ErrorLines<H>>;

/// The log of the threads, with lines up to that level. By `rt` it is seen whether standard error is the journal.
pub fn server_log<P: Files + Env, H: Copy>(rt: &P, threads: H, level: LevelFilter) -> ServerLog<H>
    ensures { max_level result ≡ level }
{
    let lines = ErrorLines::new(threads, is_journal(rt));
    Logged::new(threads, level, lines)
}

/// What the lanes' lines have in common: they name the mailboxes of the site, and when the server began, which is now;
/// they show addresses where the words say so.
pub fn line_setting<H: Clock + Copy>(
    threads: H,
    log: ServerLog<H>,
    words: &ServeWords<'_>,
    site: &Arc<Site>,
) -> Result<LineSetting<ServerLog<H>, H>, Fault>
    ensures memory { IfErr result (λ f. f ≡ Fault.Memory) }
    ensures log { IfOk result (λ setting. setting.log ≡ log) }
    ensures addresses { IfOk result (λ setting. setting.addresses ≡ words.now.log_addresses) }
{
    Ok(LineSetting {
        log,
        clock: threads,
        site: Arc::try_clone(site)?,
        start: microseconds(threads.since_1970()),
        addresses: words.log_addresses,
    })
}

// The microseconds of a time since 1970; 0 for a time before that.
fn microseconds(since: io::Result<Duration>) -> u64 {
    match since {
        Ok(time) => u64::try_from(time.as_micros()).unwrap_or(u64::MAX),
        Err(_) => 0,
    }
}
