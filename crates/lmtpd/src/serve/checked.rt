//! The words of a server, which are tried and not followed.

ghost use Rattle.std.specs.Prelude.{◌≡◌, true, MatchResult};
ghost use Rattle.lmtp_house.specs.House.{IsSize};
ghost use Rattle.lmtpd.specs.Program.{AreServeWords, IsNotServed, sizes_asked};

use super::numbers::sizes_asked;
use lmtp_house::is_size;
use lmtp_text::Site;
use lmtpd_listen::listen_address_of;
use lmtpd_setup::{Fault, Stop, set_up, tell_of_sizes};
use lmtpd_words::ServeWords;
use log::Log;
use mbox_rd::{RangeLock, Writeback};
use std::env::Env;
use std::fs::Files;
use std::time::Clock;

/// Looks at all that a server looks at before it listens: the address, the site, the files of its mailboxes and their
/// folder, and its sizes. No mailbox is opened or made.
pub fn check_words<'a, P, H>(rt: &P, threads: H, words: &ServeWords<'a>) -> Result<(), Stop<'a>>
where
    P: AllocGlobal + Files + Env,
    H::File: RangeLock + Writeback,
    H: Clock + Files + Eprint + Copy + Drop,
    requires { words.now.check_words ≡ true }
    ensures { MatchResult result (λ _. AreServeWords words.now) (IsNotServed words.now) }
{
    listen_address_of(words.listen)?;
    let setup = set_up(rt, threads, words)?;
    look_at_sizes(words, &setup.site, setup.spools.len(), &setup.log)
}

// Whether a server of that many mailboxes may have the sizes of its words; where it may not the log says which.
fn look_at_sizes<'a, G: Log>(
    words: &ServeWords<'_>,
    site: &Site,
    boxes: usize,
    log: &G,
) -> Result<(), Stop<'a>>
    ensures { MatchResult result (λ _. IsSize site.now (sizes_asked words.now) words.now.lanes boxes boxes boxes)
        (λ stop. (stop ≡ Stop.Fault Fault.Size)
        × ¬ IsSize site.now (sizes_asked words.now) words.now.lanes boxes boxes boxes) }
{
    let sizes = sizes_asked(words);
    if is_size(site, sizes, words.lanes as usize, boxes, boxes, boxes) {
        Ok(())
    } else {
        tell_of_sizes(words, log);
        Err(Stop::Fault(Fault::Size))
    }
}
