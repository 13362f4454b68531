//! What a server has before it listens.

ghost use Rattle.std.specs.Prelude.{◌≡◌, length, map, None, IfOk, IfErr};
ghost use Rattle.std.specs.Arc.{arc_value};
ghost use Rattle.std.specs.List.{AllByRecursion};
ghost use Rattle.log.specs.Handle.{max_level};
ghost use Rattle.lmtpd_words.specs.Words.{serving_site};
ghost use Rattle.lmtpd_setup.specs.Curfew.{IsCurfewOf};
ghost use Rattle.lmtpd_setup.specs.Faults.{site_fault};
ghost use Rattle.lmtpd_setup.specs.Mailboxes.{IsUntold, held_as};
ghost use Rattle.lmtpd_setup.specs.Setup.{IsNotSetUp, access_asked, ends_asked, level_told, mailboxes_asked};
ghost use Rattle.lmtpd_setup.specs.Setup.{quotas_asked, told_level};

use crate::access::Access;
use crate::descriptors::limits_told;
use crate::ends::{Ends, ServerCurfew};
use crate::fault::Fault;
use crate::logger::{ServerLog, line_setting, server_log};
use crate::mailboxes::{ServedMailbox, Shared, open_mailboxes};
use crate::room::tell_of_room;
use crate::shares::share_each;
use crate::site::served_site;
use crate::stop::Stop;
use lmtp_text::Site;
use lmtpd_listen::Manager;
use lmtpd_log::{LineSetting, LogSink, MailboxSink};
use lmtpd_words::ServeWords;
use log::LevelFilter;
use mail_post::WORKER_THREADS;
use mbox_rd::{RangeLock, Writeback};
use slow_boxes::SlowBoxes;
use std::alloc::Global;
use std::env::Env;
use std::fs::Files;
use std::sync::Arc;
use std::time::Clock;

/// What a server has before it listens.
#[derive(Drop)]
pub struct ServerSetup<H>
where
    H: Files + Clock + Eprint + Copy + Drop,
    H::File: RangeLock + Writeback,
    LogSink<ServerLog<H>>: MailboxSink,
{
    pub site: Arc<Site>,
    /// By it the program says what it can't open.
    pub log: ServerLog<H>,
    /// Of the server, its conversations and its mailboxes.
    pub curfew: Arc<ServerCurfew<H>>,
    /// Which of its mailboxes hold up its lanes.
    pub slow: Arc<SlowBoxes>,
    /// One for each mailbox of the site, in its order, with its log beside it.
    pub spools: Vec<ServedMailbox<H, ServerLog<H>>>,
    /// The quota of each of them.
    pub quotas: Vec<Option<u64>>,
    /// What the lanes' logs have in common.
    pub logs: LineSetting<ServerLog<H>, H>,
}

/// Sets up the server that the words ask for: its site, and the files of its mailboxes, which are looked at, and neither
/// opened nor made. By `rt` it is seen whether standard error is the journal; `threads` is the handle that the server's
/// threads take.
pub fn set_up<'a, P, H>(
    rt: &P,
    threads: H,
    words: &ServeWords<'a>,
) -> Result<ServerSetup<H>, Stop<'a>>
where
    P: AllocGlobal + Files + Env,
    H::File: RangeLock + Writeback,
    H: Clock + Files + Eprint + Copy + Drop,
    ensures site { IfOk result (λ setup. arc_value setup.site ≡ serving_site words.now.site) }
    ensures sound { IfOk result (λ setup. site_fault words.now.site ≡ None) }
    ensures count { IfOk result (λ setup. length setup.spools.items ≡ length words.now.site.boxes.items) }
    ensures mailboxes { IfOk result (λ setup. map held_as setup.spools.items ≡ mailboxes_asked words.now) }
    ensures quotas { IfOk result (λ setup. setup.quotas.items ≡ quotas_asked words.now) }
    ensures untold { IfOk result (λ setup. AllByRecursion (λ mailbox. IsUntold mailbox) setup.spools.items) }
    ensures ends { IfOk result (λ setup. IsCurfewOf (ends_asked words.now) (arc_value setup.curfew)) }
    ensures level { IfOk result (λ setup. max_level setup.log ≡ told_level words.now) }
    ensures lines { IfOk result (λ setup. setup.logs.log ≡ setup.log) }
    ensures addresses { IfOk result (λ setup. setup.logs.addresses ≡ words.now.log_addresses) }
    ensures refused { IfErr result (IsNotSetUp words.now) }
{
    let alloc = rt.alloc();
    let site = served_site(alloc, words)?;
    let log = server_log(rt, threads, told_level(words));
    tell_of_room(words, &log);
    let limits = limits_told(words, &log);
    let access = access_asked(words);
    let boxes: &[&'a [u8]] = &words.site.boxes;
    let shared = Shared {
        curfew: shared_curfew(threads, log, alloc, words, Manager::named(rt))?,
        slow: shared_words(alloc, words)?,
        threads: share_each(threads, alloc, access, boxes, limits)?,
    };
    let spools = open_mailboxes(threads, alloc, access, boxes, &shared, log)?;
    let quotas = quotas_asked(alloc, words)?;
    let logs = line_setting(threads, log, words, &site)?;
    let Shared { curfew, slow, .. } = shared;
    Ok(ServerSetup {
        site,
        log,
        curfew,
        slow,
        spools,
        quotas,
        logs,
    })
}

// Up to which level it is logged: where the words alone are checked, what keeps a server from its start is said in any
// case.
fn told_level(words: &ServeWords<'_>) -> LevelFilter
    ensures { result ≡ told_level words.now }
{
    level_told(words.check_words, words.log)
}

fn level_told(checks_words: bool, asked: LevelFilter) -> LevelFilter
    ensures { result ≡ level_told checks_words asked }
{
    if checks_words && matches!(asked, LevelFilter::Off) {
        LevelFilter::Error
    } else {
        asked
    }
}

// How the mailboxes' files are had.
fn access_asked<'a>(words: &ServeWords<'a>) -> Access<'a>
    ensures { result ≡ access_asked words.now }
{
    Access {
        folder: words.dir,
        suffix: words.site.mailbox_suffix,
        wait: words.lock_wait,
        mode: words.mailbox_mode,
        anyway: words.start_anyway,
    }
}

// The quota of each mailbox.
fn quotas_asked(alloc: Global, words: &ServeWords<'_>) -> Result<Vec<Option<u64>>, Fault>
    ensures ok { IfOk result (λ quotas. quotas.items ≡ quotas_asked words.now) }
    ensures err { IfErr result (λ f. f ≡ Fault.Memory) }
{
    let quotas = words.site.quotas_for(alloc, words.quota)?;
    Ok(quotas)
}

// What ends the server and its conversations, for lanes and mailboxes to share.
fn shared_curfew<H: Drop>(
    threads: H,
    log: ServerLog<H>,
    alloc: Global,
    words: &ServeWords<'_>,
    manager: Option<Manager>,
) -> Result<Arc<ServerCurfew<H>>, Fault>
    ensures ends { IfOk result (λ curfew. IsCurfewOf (ends_asked words.now) (arc_value curfew)) }
    ensures err { IfErr result (λ f. f ≡ Fault.Memory) }
{
    let curfew = ServerCurfew::new(threads, log, alloc, ends_asked(words), manager)?;
    Ok(Arc::new(alloc, curfew)?)
}

// By what lanes and mailboxes know which of these are slow.
fn shared_words(alloc: Global, words: &ServeWords<'_>) -> Result<Arc<SlowBoxes>, Fault>
    ensures err { IfErr result (λ f. f ≡ Fault.Memory) }
{
    let boxes = words.site.boxes.len();
    let threads = boxes.min(WORKER_THREADS as usize);
    let slow = SlowBoxes::of_threads(alloc, words.lanes, boxes, threads)?;
    Ok(Arc::new(alloc, slow)?)
}

// What else ends the server, and a conversation.
fn ends_asked<'a>(words: &ServeWords<'a>) -> Ends<'a>
    ensures { result ≡ ends_asked words.now }
{
    Ends {
        stop_file: words.stop_file,
        session_time: words.session_time,
    }
}
