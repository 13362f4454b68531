//! The values that `clap` found for the words.

ghost use Rattle.std.specs.Prelude.{◌≡◌, ◌∷◌, [], codes, Some, IfOk, MatchOption};
ghost use Rattle.clap.specs.Words.{Text, all_of, first_of, found_of, one_of, rows_of, subcommand_rows_of};
ghost use Rattle.std.specs.Option.{option_map, option_map_or};
ghost use Rattle.lmtp_text.specs.Sites.{texts};
ghost use Rattle.lmtpd_words.specs.Words.{IsAsked, IsCheckRead, IsCopyRead, IsLimit, IsNumberOr, IsRehearseRead};
ghost use Rattle.lmtpd_words.specs.Words.{IsServeRead};
ghost use Rattle.lmtpd_words.specs.Words.{IsEmpty, IsModeOr, IsNoMode, IsNoPath, NamesPath, IsPathIfGiven, WritesMode};
ghost use Rattle.lmtpd_words.specs.Words.{IsFlag, IsLevel, IsNoLevel, IsNoNumber, IsSiteRead, octal};
ghost use Rattle.lmtpd_words.specs.Words.{IsDelimiterIfGiven, IsNoDelimiter, IsNoOverQuota, IsOverQuota};
ghost use Rattle.lmtpd_words.specs.Words.{IsMessageLimitOr, IsNoMessageLimit, usual_blocks};
ghost use Rattle.lmtpd_words.specs.Words.{IsLacking, LacksCheck, LacksCopied, LacksCopy, LacksNumber, LacksRehearse};
ghost use Rattle.lmtpd_words.specs.Words.{LacksServe, LacksSite};
ghost use Rattle.lmtpd_words.specs.Words.{is_log_level, number, listed};

use crate::quotas::BoxQuota;
use crate::suffix::suffix_of;
use crate::texts::{
    BAD_DELIMITER, BAD_FOLDER, BAD_LEVEL, BAD_MAILBOX_MODE, BAD_OVER_QUOTA, BAD_SOCKET_MODE,
    BAD_STOP_FILE, BAD_SUFFIX,
};
use crate::words::{
    CheckWords, CopyWords, DEFAULT_BAD_COMMANDS, DEFAULT_BLOCKS, DEFAULT_CAPACITY, DEFAULT_LANES,
    DEFAULT_LOCK_WAIT, DEFAULT_LOG, DEFAULT_MAILBOX_MODE, DEFAULT_READS, DEFAULT_SESSION_TIME,
    DEFAULT_SOCKET_MODE, DEFAULT_TIMEOUT, MODE_DIGIT_LIMIT, RehearseWords, ServeWords, SiteWords,
    Words,
};
use clap::ArgMatches;
use lmtp_text::is_delimiter;
use log::LevelFilter;
use mail_world::limits::{
    BLOCK_LIMIT, BLOCK_SIZE, LARGEST_MESSAGE_LIMIT, LEAST_MESSAGE_LIMIT, MESSAGE_LIMIT, MODE_LIMIT,
};
use std::alloc::{AllocError, Global};

/// What the subcommand asks for, and none where a value is missing, or a number, a path, the level or a mode is bad.
pub fn words_of<'a>(
    alloc: Global,
    matches: &ArgMatches<'a>,
) -> Result<Option<Words<'a>>, AllocError>
    ensures { let call = subcommand_rows_of matches.now in
        IfOk result (λ read. MatchOption read (IsLacking call) (IsAsked call)) }
{
    match matches.subcommand_matches("rehearse") {
        Some(rehearse) => match rehearse_words(alloc, rehearse)? {
            Some(read) => Ok(Some(Words::Rehearse(read))),
            None => Ok(None),
        },
        None => match matches.subcommand_matches("serve") {
            Some(serve) => match serve_words(alloc, serve)? {
                Some(read) => Ok(Some(Words::Serve(read))),
                None => Ok(None),
            },
            None => match matches.subcommand_matches("check") {
                Some(check) => match check_words(alloc, check)? {
                    Some(read) => Ok(Some(Words::Check(read))),
                    None => Ok(None),
                },
                None => Ok(copied_words_of(matches)),
            },
        },
    }
}

// What a copy asks for, where the subcommand is none of the others.
fn copied_words_of<'a>(matches: &ArgMatches<'a>) -> Option<Words<'a>>
    ensures { let call = subcommand_rows_of matches.now in MatchOption result (LacksCopied call) (IsAsked call) }
{
    match matches.subcommand_matches("copy") {
        Some(copy) => match copy_words(copy) {
            Some(read) => Some(Words::Copy(read)),
            None => None,
        },
        None => None,
    }
}

/// What is said where a value is refused that `clap` leaves to us: the folder comes first, then the stop file, then the
/// level, then the two modes, then the suffix, then the delimiter, and last what becomes of a copy over the quota, which
/// two a rehearsal has too.
pub fn refused_text(matches: &ArgMatches<'_>) -> &'static str {
    match matches.subcommand_matches("serve") {
        Some(serve) if folder_of(serve).is_none() => BAD_FOLDER,
        Some(serve) if stop_file_of(serve).is_none() => BAD_STOP_FILE,
        Some(serve) if log_of(serve).is_none() => BAD_LEVEL,
        Some(serve) if mailbox_mode_of(serve).is_none() => BAD_MAILBOX_MODE,
        Some(serve) if socket_mode_of(serve).is_none() => BAD_SOCKET_MODE,
        Some(serve) if suffix_of(serve).is_none() => BAD_SUFFIX,
        Some(serve) => refused_site_text(serve),
        None => match matches.subcommand_matches("rehearse") {
            Some(rehearse) => refused_site_text(rehearse),
            None => BAD_DELIMITER,
        },
    }
}

fn refused_site_text(matches: &ArgMatches<'_>) -> &'static str {
    if delimiter_of(matches).is_none() {
        BAD_DELIMITER
    } else {
        BAD_OVER_QUOTA
    }
}

fn rehearse_words<'a>(
    alloc: Global,
    matches: &ArgMatches<'a>,
) -> Result<Option<RehearseWords<'a>>, AllocError>
    ensures { let rows = rows_of (found_of matches.now) in
        IfOk result (λ read. MatchOption read (LacksRehearse rows) (IsRehearseRead rows)) }
{
    let Some(time) = number_of(matches, "time") else {
        return Ok(None);
    };
    let Some(site) = site_words(alloc, matches)? else {
        return Ok(None);
    };
    Ok(Some(RehearseWords {
        blocks: blocks_of(matches, 1, site.message_limit),
        site,
        time,
        quota: quota_of(matches),
    }))
}

fn serve_words<'a>(
    alloc: Global,
    matches: &ArgMatches<'a>,
) -> Result<Option<ServeWords<'a>>, AllocError>
    ensures { let rows = rows_of (found_of matches.now) in
        IfOk result (λ read. MatchOption read (LacksServe rows) (IsServeRead rows)) }
{
    let Some(listen) = matches.get_str("listen") else {
        return Ok(None);
    };
    let (Some(dir), Some(connections)) = (folder_of(matches), connections_of(matches)) else {
        return Ok(None);
    };
    let (Some(stop_file), Some(log)) = (stop_file_of(matches), log_of(matches)) else {
        return Ok(None);
    };
    let (Some(mailbox_mode), Some(socket_mode)) = (
        mailbox_mode_of(matches),
        socket_mode_of(matches),
    ) else {
        return Ok(None);
    };
    let Some(site) = site_words(alloc, matches)? else {
        return Ok(None);
    };
    let lanes = number_or(matches, "lanes", DEFAULT_LANES);
    Ok(Some(ServeWords {
        blocks: blocks_of(matches, lanes, site.message_limit),
        site,
        listen,
        dir,
        connections,
        lanes,
        capacity: number_or(matches, "capacity", DEFAULT_CAPACITY),
        reads: number_or(matches, "reads", DEFAULT_READS),
        timeout: number_or(matches, "timeout", DEFAULT_TIMEOUT),
        session_time: number_or(matches, "session-time", DEFAULT_SESSION_TIME),
        bad_commands: number_or(matches, "bad-commands", DEFAULT_BAD_COMMANDS),
        log,
        log_addresses: is_given(matches, "log-addresses"),
        quota: quota_of(matches),
        lock_wait: number_or(matches, "lock-wait", DEFAULT_LOCK_WAIT),
        mailbox_mode,
        socket_mode,
        stop_file,
        start_anyway: is_given(matches, "start-anyway"),
        check_words: is_given(matches, "check-words"),
    }))
}

fn check_words<'a>(
    alloc: Global,
    matches: &ArgMatches<'a>,
) -> Result<Option<CheckWords<'a>>, AllocError>
    ensures { let rows = rows_of (found_of matches.now) in
        IfOk result (λ read. MatchOption read (LacksCheck rows) (IsCheckRead rows)) }
{
    let Some(files) = matches.get_strs("file") else {
        return Ok(None);
    };
    let files = files.to_vec(alloc)?;
    Ok(Some(CheckWords { files }))
}

fn copy_words<'a>(matches: &ArgMatches<'a>) -> Option<CopyWords<'a>>
    ensures { let rows = rows_of (found_of matches.now) in MatchOption result (LacksCopy rows) (IsCopyRead rows) }
{
    let Some(file) = matches.get_str("file") else {
        return None;
    };
    let Some(to) = matches.get_str("to") else {
        return None;
    };
    Some(CopyWords { file, to })
}

fn site_words<'a>(
    alloc: Global,
    matches: &ArgMatches<'a>,
) -> Result<Option<SiteWords<'a>>, AllocError>
    ensures { let rows = rows_of (found_of matches.now) in
        IfOk result (λ read. MatchOption read (LacksSite rows) (IsSiteRead rows)) }
{
    let Some(host) = matches.get_str("host") else {
        return Ok(None);
    };
    let Some(message_limit) = message_limit_of(matches) else {
        return Ok(None);
    };
    let Some(recipient_delimiter) = delimiter_of(matches) else {
        return Ok(None);
    };
    let Some(mailbox_suffix) = suffix_of(matches) else {
        return Ok(None);
    };
    let Some(reject_over_quota) = over_quota_of(matches) else {
        return Ok(None);
    };
    let domains = domains_of(alloc, matches)?;
    let boxes = boxes_of(alloc, matches)?;
    let quotas = vec![in alloc; BoxQuota::Asked; boxes.len()]?;
    Ok(Some(SiteWords {
        host,
        domains,
        boxes_file: boxes_file_of(matches),
        listed: b"",
        boxes,
        quotas,
        message_limit,
        recipient_delimiter,
        rename_marks: is_given(matches, "rename-marks"),
        refuse_malformed: is_given(matches, "refuse-malformed"),
        smtputf8: is_given(matches, "smtputf8"),
        reject_over_quota,
        mailbox_suffix,
    }))
}

// The mailboxes that were given, if any were.
fn boxes_of<'a>(alloc: Global, matches: &ArgMatches<'a>) -> Result<Vec<&'a [u8]>, AllocError>
    ensures { let rows = rows_of (found_of matches.now) in
        IfOk result (λ v. texts v.items ≡ option_map_or (λ names. names) (all_of (codes "box") rows) []) }
{
    match matches.get_strs("box") {
        Some(names) => bytes_of(alloc, names),
        None => Ok(Vec::new(alloc)),
    }
}

// The bytes of each name.
fn bytes_of<'a>(alloc: Global, names: &[&'a str]) -> Result<Vec<&'a [u8]>, AllocError>
    ensures { IfOk result (λ v. texts v.items ≡ texts names.now) }
{
    let mut all = Vec::with_capacity(alloc, names.len())?;
    for name in names {
        all.push(name.as_bytes())?;
    }
    Ok(all)
}

fn boxes_file_of<'a>(matches: &ArgMatches<'a>) -> Option<&'a str>
    ensures { first_of (codes "boxes") (rows_of (found_of matches.now)) ≡ option_map (λ path. path.now) result }
{
    matches.get_str("boxes")
}

// The bytes that a message may have, as they were given, and else as many as usual; none where the number is too small
// or too large.
fn message_limit_of(matches: &ArgMatches<'_>) -> Option<u32>
    ensures { let given = one_of (codes "message-limit") (rows_of (found_of matches.now)) in
        MatchOption result (IsNoMessageLimit given) (IsMessageLimitOr given) }
{
    let limit = number_or(matches, "message-limit", MESSAGE_LIMIT);
    if limit < LEAST_MESSAGE_LIMIT {
        return None;
    }
    if limit > LARGEST_MESSAGE_LIMIT {
        return None;
    }
    Some(limit)
}

// The delimiter that was given; none at all where the text is no delimiter.
fn delimiter_of(matches: &ArgMatches<'_>) -> Option<Option<u8>>
    ensures { let given = first_of (codes "recipient-delimiter") (rows_of (found_of matches.now)) in
        MatchOption result (IsNoDelimiter given) (IsDelimiterIfGiven given) }
{
    match matches.get_str("recipient-delimiter") {
        Some(text) => Some(Some(delimiter_in(text)?)),
        None => Some(None),
    }
}

fn delimiter_in(text: &str) -> Option<u8>
    ensures { MatchOption result (IsNoDelimiter (Some text.now))
        (λ delimiter. IsDelimiterIfGiven (Some text.now) (Some delimiter)) }
{
    let [byte] = text.as_bytes() else {
        return None;
    };
    if !is_delimiter(*byte) {
        return None;
    }
    Some(*byte)
}

// Whether a copy over the quota is refused for good, and it isn't where nothing is said; none where the text says
// neither.
fn over_quota_of(matches: &ArgMatches<'_>) -> Option<bool>
    ensures { let given = first_of (codes "over-quota") (rows_of (found_of matches.now)) in
        MatchOption result (IsNoOverQuota given) (IsOverQuota given) }
{
    match matches.get_str("over-quota") {
        Some(text) => over_quota_in(text),
        None => Some(false),
    }
}

fn over_quota_in(text: &str) -> Option<bool>
    ensures { MatchOption result (IsNoOverQuota (Some text.now)) (IsOverQuota (Some text.now)) }
{
    match text {
        "defer" => Some(false),
        "reject" => Some(true),
        _ => None,
    }
}

// The blocks that were given, and else the usual ones for as many lanes and the limit of a message.
fn blocks_of(matches: &ArgMatches<'_>, lanes: u32, limit: u32) -> u32
    ensures { IsNumberOr (usual_blocks lanes limit) (one_of (codes "blocks") (rows_of (found_of matches.now))) result }
{
    number_or(matches, "blocks", usual_blocks(lanes, limit))
}

// The blocks where no number of them was given: a largest message for each lane has room in them, as far as there may
// be that many.
fn usual_blocks(lanes: u32, limit: u32) -> u32
    ensures { result ≡ usual_blocks lanes limit }
{
    let each = (u64::from(limit) + (BLOCK_SIZE as u64 - 1)) / BLOCK_SIZE as u64;
    let all = u64::from(lanes) * each;
    all.max(u64::from(DEFAULT_BLOCKS))
        .min(u64::from(BLOCK_LIMIT)) as u32
}

// The number that was given.
fn number_of(matches: &ArgMatches<'_>, name: &str) -> Option<u32>
    ensures { let rows = rows_of (found_of matches.now) in
        MatchOption result (LacksNumber name.now rows) (λ n. option_map number (one_of name.now rows) ≡ Some n) }
{
    matches.get_one::<u32>(name)
}

// The number that was given, and else the usual one.
fn number_or(matches: &ArgMatches<'_>, name: &str, usual: u32) -> u32
    ensures { IsNumberOr usual (one_of name.now (rows_of (found_of matches.now))) result }
{
    number_of(matches, name).unwrap_or(usual)
}

// The limit of bytes that was given, and none where none was.
fn quota_of(matches: &ArgMatches<'_>) -> Option<u64>
    ensures { IsLimit (one_of (codes "quota") (rows_of (found_of matches.now))) result }
{
    matches.get_one::<u64>("quota")
}

// The number of conversations that was given; none at all where the text writes no number.
fn connections_of(matches: &ArgMatches<'_>) -> Option<Option<u32>>
    ensures { let given = one_of (codes "connections") (rows_of (found_of matches.now)) in
        MatchOption result (IsNoNumber given) (λ n. option_map number given ≡ n) }
{
    matches.try_get_one::<u32>("connections").ok()
}

// The folder that was given; none where none was, or an empty text.
fn folder_of<'a>(matches: &ArgMatches<'a>) -> Option<&'a str>
    ensures { let given = first_of (codes "dir") (rows_of (found_of matches.now)) in
        MatchOption result (IsNoPath given) (λ folder. NamesPath given folder.now) }
{
    match matches.get_str("dir") {
        Some(text) => path_in(text),
        None => None,
    }
}

// The stop file that was given; none at all where an empty text was.
fn stop_file_of<'a>(matches: &ArgMatches<'a>) -> Option<Option<&'a str>>
    ensures { let given = first_of (codes "stop-file") (rows_of (found_of matches.now)) in
        MatchOption result (IsEmpty given) (λ path. IsPathIfGiven given (option_map (λ p. p.now) path)) }
{
    match matches.get_str("stop-file") {
        Some(text) => Some(Some(path_in(text)?)),
        None => Some(None),
    }
}

fn path_in(text: &str) -> Option<&str>
    ensures { MatchOption result (IsNoPath (Some text.now)) (λ path. NamesPath (Some text.now) path.now) }
{
    if text.is_empty() {
        return None;
    }
    Some(text)
}

// Whether that flag was given.
fn is_given(matches: &ArgMatches<'_>, name: &str) -> bool
    ensures { IsFlag (one_of name.now (rows_of (found_of matches.now))) result }
{
    matches.get_one::<bool>(name).unwrap_or(false)
}

// The level that was given, and else the usual one; none where the text names no level of ours.
fn log_of(matches: &ArgMatches<'_>) -> Option<LevelFilter>
    ensures { let given = first_of (codes "log") (rows_of (found_of matches.now)) in
        MatchOption result (IsNoLevel given) (IsLevel given) }
{
    match matches.get_str("log") {
        Some(name) => level_of(name),
        None => Some(DEFAULT_LOG),
    }
}

fn level_of(name: &str) -> Option<LevelFilter>
    ensures { MatchOption result (IsNoLevel (Some name.now)) (IsLevel (Some name.now)) }
{
    let level = name.parse::<LevelFilter>().ok()?;
    if is_log_level(level) {
        Some(level)
    } else {
        None
    }
}

// A server has lines of these alone.
fn is_log_level(level: LevelFilter) -> bool
    ensures { result ≡ is_log_level level }
{
    matches!(
        level,
        LevelFilter::Off | LevelFilter::Error | LevelFilter::Info
    )
}

fn mailbox_mode_of(matches: &ArgMatches<'_>) -> Option<u32>
    ensures { let given = first_of (codes "mailbox-mode") (rows_of (found_of matches.now)) in
        MatchOption result (IsNoMode given) (IsModeOr DEFAULT_MAILBOX_MODE given) }
{
    mode_or(matches, "mailbox-mode", DEFAULT_MAILBOX_MODE)
}

fn socket_mode_of(matches: &ArgMatches<'_>) -> Option<u32>
    ensures { let given = first_of (codes "socket-mode") (rows_of (found_of matches.now)) in
        MatchOption result (IsNoMode given) (IsModeOr DEFAULT_SOCKET_MODE given) }
{
    mode_or(matches, "socket-mode", DEFAULT_SOCKET_MODE)
}

// The permission bits that were given, and else the usual ones; none where the text writes none.
fn mode_or(matches: &ArgMatches<'_>, name: &str, usual: u32) -> Option<u32>
    ensures { let given = first_of name.now (rows_of (found_of matches.now)) in
        MatchOption result (IsNoMode given) (IsModeOr usual given) }
{
    match matches.get_str(name) {
        Some(text) => mode_in(text),
        None => Some(usual),
    }
}

// A sign is no digit, though the integers' own reading takes one.
fn mode_in(text: &str) -> Option<u32>
    ensures { MatchOption result (WritesMode text.now → ⊥) (λ mode. WritesMode text.now × (mode ≡ octal text.now)) }
{
    if text.len() > MODE_DIGIT_LIMIT || text.as_bytes().first() == Some(&b'+') {
        return None;
    }
    let mode = u32::from_str_radix(text, 8).ok()?;
    if mode <= MODE_LIMIT { Some(mode) } else { None }
}

fn domains_of<'a>(alloc: Global, matches: &ArgMatches<'a>) -> Result<Vec<&'a str>, AllocError>
    ensures { let rows = rows_of (found_of matches.now) in
        IfOk result (λ v. texts v.items ≡ option_map_or listed (first_of (codes "domains") rows) []) }
{
    match matches.get_str("domains") {
        Some(list) => domains_in(alloc, list),
        None => Ok(Vec::new(alloc)),
    }
}

fn domains_in<'a>(alloc: Global, list: &'a str) -> Result<Vec<&'a str>, AllocError>
    ensures { IfOk result (λ v. texts v.items ≡ listed list.entry.now) }
{
    list.split(',').collect(alloc)
}
