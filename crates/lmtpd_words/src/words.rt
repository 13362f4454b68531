//! What the words ask for, and the numbers and the level where they name none.

ghost use Rattle.std.specs.Prelude.{◌≡◌, length, true};
ghost use Rattle.std.specs.Option.{option_map_or};
ghost use Rattle.mail_world.specs.Site.{IsMessageLimit, is_delimiter};

use crate::quotas::BoxQuota;
use log::LevelFilter;

/// The least blocks for messages on their way where the words name no number of them.
pub const DEFAULT_BLOCKS: u32 = 1_024;

/// The conversations that a server holds at once.
pub const DEFAULT_LANES: u32 = 4;

/// The copies that wait for a mailbox.
pub const DEFAULT_CAPACITY: u32 = 16;

/// The reads after which a conversation is stopped.
pub const DEFAULT_READS: u32 = 1_000_000;

/// The seconds that a client may be silent.
pub const DEFAULT_TIMEOUT: u32 = 300;

/// The seconds that a conversation may last in all.
pub const DEFAULT_SESSION_TIME: u32 = 3_600;

/// The bad commands, without a message between them, after which a conversation is stopped.
pub const DEFAULT_BAD_COMMANDS: u32 = 200;

/// What is logged.
pub const DEFAULT_LOG: LevelFilter = LevelFilter::Off;

/// The seconds that a turn at a mailbox is waited for.
pub const DEFAULT_LOCK_WAIT: u32 = 10;

/// The permission bits of a mailbox's file that is made: its owner reads and writes it, and nobody else.
pub const DEFAULT_MAILBOX_MODE: u32 = 0o600;

/// The permission bits of a Unix socket that is made: its owner and its group connect, and nobody else.
pub const DEFAULT_SOCKET_MODE: u32 = 0o660;

/// What a mailbox's file has after its name.
pub const DEFAULT_SUFFIX: &str = ".mbox";

/// The bytes that a mailbox's file may have after its name.
pub const SUFFIX_LIMIT: usize = 32;

/// The octal digits that write permission bits.
pub const MODE_DIGIT_LIMIT: usize = 4;

/// The bytes that a file which lists mailboxes may have.
pub const BOXES_FILE_LIMIT: usize = 16_777_216;

/// The mailboxes that words may name themselves, and those of a rehearsal, with those of a file.
pub const COMMAND_LINE_BOX_LIMIT: usize = 256;

/// The site that the words name.
#[derive(Drop)]
pub struct SiteWords<'a> {
    pub host: &'a str,
    pub domains: Vec<&'a str>,
    /// The file that lists further mailboxes, by its path, if there is one.
    pub boxes_file: Option<&'a str>,
    /// The text of that file, once it was read, and before that an empty one.
    pub listed: &'a [u8],
    /// The names as they were given, which may be no text, and then those of the file.
    pub boxes: Vec<&'a [u8]>,
    /// What is said of the quota of each of them, in the same order: of those of the words nothing.
    pub quotas: Vec<BoxQuota>,
    ghost matched: { length quotas.items ≡ length boxes.items },
    /// How many bytes a message may have.
    pub message_limit: u32,
    ghost limited: { IsMessageLimit message_limit },
    /// The byte that parts user and detail of a recipient's address, if one does.
    pub recipient_delimiter: Option<u8>,
    ghost parted: { option_map_or is_delimiter recipient_delimiter true ≡ true },
    /// Records have the marks in a message's head renamed.
    pub rename_marks: bool,
    /// Malformed messages are refused.
    pub refuse_malformed: bool,
    /// Addresses may be in UTF-8 (RFC 6531).
    pub smtputf8: bool,
    /// A copy over the quota is refused for good, and not put off.
    pub reject_over_quota: bool,
    /// What a mailbox's file has after its name; a rehearsal has no files, and the usual suffix.
    pub mailbox_suffix: &'a str,
}

/// What a rehearsal is asked to do.
#[derive(Drop)]
pub struct RehearseWords<'a> {
    pub site: SiteWords<'a>,
    /// The moment of each delivery, in seconds since 1970.
    pub time: u32,
    /// The blocks for messages on their way.
    pub blocks: u32,
    /// The bytes that a mailbox may hold, if there is a limit.
    pub quota: Option<u64>,
}

/// What a server is asked to do.
#[derive(Drop)]
pub struct ServeWords<'a> {
    pub site: SiteWords<'a>,
    /// Where to listen, in text: an address and port, `unix:` and a path, or `inherited`.
    pub listen: &'a str,
    /// The folder of the mailboxes.
    pub dir: &'a str,
    /// The conversations after which the server ends, if it ends after any number.
    pub connections: Option<u32>,
    /// The conversations that are held at once.
    pub lanes: u32,
    /// The blocks for messages on their way.
    pub blocks: u32,
    /// The copies that wait for a mailbox.
    pub capacity: u32,
    /// The reads after which a conversation is stopped.
    pub reads: u32,
    /// The seconds that a client may be silent.
    pub timeout: u32,
    /// The seconds that a conversation may last in all.
    pub session_time: u32,
    /// The bad commands, without a message between them, after which a conversation is stopped.
    pub bad_commands: u32,
    /// What is logged.
    pub log: LevelFilter,
    /// The log shows the addresses of senders and recipients.
    pub log_addresses: bool,
    /// The bytes that a mailbox may hold, if there is a limit.
    pub quota: Option<u64>,
    /// The seconds that a turn at a mailbox is waited for.
    pub lock_wait: u32,
    /// The permission bits of a mailbox's file that is made.
    pub mailbox_mode: u32,
    /// The permission bits of the Unix socket that is made.
    pub socket_mode: u32,
    /// The file that ends the server in order once it is there, if there is one.
    pub stop_file: Option<&'a str>,
    /// The server starts though the file of a mailbox can't be opened.
    pub start_anyway: bool,
    /// The words alone are checked, and nothing is served.
    pub check_words: bool,
}

/// What a check is asked to do.
#[derive(Drop)]
pub struct CheckWords<'a> {
    /// The mailbox files, by their paths.
    pub files: Vec<&'a str>,
}

/// What a copy is asked to do.
#[derive(Drop)]
pub struct CopyWords<'a> {
    /// The mailbox's file, by its path.
    pub file: &'a str,
    /// The path at which the copy is made.
    pub to: &'a str,
}

/// What the program is asked to do.
#[derive(Drop)]
pub enum Words<'a> {
    Rehearse(RehearseWords<'a>),
    Serve(ServeWords<'a>),
    Check(CheckWords<'a>),
    Copy(CopyWords<'a>),
}
