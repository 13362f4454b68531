//! The arguments of the command line: a row for each, and the four subcommands' lists.

ghost use Rattle.std.specs.Prelude.{◌≡◌, false};
ghost use Rattle.clap.specs.Words.{rule_of};
ghost use Rattle.lmtpd_words.specs.Arguments.{argument_rule};

use clap::builder::ValueParser;
use clap::{Arg, ArgAction};
use mail_world::limits::{LARGEST_MESSAGE_LIMIT, LEAST_MESSAGE_LIMIT, LOCK_WAIT_LIMIT};
use std::alloc::Global;

/// What is given for an argument.
pub enum ValueKind {
    Text,
    /// A number in decimal within these bounds.
    Number { least: u32, most: u32 },
    /// A number of bytes in decimal, below 2^64.
    Bytes,
    /// One text, with no name before it.
    Bare,
    /// One text or more, with no name before them.
    Texts,
    /// Nothing: the name alone says it.
    Flag,
}

/// An argument of the command line.
pub struct Argument {
    pub name: &'static str,
    /// What help calls its value; of a flag it is empty, and not said.
    pub value: &'static str,
    pub help: &'static str,
    pub is_required: bool,
    pub kind: ValueKind,
}

impl Argument {
    /// The argument as `clap` takes it.
    pub fn arg<'a>(&self, alloc: Global) -> Arg<'a>
        ensures rule { rule_of result ≡ argument_rule self.now }
        ensures local { result.global ≡ false }
    {
        let arg = Arg::new(alloc, self.name)
            .required(self.is_required)
            .help(self.help);
        match self.kind {
            ValueKind::Text => arg.long(self.name).value_name(self.value),
            ValueKind::Number { least, most } => arg
                .long(self.name)
                .value_name(self.value)
                .value_parser(ValueParser::signed(i64::from(least), i64::from(most))),
            ValueKind::Bytes => arg
                .long(self.name)
                .value_name(self.value)
                .value_parser(ValueParser::unsigned(0, u64::MAX)),
            ValueKind::Bare => arg.value_name(self.value),
            ValueKind::Texts => arg.value_name(self.value).num_args(1..),
            ValueKind::Flag => arg.long(self.name).action(ArgAction::SetTrue),
        }
    }
}

/// What a rehearsal takes.
pub const REHEARSE: [Argument; 13] = [
    HOST,
    TIME,
    DOMAINS,
    RECIPIENT_DELIMITER,
    MESSAGE_LIMIT,
    RENAME_MARKS,
    REFUSE_MALFORMED,
    SMTPUTF8,
    BLOCKS,
    QUOTA,
    OVER_QUOTA,
    BOXES_FILE,
    BOXES,
];

/// What a server takes: what must be given, what may be, what ends it, and the mailboxes.
pub const SERVE: [Argument; 30] = [
    HOST,
    LISTEN,
    DIR,
    DOMAINS,
    RECIPIENT_DELIMITER,
    MESSAGE_LIMIT,
    RENAME_MARKS,
    REFUSE_MALFORMED,
    SMTPUTF8,
    LANES,
    BLOCKS,
    CAPACITY,
    READS,
    TIMEOUT,
    SESSION_TIME,
    BAD_COMMANDS,
    LOG,
    LOG_ADDRESSES,
    QUOTA,
    OVER_QUOTA,
    LOCK_WAIT,
    MAILBOX_SUFFIX,
    MAILBOX_MODE,
    SOCKET_MODE,
    CONNECTIONS,
    STOP_FILE,
    START_ANYWAY,
    CHECK_WORDS,
    BOXES_FILE,
    BOXES,
];

/// What a check takes.
pub const CHECK: [Argument; 1] = [FILES];

/// What a copy takes.
pub const COPY: [Argument; 2] = [COPIED_FILE, COPY_TO];

const SECONDS_OF_A_DAY: u32 = 86_400;

const HOST: Argument = Argument {
    name: "host",
    value: "HOST",
    help: "The name of this host, 1 to 255 letters, digits, - and .",
    is_required: true,
    kind: ValueKind::Text,
};

const LISTEN: Argument = Argument {
    name: "listen",
    value: "WHERE",
    help: "Where to listen: 127.0.0.1:2003 or [::1]:2003 (port 0: a free one; 25 is refused), unix:PATH, or inherited",
    is_required: true,
    kind: ValueKind::Text,
};

const DIR: Argument = Argument {
    name: "dir",
    value: "FOLDER",
    help: "The folder of the mailboxes, which must be there; each is a file of its own in it",
    is_required: true,
    kind: ValueKind::Text,
};

const TIME: Argument = Argument {
    name: "time",
    value: "SECONDS",
    help: "The moment of each delivery, in seconds since 1970, 0 to 4294967295",
    is_required: true,
    kind: ValueKind::Number {
        least: 0,
        most: u32::MAX,
    },
};

const DOMAINS: Argument = Argument {
    name: "domains",
    value: "DOMAIN,..",
    help: "Further domains that are served here, joined by commas, each as HOST, or * for any [default: none]",
    is_required: false,
    kind: ValueKind::Text,
};

const RECIPIENT_DELIMITER: Argument = Argument {
    name: "recipient-delimiter",
    value: "BYTE",
    help: "What parts user and detail of a recipient's address: +, -, =, # or ~ [default: none]",
    is_required: false,
    kind: ValueKind::Text,
};

const MESSAGE_LIMIT: Argument = Argument {
    name: "message-limit",
    value: "BYTES",
    help: "Bytes that a message may have, 65536 to 268435456 [default: 1048576]",
    is_required: false,
    kind: ValueKind::Number {
        least: LEAST_MESSAGE_LIMIT,
        most: LARGEST_MESSAGE_LIMIT,
    },
};

const RENAME_MARKS: Argument = Argument {
    name: "rename-marks",
    value: "",
    help: "Renames the fields of a message's head that readers of mailboxes take for their own, as Status, to X-Was-Status",
    is_required: false,
    kind: ValueKind::Flag,
};

const REFUSE_MALFORMED: Argument = Argument {
    name: "refuse-malformed",
    value: "",
    help: "Refuses messages with a NUL, a blank at their front, or a line above 8190 bytes (a CR that no LF follows is 7)",
    is_required: false,
    kind: ValueKind::Flag,
};

const SMTPUTF8: Argument = Argument {
    name: "smtputf8",
    value: "",
    help: "Offers SMTPUTF8: addresses may have characters beyond ASCII, in UTF-8",
    is_required: false,
    kind: ValueKind::Flag,
};

const LANES: Argument = Argument {
    name: "lanes",
    value: "LANES",
    help: "Conversations at once, 1 to 64 [default: 4]",
    is_required: false,
    kind: ValueKind::Number {
        least: 0,
        most: u32::MAX,
    },
};

const BLOCKS: Argument = Argument {
    name: "blocks",
    value: "BLOCKS",
    help: "Blocks of 4096 bytes for messages on their way, 1 to 65536 [default: a message a lane, 1024 at least]",
    is_required: false,
    kind: ValueKind::Number {
        least: 0,
        most: u32::MAX,
    },
};

const CAPACITY: Argument = Argument {
    name: "capacity",
    value: "COPIES",
    help: "Copies that wait for a mailbox, 1 to 1024 [default: 16]",
    is_required: false,
    kind: ValueKind::Number {
        least: 0,
        most: u32::MAX,
    },
};

const READS: Argument = Argument {
    name: "reads",
    value: "READS",
    help: "Reads after which a conversation is stopped, 1 to 4294967294 [default: 1000000]",
    is_required: false,
    kind: ValueKind::Number {
        least: 1,
        most: 4_294_967_294,
    },
};

const TIMEOUT: Argument = Argument {
    name: "timeout",
    value: "SECONDS",
    help: "How long a client may say nothing, or take nothing, 1 to 86400 [default: 300]",
    is_required: false,
    kind: ValueKind::Number {
        least: 1,
        most: SECONDS_OF_A_DAY,
    },
};

const SESSION_TIME: Argument = Argument {
    name: "session-time",
    value: "SECONDS",
    help: "How long a conversation may last in all, 1 to 86400 [default: 3600]",
    is_required: false,
    kind: ValueKind::Number {
        least: 1,
        most: SECONDS_OF_A_DAY,
    },
};

const BAD_COMMANDS: Argument = Argument {
    name: "bad-commands",
    value: "COUNT",
    help: "Bad commands without a message between them that stop a conversation, 1 to 1000000 [default: 200]",
    is_required: false,
    kind: ValueKind::Number {
        least: 1,
        most: 1_000_000,
    },
};

const LOG: Argument = Argument {
    name: "log",
    value: "LEVEL",
    help: "What is logged on standard error: off, error or info [default: off]",
    is_required: false,
    kind: ValueKind::Text,
};

const LOG_ADDRESSES: Argument = Argument {
    name: "log-addresses",
    value: "",
    help: "Has the log's lines at info show the addresses of senders and recipients",
    is_required: false,
    kind: ValueKind::Flag,
};

const QUOTA: Argument = Argument {
    name: "quota",
    value: "BYTES",
    help: "Bytes that a mailbox may hold, 0 to 18446744073709551615; a letter beyond is refused [default: no limit]",
    is_required: false,
    kind: ValueKind::Bytes,
};

const OVER_QUOTA: Argument = Argument {
    name: "over-quota",
    value: "WHAT",
    help: "What becomes of a copy over --quota: defer (the relay tries again) or reject (it bounces) [default: defer]",
    is_required: false,
    kind: ValueKind::Text,
};

const LOCK_WAIT: Argument = Argument {
    name: "lock-wait",
    value: "SECONDS",
    help: "How long a mailbox is waited for while other programs have it locked, 0 to 3600 [default: 10]",
    is_required: false,
    kind: ValueKind::Number {
        least: 0,
        most: LOCK_WAIT_LIMIT,
    },
};

const MAILBOX_SUFFIX: Argument = Argument {
    name: "mailbox-suffix",
    value: "SUFFIX",
    help: "What a mailbox's file has after its name: at most 32 letters, digits, ., _ and -, or none [default: .mbox]",
    is_required: false,
    kind: ValueKind::Text,
};

const MAILBOX_MODE: Argument = Argument {
    name: "mailbox-mode",
    value: "MODE",
    help: "The permission bits of a mailbox's file that is made, in octal, 0 to 0777 [default: 0600]",
    is_required: false,
    kind: ValueKind::Text,
};

const SOCKET_MODE: Argument = Argument {
    name: "socket-mode",
    value: "MODE",
    help: "The permission bits of the Unix socket that is made, in octal, 0 to 0777 [default: 0660]",
    is_required: false,
    kind: ValueKind::Text,
};

const CONNECTIONS: Argument = Argument {
    name: "connections",
    value: "N",
    help: "How many conversations are served before the program ends, 1 to 1000000 [default: no number ends it]",
    is_required: false,
    kind: ValueKind::Number {
        least: 1,
        most: 1_000_000,
    },
};

const STOP_FILE: Argument = Argument {
    name: "stop-file",
    value: "PATH",
    help: "The file that ends the server in order once it is there, also at the start [default: none]",
    is_required: false,
    kind: ValueKind::Text,
};

const START_ANYWAY: Argument = Argument {
    name: "start-anyway",
    value: "",
    help: "Starts where a mailbox's file can't be opened too: its copies are told 451 until it can be",
    is_required: false,
    kind: ValueKind::Flag,
};

const CHECK_WORDS: Argument = Argument {
    name: "check-words",
    value: "",
    help: "Reads all words and FILE, looks at sizes and folder, says what can't be used, and serves nothing",
    is_required: false,
    kind: ValueKind::Flag,
};

const BOXES_FILE: Argument = Argument {
    name: "boxes",
    value: "FILE",
    help: "A file of 16 MiB at most of further mailboxes, serve's up to 65536; names of up to 64, ', + and = too [default: none]",
    is_required: false,
    kind: ValueKind::Text,
};

const BOXES: Argument = Argument {
    name: "box",
    value: "BOX",
    help: "The mailboxes, 256 names at most of 1 to 32 of a to z, 0 to 9, -, _ and ., which doesn't begin a name",
    is_required: false,
    kind: ValueKind::Texts,
};

const FILES: Argument = Argument {
    name: "file",
    value: "FILE",
    help: "The mailbox files, of any size, which are read in this order",
    is_required: true,
    kind: ValueKind::Texts,
};

const COPIED_FILE: Argument = Argument {
    name: "file",
    value: "FILE",
    help: "The mailbox file, whosever it is; its locks are waited for for 10 seconds",
    is_required: true,
    kind: ValueKind::Bare,
};

const COPY_TO: Argument = Argument {
    name: "to",
    value: "TO",
    help: "The copy, which is made for its owner alone; nothing may be there of that name",
    is_required: true,
    kind: ValueKind::Bare,
};
