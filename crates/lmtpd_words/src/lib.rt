//! What `lmtpd` is told: the words of its command line, the usual numbers, the version and the help, and the mailboxes
//! that a text lists, with their quotas.
//!
//! The program uses what `clap` took, the values in it, and the names and quotas of a text. It opens no file, and never
//! knows what is done with the words.
#![tactic(auto)]

mod arguments;
mod boxes;
mod command;
mod quotas;
mod reading;
mod suffix;
mod texts;
mod values;
mod words;

pub use boxes::{count_names, line_of_name};
pub use quotas::BoxQuota;
pub use reading::{not_text, read_words};
pub use words::{
    BOXES_FILE_LIMIT, COMMAND_LINE_BOX_LIMIT, CheckWords, CopyWords, DEFAULT_BAD_COMMANDS,
    DEFAULT_BLOCKS, DEFAULT_CAPACITY, DEFAULT_LANES, DEFAULT_LOCK_WAIT, DEFAULT_LOG,
    DEFAULT_MAILBOX_MODE, DEFAULT_READS, DEFAULT_SESSION_TIME, DEFAULT_SOCKET_MODE, DEFAULT_SUFFIX,
    DEFAULT_TIMEOUT, MODE_DIGIT_LIMIT, RehearseWords, SUFFIX_LIMIT, ServeWords, SiteWords, Words,
};
