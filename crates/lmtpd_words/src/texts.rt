//! The version, the errors that `clap` leaves to us, and what help says after the words: examples, and what each exit
//! status means.

/// The program's version, and the toolchain that proves it, as `rt version` names it: `make toolchain` writes it here.
pub const VERSION: &str = "0.1.0 (rattle-kit-13f, logic dac8208d650f15bf)";

/// The error for a bad folder.
pub const BAD_FOLDER: &str =
    "invalid value for '--dir <FOLDER>': it is the path of a folder, and not empty";

/// The error for a bad level.
pub const BAD_LEVEL: &str = "invalid value for '--log <LEVEL>': it is off, error or info";

/// The error for a bad mode of a mailbox.
pub const BAD_MAILBOX_MODE: &str =
    "invalid value for '--mailbox-mode <MODE>': it is 1 to 4 octal digits, 0777 at most";

/// The error for a bad mode of a socket.
pub const BAD_SOCKET_MODE: &str =
    "invalid value for '--socket-mode <MODE>': it is 1 to 4 octal digits, 0777 at most";

/// The error for a bad suffix of the mailboxes' files.
pub const BAD_SUFFIX: &str =
    "invalid value for '--mailbox-suffix <SUFFIX>': it is at most 32 letters, digits, ., _ and -";

/// The error for a bad path of a stop file.
pub const BAD_STOP_FILE: &str =
    "invalid value for '--stop-file <PATH>': it is the path of a file, and not empty";

/// The error for a bad delimiter.
pub const BAD_DELIMITER: &str =
    "invalid value for '--recipient-delimiter <BYTE>': it is one of + - = # ~";

/// The error for another word than those that say what becomes of a copy over the quota.
pub const BAD_OVER_QUOTA: &str =
    "invalid value for '--over-quota <WHAT>': it is one of defer, reject";

/// The error for words that aren't UTF-8.
pub const BAD_TEXT: &str = "invalid UTF-8 was detected in one or more arguments";

/// After the subcommands.
pub const AFTER_HELP_PROGRAM: &str = "\
Examples:
  lmtpd serve --host mx.example --listen 127.0.0.1:2003 --dir mail anna ben
  lmtpd check mail/anna.mbox mail/ben.mbox
  lmtpd copy mail/anna.mbox backup/anna.mbox
  lmtpd help serve

Exit status:
  0  All was done that was asked for
  1  Something was lacking or failed, and a line says what
  2  A word can't be used, and nothing was done";

/// After a rehearsal's words.
pub const AFTER_HELP_REHEARSE: &str = "\
Example:
  printf 'LHLO relay.example\\r\\nQUIT\\r\\n' | lmtpd rehearse --host mx.example --time 0 anna ben

Exit status:
  0  The conversation was held, and the mailboxes were printed
  1  Memory, a thread, blocks or room in a mailbox was lacking, or a read or a write failed; standard error says which
  2  A word can't be used, and nothing was done";

/// After a server's words.
pub const AFTER_HELP_SERVE: &str = "\
Examples:
  lmtpd serve --host mx.example --listen 127.0.0.1:2003 --dir mail anna ben
  lmtpd serve --host mx.example --listen [::1]:2003 --dir mail --connections 1 --log info anna
  lmtpd serve --host mx.example --listen inherited --dir mail --boxes /etc/lmtpd.boxes

Exit status:
  0  The server ended in order, after its conversations or for its stop file
  1  A mailbox's file, FILE or the listener failed, a thread or memory was lacking, or a size is out of its limits;
     standard error says which
  2  A word can't be used, and nothing was done";

/// After the words of a check.
pub const AFTER_HELP_CHECK: &str = "\
Example:
  lmtpd check mail/anna.mbox mail/ben.mbox

Exit status:
  0  Each file is a mailbox
  1  A file breaks the form or can't be read, as its line says; or memory was lacking, or a write failed
  2  A word can't be used, and nothing was done";

/// After the words of a copy.
pub const AFTER_HELP_COPY: &str = "\
Example:
  lmtpd copy mail/anna.mbox backup/anna.mbox

Exit status:
  0  TO has the bytes of FILE, as they were at one moment, and is on the disk
  1  FILE can't be read or is in use, TO can't be made, memory was lacking, or a write failed; standard error says which,
     and nothing is left of TO
  2  A word can't be used, and nothing was done";
