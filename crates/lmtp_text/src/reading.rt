//! A command line that was read, so that nobody need read it once more.

ghost use Rattle.std.specs.Prelude.{◌≡◌};
ghost use Rattle.mail_world.specs.Commands as m;
ghost use Rattle.lmtp_text.specs.Seen.{seen_answer};

use crate::command::{Command, read_command_at};
use crate::offers::{is_alike, is_no_less};
use mail_world::{BadCommand, Extensions};

/// A command line without its CRLF, and what it says where these extensions are offered.
#[derive(Clone, Copy, Drop)]
pub struct Reading<'a> {
    line: &'a [u8],
    offered: Extensions,
    command: Result<Command<'a>, BadCommand>,
    ghost is_read: { seen_answer command ≡ m.command_at offered line.now },
}

impl<'a> Reading<'a> {
    ghost use Rattle.std.specs.Prelude.{true};
    ghost use Rattle.lmtp_text.specs.Readings.{line_read, offered_for};

    /// Reads a line for a site that offers these.
    pub fn of(line: &'a [u8], offered: Extensions) -> Reading<'a>
        ensures line { line_read result ≡ line.now }
        ensures offered { offered_for result ≡ offered }
    {
        Reading {
            line,
            offered,
            command: read_command_at(line, offered),
        }
    }

    /// The line.
    pub fn line(&self) -> &'a [u8]
        ensures { result.now ≡ line_read self.now }
    {
        self.line
    }

    /// The command that it is where it was read for, or why it is refused there.
    pub fn command(&self) -> Result<Command<'a>, BadCommand>
        ensures { seen_answer result ≡ m.command_at (offered_for self.now) (line_read self.now) }
    {
        self.command
    }

    /// The same where other extensions are offered. The line is read again only where that may say something else: a
    /// size was refused, or what was refused may be in UTF-8.
    pub fn command_at(&self, offered: Extensions) -> Result<Command<'a>, BadCommand>
        ensures { seen_answer result ≡ m.command_at offered (line_read self.now) }
    {
        if self.is_same_at(offered) {
            self.command
        } else {
            read_command_at(self.line, offered)
        }
    }

    // What is taken is so where no less is offered. What is refused, but for its size, is so whatever size is offered.
    fn is_same_at(&self, offered: Extensions) -> bool
        ensures { result ≡ true → seen_answer self.now.command ≡ m.command_at offered self.now.line.now }
    {
        match self.command {
            Ok(_) => is_no_less(self.offered, offered),
            Err(why) => is_alike(why, self.offered.utf8, offered.utf8),
        }
    }
}
