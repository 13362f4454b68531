//! The steps for each command (RFC 5321, 4.1.4).

ghost use Rattle.std.specs.Prelude.{◌≡◌, ◌≤◌, [], length};
ghost use Rattle.mail_world.specs.Session.{on_command, on_mail, on_rcpt, on_busy_rcpt, on_data, on_rset, says, greeted};
ghost use Rattle.mail_world.specs.Targets.{box_of};
ghost use Rattle.lmtp_text.specs.Seen.{seen_answer, seen_target};
ghost use Rattle.lmtp_session.specs.Steps.{TakesLines, IsTransition};
ghost use Rattle.lmtp_session.specs.Added.{box_to_add};
ghost use Rattle.lmtp_session.specs.CommandLimits.{IsWithinLimits};

use crate::act::Act;
use crate::session::{Session, lists};
use lmtp_text::{Command, Target};
use mail_world::limits::{NAME_LIMIT, PATH_LIMIT, RECIPIENT_LIMIT};
use mail_world::{BadCommand, Reply, State};

impl Session {
    /// Takes what was read of a line.
    pub(crate) fn on_command(&mut self, answer: Result<Command, BadCommand>) -> Act
        requires state { TakesLines self.old.session.state }
        requires limits { IsWithinLimits (seen_answer answer) }
        ensures step { IsTransition self.old
            (on_command self.old.site self.old.session (seen_answer answer.entry)) result self.new }
        ensures no_memory { self.new.room ≡ self.old.room }
    {
        self.answers.clear();
        match answer {
            Err(why) => Act::Say(Reply::Refused(why)),
            Ok(Command::Lhlo(client)) => self.on_lhlo(client),
            Ok(Command::Mail { sender, utf8 }) => self.on_mail(sender, utf8),
            Ok(Command::Rcpt(target)) => self.on_rcpt(&target),
            Ok(Command::StartData) => self.on_data(),
            Ok(Command::Rset) => self.on_rset(),
            Ok(Command::Noop) => Act::Say(Reply::NoopOk),
            Ok(Command::Vrfy) => Act::Say(Reply::NotChecked),
            Ok(Command::Help) => Act::Say(Reply::HelpText),
            Ok(Command::Quit) => self.end(Reply::Bye),
        }
    }

    fn on_lhlo(&mut self, client: &[u8]) -> Act
        requires fits { length client.now ≤ NAME_LIMIT }
        requires no_answer { self.old.answers ≡ [] }
        ensures step { IsTransition self.old (says Reply.Offer (greeted client.now)) result self.new }
        ensures no_memory { self.new.room ≡ self.old.room }
    {
        lists::refill(&mut self.client, client);
        self.forget_message();
        Act::Say(Reply::Offer)
    }

    fn on_mail(&mut self, sender: &[u8], utf8: bool) -> Act
        requires state { TakesLines self.old.session.state }
        requires fits { length sender.now ≤ PATH_LIMIT }
        requires no_answer { self.old.answers ≡ [] }
        ensures step { IsTransition self.old
            (on_mail self.old.session.state self.old.session sender.now utf8) result self.new }
        ensures no_memory { self.new.room ≡ self.old.room }
    {
        match self.state {
            State::Greeted => {
                self.recipients.clear();
                lists::refill(&mut self.sender, sender);
                self.utf8 = utf8;
                self.state = State::Sender;
                Act::Say(Reply::SenderOk)
            }
            _ => Act::Say(Reply::OutOfOrder),
        }
    }

    fn on_rcpt(&mut self, target: &Target) -> Act
        requires state { TakesLines self.old.session.state }
        requires no_answer { self.old.answers ≡ [] }
        ensures step { IsTransition self.old
            (on_rcpt self.old.session.state self.old.session
            (box_of self.old.site (seen_target target.now))) result self.new }
        ensures no_memory { self.new.room ≡ self.old.room }
    {
        match self.state {
            State::Sender | State::Recipients => match self.site.find(target) {
                None => Act::Say(Reply::NoSuchBox),
                Some(_) if self.recipients.len() == RECIPIENT_LIMIT => Act::Say(Reply::TooMany),
                Some(mailbox) => {
                    self.recipients.push_reserved(mailbox);
                    self.state = State::Recipients;
                    Act::Say(Reply::RecipientOk)
                }
            },
            _ => Act::Say(Reply::OutOfOrder),
        }
    }

    /// The mailbox of that recipient, where it may be added.
    pub(crate) fn box_to_add(&self, target: &Target) -> Option<u32>
        ensures { result ≡ box_to_add self.now.session.state self.now.session
            (box_of self.now.site (seen_target target.now)) }
    {
        match self.state {
            State::Sender | State::Recipients if self.recipients.len() < RECIPIENT_LIMIT => {
                self.site.find(target)
            }
            _ => None,
        }
    }

    /// Answers for a recipient whose mailbox is busy.
    pub(crate) fn put_off(&mut self, target: &Target) -> Act
        requires state { TakesLines self.old.session.state }
        ensures step { IsTransition self.old
            (on_busy_rcpt self.old.session.state self.old.session
            (box_of self.old.site (seen_target target.now))) result self.new }
        ensures no_memory { self.new.room ≡ self.old.room }
    {
        self.answers.clear();
        let is_known = self.site.find(target).is_some();
        let is_full = self.recipients.len() == RECIPIENT_LIMIT;
        Act::Say(match self.state {
            State::Sender | State::Recipients if !is_known => Reply::NoSuchBox,
            State::Sender | State::Recipients if is_full => Reply::TooMany,
            State::Sender | State::Recipients => Reply::Busy,
            _ => Reply::OutOfOrder,
        })
    }

    fn on_data(&mut self) -> Act
        requires state { TakesLines self.old.session.state }
        requires no_answer { self.old.answers ≡ [] }
        ensures step { IsTransition self.old (on_data self.old.session.state self.old.session) result self.new }
        ensures no_memory { self.new.room ≡ self.old.room }
    {
        match self.state {
            State::Recipients => {
                self.state = State::Content;
                Act::ReadData
            }
            _ => Act::Say(Reply::OutOfOrder),
        }
    }

    fn on_rset(&mut self) -> Act
        requires state { TakesLines self.old.session.state }
        requires no_answer { self.old.answers ≡ [] }
        ensures step { IsTransition self.old (on_rset self.old.session.state self.old.session) result self.new }
        ensures no_memory { self.new.room ≡ self.old.room }
    {
        match self.state {
            State::Fresh => {}
            _ => self.forget_message(),
        }
        Act::Say(Reply::ResetOk)
    }
}
