//! One conversation's session: where it stands, its sender and its recipients, in memory that is taken once.

ghost use Rattle.std.specs.Prelude.{◌≡◌, ◌<◌, ◌≤◌, [], length, slice_get, slice_index, Some, IfOk};
ghost use Rattle.std.specs.Arc.{arc_value};
ghost use Rattle.mail_world.specs.Session.{Line, Busy, LongLine, DataEnded, Outcomes, Stop, fresh};
ghost use Rattle.mail_world.specs.Site.{extensions_of};
ghost use Rattle.lmtp_text.specs.Readings.{line_read, offered_for};
ghost use Rattle.lmtp_session.specs.View.{reserved};
ghost use Rattle.lmtp_session.specs.Steps.{TakesLines, MayStop, IsStep};
ghost use Rattle.lmtp_session.specs.Added.{added_box};

use crate::act::Act;
use lmtp_text::{Command, Reading, Site};
use mail_world::limits::{NAME_LIMIT, PATH_LIMIT, RECIPIENT_LIMIT};
use mail_world::{Outcome, Reply, State, Verdict};
use smallvec::SmallVec;
use std::alloc::{AllocError, Global};
use std::marker::Model;
use std::sync::Arc;

mod commands;
mod lists;
mod messages;
/// A session. Contracts see the site, what the definitions call a session, the replies that `reply_at` gives, and the
/// room of its lists, which no call but `new` changes: the others take no memory.
#[derive(Drop)]
pub struct Session {
    site: Arc<Site>,
    state: State,
    client: SmallVec<u8, 256>,
    sender: SmallVec<u8, 256>,
    utf8: bool,
    recipients: SmallVec<u32, 8>,
    answers: Vec<Reply>,
}

impl Model for Session {
    ghost use Rattle.lmtp_session.specs.View.{View};

    ghost Value = { View };

    ghost use Rattle.lmtp_session.specs.Fields.{session_view, IsKept};

    ghost view = { session_view };

    ghost invariant = { IsKept };
}

impl Session {
    /// A session at that site, before its greeting, with memory for `RECIPIENT_LIMIT` recipients and their replies.
    pub fn new(alloc: Global, site: Arc<Site>) -> Result<Session, AllocError>
        ensures site { IfOk result (λ s. s.site ≡ arc_value site) }
        ensures session { IfOk result (λ s. s.session ≡ fresh) }
        ensures no_answer { IfOk result (λ s. s.answers ≡ []) }
        ensures room { IfOk result (λ s. s.room ≡ reserved) }
    {
        let recipients = SmallVec::with_capacity(alloc, RECIPIENT_LIMIT)?;
        let answers = Vec::with_capacity(alloc, RECIPIENT_LIMIT)?;
        Ok(Session {
            site,
            state: State::Fresh,
            client: SmallVec::new(alloc),
            sender: SmallVec::new(alloc),
            utf8: false,
            recipients,
            answers,
        })
    }

    /// Begins a new conversation, in any state: nothing of the one before is kept. The reply is 220 (RFC 5321, 4.3.1).
    pub fn greeting(&mut self) -> Reply
        ensures reply { result ≡ Reply.Greeting }
        ensures session { self.new.session ≡ fresh }
        ensures no_answer { self.new.answers ≡ [] }
        ensures site { self.new.site ≡ self.old.site }
        ensures no_memory { self.new.room ≡ self.old.room }
    {
        self.state = State::Fresh;
        self.client.clear();
        self.sender.clear();
        self.utf8 = false;
        self.recipients.clear();
        self.answers.clear();
        Reply::Greeting
    }

    /// Where the session stands.
    pub fn state(&self) -> State
        ensures { result ≡ self.now.session.state }
    {
        self.state
    }

    /// Reads a command line, without its CRLF, for the site.
    pub fn read<'a>(&self, line: &'a [u8]) -> Reading<'a>
        ensures line { line_read result ≡ line.now }
        ensures offered { offered_for result ≡ extensions_of self.now.site }
    {
        let offered = self.site.extensions();
        Reading::of(line, offered)
    }

    /// Takes a command line that was read for the site.
    #[tactic(auto, using(crate::proofs::Limits::command_within))]
    pub fn line(&mut self, said: Reading<'_>) -> Act
        requires state { TakesLines self.old.session.state }
        requires offered { offered_for said ≡ extensions_of self.old.site }
        ensures step { IsStep self.old (Line (line_read said.entry)) result self.new }
        ensures no_memory { self.new.room ≡ self.old.room }
    {
        self.on_command(said.command())
    }

    /// The number of the mailbox that the line, read for the site, would add as a recipient's; none where it would add
    /// none: it is another command, comes too soon, has no mailbox, or is one recipient too many.
    pub fn added_box(&self, said: &Reading<'_>) -> Option<u32>
        requires offered { offered_for said.now ≡ extensions_of self.now.site }
        ensures { result ≡ added_box self.now.site self.now.session (line_read said.now) }
    {
        match said.command() {
            Ok(Command::Rcpt(target)) => self.box_to_add(&target),
            _ => None,
        }
    }

    /// Takes a command line that was read for the site, while the mailbox that it may name is busy: a recipient whom it
    /// would add isn't added (RFC 5321, 4.2.2: 450), and else it is taken as any line.
    #[tactic(auto, using(crate::proofs::Limits::command_within))]
    pub fn busy_line(&mut self, said: Reading<'_>) -> Act
        requires state { TakesLines self.old.session.state }
        requires offered { offered_for said ≡ extensions_of self.old.site }
        ensures step { IsStep self.old (Busy (line_read said.entry)) result self.new }
        ensures no_memory { self.new.room ≡ self.old.room }
    {
        match said.command() {
            Ok(Command::Rcpt(target)) => self.put_off(&target),
            answer => self.on_command(answer),
        }
    }

    /// Takes note of a line that was too long to be a command.
    pub fn too_long(&mut self) -> Act
        requires { TakesLines self.old.session.state }
        ensures step { IsStep self.old LongLine result self.new }
        ensures no_memory { self.new.room ≡ self.old.room }
    {
        self.answers.clear();
        Act::Say(Reply::LineTooLong)
    }

    /// Ends the conversation because the server stops: the reply is 421 (RFC 5321, 3.8).
    pub fn stop(&mut self) -> Act
        requires { MayStop self.old.session.state }
        ensures step { IsStep self.old Stop result self.new }
        ensures no_memory { self.new.room ≡ self.old.room }
    {
        self.answers.clear();
        self.end(Reply::Stopping)
    }

    /// Takes what was found once the data of the message had ended.
    pub fn data_done(&mut self, verdict: Verdict) -> Act
        requires { self.old.session.state ≡ State.Content }
        ensures step { IsStep self.old (DataEnded verdict) result self.new }
        ensures no_memory { self.new.room ≡ self.old.room }
    {
        self.answers.clear();
        match verdict {
            Verdict::Whole => self.deliver(),
            Verdict::TooLarge => self.answer_all(Outcome::TooLarge),
            Verdict::Malformed => self.answer_all(Outcome::Malformed),
            Verdict::NoRoom => self.answer_all(Outcome::NoRoom),
        }
    }

    /// Takes what became of the copies of a message, one outcome for each recipient in their order.
    pub fn outcomes(&mut self, outcomes: &[Outcome]) -> Act
        requires state { self.old.session.state ≡ State.Waiting }
        requires count { length outcomes.now ≡ length self.old.session.recipients }
        ensures step { IsStep self.old (Outcomes outcomes.now) result self.new }
        ensures no_memory { self.new.room ≡ self.old.room }
    {
        self.answers.clear();
        lists::push_results(&mut self.answers, outcomes, &self.recipients);
        self.forget_message();
        Act::Answer(self.answers.len() as u32)
    }

    /// The reply to a recipient, after `Act::Answer` and until the next line, outcome, verdict, greeting or stop.
    pub fn reply_at(&self, i: u32) -> Reply
        requires { i < length self.now.answers }
        ensures { slice_get self.now.answers i ≡ Some result }
    {
        self.answers[i as usize]
    }

    /// How many recipients the message has so far. DATA is taken only where there is one.
    pub fn recipient_count(&self) -> u32
        ensures count { result ≡ length self.now.session.recipients }
        ensures some { self.now.session.state ≡ State.Content → 0 < result }
        ensures bound { result ≤ RECIPIENT_LIMIT }
    {
        self.recipients.len() as u32
    }

    /// The number of a recipient's mailbox.
    pub fn recipient(&self, i: u32) -> u32
        requires { i < length self.now.session.recipients }
        ensures mailbox { result ≡ slice_index self.now.session.recipients i }
        ensures known { result < length self.now.site.boxes }
    {
        self.recipients[i as usize]
    }

    /// The sender's mailbox, without brackets and route; empty for `<>` and where no message has begun.
    pub fn sender(&self) -> &[u8]
        ensures text { result.now ≡ self.now.session.sender }
        ensures bound { length result.now ≤ PATH_LIMIT }
    {
        self.sender.as_slice()
    }

    /// Whether MAIL had the parameter SMTPUTF8 (RFC 6531); not where no message has begun.
    pub fn utf8(&self) -> bool
        ensures { result ≡ self.now.session.utf8 }
    {
        self.utf8
    }

    /// The client's name, as its last LHLO gave it; empty before that.
    pub fn client(&self) -> &[u8]
        ensures text { result.now ≡ self.now.session.client }
        ensures bound { length result.now ≤ NAME_LIMIT }
    {
        self.client.as_slice()
    }

    /// The site that the session is held at.
    pub fn site(&self) -> &Site
        ensures { result.now ≡ self.now.site }
    {
        &self.site
    }
}
