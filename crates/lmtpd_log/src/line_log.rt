//! A lane's log in lines: a line for each copy that was answered, for each command that was refused, and for each
//! conversation that ended.

ghost use Rattle.std.specs.Prelude.{◌≡◌, ◌++◌, [], true, vec_capacity};
ghost use Rattle.lmtpd_log.specs.Letters.{first_letter};
ghost use Rattle.lmtpd_log.specs.Owed.{has_ended, letter_after, lines_owed};
ghost use Rattle.lmtpd_log.specs.Rules.{lines_of, rules_of};
ghost use Rattle.lmtpd_log.specs.Texts.{letter_of};
ghost use Rattle.lmtpd_log.specs.declared.line_log.TheConstants.{WAITING_LIMIT};

use crate::history::{Event, History};
use crate::keeping::{keep, show_all, show_one};
use crate::lane_log::LaneLog;
use crate::letter::Letter;
use crate::line_sink::LineSink;
use crate::pairs::{Line, Seconds};
use crate::setting::LaneSetting;
use crate::unserved::Unserved;
use lmtp_talk::{Arrived, EndCause, Observer, Traffic};
use lmtp_text::Reading;
use mail_world::Reply;
use std::alloc::{AllocError, Global};
use std::time::{Clock, Duration};

/// The lines that may wait: more than the bytes of one read of a client can owe, at three bytes a command and with a
/// thousand recipients from before, so that none is shown before its reply was written.
const WAITING_LIMIT: usize = 4_096;

/// A lane's log, which shows its lines once the replies were written, each in its order. What waits does so in memory
/// that is taken once; where nothing is logged nothing waits.
#[derive(Drop)]
pub struct LineLog<E: LineSink, C: Drop> {
    sink: E,
    clock: C,
    setting: LaneSetting,
    waiting: Vec<Line>,
    ghost room: { vec_capacity waiting ≡ WAITING_LIMIT },
    letter: Letter,
    unserved: Unserved,
    // when bytes came last, or the largest moment that there is
    came: Duration,
    history: History,
    // what was shown and what waits is what is owed for what it was told
    ghost owes: { E.shown sink ++ lines_of waiting.items ≡ lines_owed (rules_of setting) history.list.heard },
    // nothing waits after a conversation's end
    ghost rests: { has_ended history.list.heard ≡ true → lines_of waiting.items ≡ [] },
    // what it knows of the letter under way
    ghost knows: { letter_of letter ≡ letter_after (first_letter setting.addresses) history.list.heard },
}

impl<E: LineSink, C: Clock + Drop> LineLog<E, C> {
    ghost use Rattle.std.specs.Prelude.{◌<◌, IfOk, vec_len};
    ghost use Rattle.lmtpd_log.specs.Lines.{ShowsForRoom, has_room, heard_by, owed_by, sink_in, waits};

    /// Told nothing yet, over what has shown nothing.
    pub(crate) fn new(
        alloc: Global,
        sink: E,
        clock: C,
        setting: LaneSetting,
    ) -> Result<LineLog<E, C>, AllocError>
        requires { E.shown sink ≡ [] }
        ensures untold { IfOk result (λ log. heard_by log ≡ []) }
        ensures setting { IfOk result (λ log. log.setting ≡ setting) }
    {
        Ok(LineLog {
            sink,
            clock,
            waiting: Vec::with_capacity(alloc, WAITING_LIMIT)?,
            letter: Letter::new(alloc, setting.addresses)?,
            unserved: Unserved::new(alloc)?,
            setting,
            came: Duration::MAX,
            history: History::new(),
        })
    }

    /// After a conversation's end it has shown just what is owed for all that it was told.
    pub fn has_shown_what_is_owed(&self)
        ensures { has_ended (heard_by self.now) ≡ true → E.shown (sink_in self.now) ≡ owed_by self.now }
    {}

    // Shows what waits.
    fn show_waiting(&mut self)
        ensures shown { E.shown self.new.sink ≡ E.shown self.old.sink ++ waits self.old }
        ensures none { self.new.waiting.items ≡ [] }
        ensures history { self.new.history ≡ self.old.history }
        ensures setting { self.new.setting ≡ self.old.setting }
    {
        show_all(&mut self.sink, &self.waiting);
        self.waiting.clear();
    }

    // Makes room for one more. Where there is none, which can't be, what waits is shown first.
    fn make_room(&mut self)
        ensures shown { ShowsForRoom (has_room self.old) (waits self.old)
            (E.shown self.old.sink) (E.shown self.new.sink) }
        ensures room { vec_len self.new.waiting < WAITING_LIMIT }
        ensures history { self.new.history ≡ self.old.history }
        ensures setting { self.new.setting ≡ self.old.setting }
    {
        if self.waiting.len() >= WAITING_LIMIT {
            self.show_waiting();
        }
    }

    // Says at once of a domain that isn't served that it isn't, the first time in an hour; without a clock the first time.
    fn tell_unserved(&mut self, said: Reading<'_>, reply: Reply)
        ensures shown { E.shown self.new.sink ≡ E.shown self.old.sink }
        ensures waiting { self.new.waiting ≡ self.old.waiting }
        ensures history { self.new.history ≡ self.old.history }
        ensures setting { self.new.setting ≡ self.old.setting }
    {
        let Some(domain) = self.setting.unserved(said, reply) else {
            return;
        };
        let now = self.clock.monotonic().unwrap_or(Duration::ZERO);
        if self.unserved.is_to_tell(domain, now) {
            self.sink.show_unserved(domain);
        }
    }

    // The time since that moment; 0 where it is the largest that there is, or the clock couldn't be asked.
    fn since(&self, moment: Duration) -> Seconds {
        match self.clock.monotonic() {
            Ok(now) => Seconds(now.saturating_sub(moment)),
            Err(_) => Seconds(Duration::ZERO),
        }
    }
}

impl<E: LineSink, C: Clock + Drop> LaneLog for LineLog<E, C> {
    ghost use Rattle.lmtpd_log.specs.Lines.{lines_in};

    ghost lines = { λ log. lines_in log };
}

impl<E: LineSink, C: Clock + Drop> Observer for LineLog<E, C> {
    ghost use Rattle.std.specs.Prelude.{◌∷◌, Some};
    ghost use Rattle.lmtp_text.specs.Readings.{line_read};
    ghost use Rattle.lmtp_talk.specs.Entries.{OfLine, OfEnd, with_entries};
    ghost use Rattle.lmtp_talk.specs.Telling.{arrived_entry};
    ghost use Rattle.lmtpd_log.specs.Lines.{ShowsForRoom, has_room, heard_by, rules_in, told_to, waits};

    ghost told = { λ log. Some (told_to log) };

    /// A line for a command that was refused.
    fn command(&mut self, said: Reading<'_>, reply: Reply)
        ensures told { Some (told_to self.new)
            ≡ with_entries (Some (told_to self.old)) (OfLine (line_read said.entry) reply ∷ []) }
        ensures waits { ShowsForRoom (has_room self.old) (waits self.old)
            (E.shown self.old.sink) (E.shown self.new.sink) }
        ensures rules { rules_in self.new ≡ rules_in self.old }
    {
        self.tell_unserved(said, reply);
        self.make_room();
        let refused = self.setting.refused(said, reply);
        keep(&mut self.waiting, refused);
        self.letter.line(said, reply);
        self.history.add(Event::Line(said, reply));
    }

    /// A line for each copy.
    fn copy(&mut self, arrived: Arrived, client: &[u8], reply: Reply)
        ensures told { Some (told_to self.new)
            ≡ with_entries (Some (told_to self.old)) (arrived_entry arrived client.now reply ∷ []) }
        ensures waits { ShowsForRoom (has_room self.old) (waits self.old)
            (E.shown self.old.sink) (E.shown self.new.sink) }
        ensures rules { rules_in self.new ≡ rules_in self.old }
    {
        self.make_room();
        let seconds = self.since(self.came);
        let envelope = self.letter.copy();
        let made = self
            .setting
            .answered(arrived, client, reply, seconds, envelope);
        keep(&mut self.waiting, made);
        self.history.add(Event::Copy(arrived, client, reply));
    }

    /// The last line of a conversation.
    fn ended(&mut self, cause: EndCause, traffic: Traffic)
        ensures told { Some (told_to self.new) ≡ with_entries (Some (told_to self.old)) (OfEnd cause ∷ []) }
        ensures heard { heard_by self.new
            ≡ heard_by self.old ++ record { entry = OfEnd cause; traffic = Some traffic } ∷ [] }
        ensures none_waits { waits self.new ≡ [] }
        ensures rules { rules_in self.new ≡ rules_in self.old }
    {
        self.show_waiting();
        let seconds = self.since(traffic.began);
        let made = self.setting.ended(cause, traffic, seconds);
        show_one(&mut self.sink, made);
        self.history.add(Event::End(cause, traffic));
    }

    fn written(&mut self)
        ensures told { told_to self.new ≡ told_to self.old }
        ensures none_waits { waits self.new ≡ [] }
        ensures rules { rules_in self.new ≡ rules_in self.old }
    {
        self.show_waiting();
    }

    /// The seconds of a copy's line count from here: its data had ended with what came last.
    fn came(&mut self)
        ensures told { told_to self.new ≡ told_to self.old }
        ensures waits { waits self.new ≡ waits self.old }
        ensures rules { rules_in self.new ≡ rules_in self.old }
    {
        if self.setting.is_on {
            self.came = self.clock.monotonic().unwrap_or(Duration::MAX);
        }
    }
}
