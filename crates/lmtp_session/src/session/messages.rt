//! What a session does with the message in hand, and how it ends.

ghost use Rattle.std.specs.Prelude.{◌≡◌, []};
ghost use Rattle.mail_world.specs.Session.{says, greeted, moved_to, result_for_all};
ghost use Rattle.lmtp_session.specs.Steps.{IsTransition};

use crate::act::Act;
use crate::session::{Session, lists};
use mail_world::{Outcome, Reply, State};

impl Session {
    /// Hands the message on to its recipients, and waits for the outcomes.
    pub(crate) fn deliver(&mut self) -> Act
        requires state { self.old.session.state ≡ State.Content }
        requires no_answer { self.old.answers ≡ [] }
        ensures step { IsTransition self.old
            (record { replies = []; next = moved_to State.Waiting self.old.session }) result self.new }
        ensures no_memory { self.new.room ≡ self.old.room }
    {
        self.state = State::Waiting;
        Act::Deliver(self.recipient_count())
    }

    /// Gives each recipient that outcome, and ends the message.
    pub(crate) fn answer_all(&mut self, outcome: Outcome) -> Act
        requires no_answer { self.old.answers ≡ [] }
        ensures step { IsTransition self.old
            (record {
              replies = result_for_all outcome self.old.session.recipients;
              next = greeted self.old.session.client;
            }) result self.new }
        ensures no_memory { self.new.room ≡ self.old.room }
    {
        lists::push_result_for_all(&mut self.answers, outcome, &self.recipients);
        self.forget_message();
        Act::Answer(self.answers.len() as u32)
    }

    /// Forgets sender, parameter and recipients, and waits for the next message.
    pub(crate) fn forget_message(&mut self)
        ensures { self.new ≡ record self.old { session = greeted self.old.session.client } }
    {
        self.sender.clear();
        self.utf8 = false;
        self.recipients.clear();
        self.state = State::Greeted;
    }

    /// Ends the conversation with that reply.
    pub(crate) fn end(&mut self, reply: Reply) -> Act
        requires no_answer { self.old.answers ≡ [] }
        ensures step { IsTransition self.old (says reply (moved_to State.Ended self.old.session)) result self.new }
        ensures no_memory { self.new.room ≡ self.old.room }
    {
        self.state = State::Ended;
        Act::Quit(reply)
    }
}
