//! What an observer is told: an entry for each reply to a line or to data that ended.

ghost use Rattle.std.specs.Prelude.{◌≡◌, [], ◌∷◌, length};
ghost use Rattle.lmtp_talk.specs.Entries.{with_entries};
ghost use Rattle.lmtp_talk.specs.Saying.{said, CanSay};
ghost use Rattle.lmtp_talk.specs.Telling.{entries_for};

use crate::observer::Observer;
use lmtp_session::{Act, Session};
use lmtp_text::Reading;
use mail_head::MessageId;
use mail_world::Reply;

/// A message whose data has ended: its number, its bytes, and its Message-ID where its head has one.
#[derive(Clone, Copy, Drop)]
pub struct Arrived {
    pub number: u64,
    pub size: u64,
    pub message_id: Option<MessageId>,
}

/// What replies answer.
#[derive(Clone, Copy)]
pub enum Asked<'a> {
    /// A command line without its end, as it was read, empty where it was too long.
    Line(Reading<'a>),
    /// A message whose data has ended.
    Message(Arrived),
}

/// Tells the replies that an act says, for the session that gave it.
pub fn tell_all<O: Observer>(observer: &mut O, session: &Session, asked: Asked<'_>, act: Act)
    requires { CanSay act session.now.answers }
    ensures { O.told observer.new ≡ with_entries (O.told observer.old)
        (entries_for asked.entry session.now.session.client (said act session.now.answers)) }
{
    match act {
        Act::Say(reply) | Act::Quit(reply) => tell(observer, session, asked, reply),
        Act::ReadData => tell(observer, session, asked, Reply::GoAhead),
        Act::Deliver(_) => {}
        Act::Answer(count) => tell_answers(observer, session, asked, count),
    }
}

// Tells the answers to the recipients, in their order.
fn tell_answers<O: Observer>(observer: &mut O, session: &Session, asked: Asked<'_>, count: u32)
    requires { count ≡ length session.now.answers }
    ensures { O.told observer.new ≡ with_entries (O.told observer.old)
        (entries_for asked.entry session.now.session.client session.now.answers) }
{
    for i in 0..count {
        tell(observer, session, asked, session.reply_at(i));
    }
}

// Tells one reply.
fn tell<O: Observer>(observer: &mut O, session: &Session, asked: Asked<'_>, reply: Reply)
    ensures { O.told observer.new ≡ with_entries (O.told observer.old)
        (entries_for asked.entry session.now.session.client (reply ∷ [])) }
{
    match asked {
        Asked::Line(said) => observer.command(said, reply),
        Asked::Message(arrived) => observer.copy(arrived, session.client(), reply),
    }
}
