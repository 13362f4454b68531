//! Replies on their way to the peer.

ghost use Rattle.std.specs.Prelude.{◌≡◌, ◌≤◌, ◌<◌, ◌+◌, [], ◌++◌, false, length, IfOk, OnOk, OnErr};
ghost use Rattle.mail_world.specs.Replies.{reply_text, reply_texts};
ghost use Rattle.lmtp_talk.specs.Entries.{with_entries};
ghost use Rattle.lmtp_talk.specs.Peer.{HasTransferred};
ghost use Rattle.lmtp_talk.specs.Saying.{Says, SaysNoMore, BreaksOff, said, CanSay};
ghost use Rattle.lmtp_talk.specs.Telling.{entries_for};
ghost use Rattle.lmtp_talk.specs.declared.outbox.TheConstants.{OUTBOX_SIZE};

use crate::observer::Observer;
use crate::peer::{Peer, PeerFault};
use crate::telling::{Asked, tell_all};
use lmtp_session::{Act, Session};
use lmtp_text::Site;
use mail_world::Reply;
use mail_writing::{REPLY_LIMIT, write_reply};
use std::alloc::{AllocError, Global};
use std::marker::Model;

/// The bytes of replies that wait at most before they are written.
pub const OUTBOX_SIZE: usize = 8_192;

/// Replies that wait to be written, in memory that is taken once. Once a write has failed, replies are dropped.
#[derive(Drop)]
pub struct Outbox {
    bytes: Vec<u8>,
    size: usize,
    broken: bool,
}

impl Model for Outbox {
    ghost use Rattle.std.specs.Prelude.{◌≡◌, ◌≤◌, take, vec_len};
    ghost use Rattle.lmtp_talk.specs.declared.outbox.TheConstants.{OUTBOX_SIZE};
    ghost use Rattle.lmtp_talk.specs.Saying.{OutboxView};

    ghost Value = { OutboxView };

    ghost view = { λ o. record { pending = take o.size o.bytes.items; broken = o.broken } };

    ghost invariant = { λ o. (o.size ≤ OUTBOX_SIZE) × (vec_len o.bytes ≡ OUTBOX_SIZE) };
}

impl Outbox {
    /// Nothing waits.
    pub fn new(alloc: Global) -> Result<Outbox, AllocError>
        ensures { IfOk result (λ outbox. (outbox.pending ≡ []) × (outbox.broken ≡ false)) }
    {
        let bytes = vec![in alloc; 0; OUTBOX_SIZE]?;
        Ok(Outbox {
            bytes,
            size: 0,
            broken: false,
        })
    }

    /// Forgets what waits, for another peer.
    pub fn clear(&mut self)
        ensures { (self.new.pending ≡ []) × (self.new.broken ≡ false) }
    {
        self.size = 0;
        self.broken = false;
    }

    /// Whether a write has failed.
    pub fn is_broken(&self) -> bool
        ensures { result ≡ self.now.broken }
    {
        self.broken
    }

    /// Says what an act says, for the session that gave it.
    pub fn say_all<P: Peer>(&mut self, peer: &mut P, session: &Session, act: Act)
        requires { CanSay act session.now.answers }
        ensures says { Says (P.state peer.old) (P.state peer.new) self.old self.new
            (reply_texts session.now.site (said act session.now.answers)) }
        ensures goes { (P.state peer.new).stops ≡ (P.state peer.old).stops }
        ensures reads { (P.state peer.new).reads ≡ (P.state peer.old).reads }
    {
        match act {
            Act::Say(reply) | Act::Quit(reply) => self.say(peer, session.site(), reply),
            Act::ReadData => self.say(peer, session.site(), Reply::GoAhead),
            Act::Deliver(_) => {}
            Act::Answer(count) => self.say_answers(peer, session, count),
        }
    }

    /// Says what an act says, for the session that gave it, and tells the observer of it.
    pub fn answer<P: Peer, O: Observer>(
        &mut self,
        peer: &mut P,
        observer: &mut O,
        session: &Session,
        asked: Asked<'_>,
        act: Act,
    )
        requires { CanSay act session.now.answers }
        ensures says { Says (P.state peer.old) (P.state peer.new) self.old self.new
            (reply_texts session.now.site (said act session.now.answers)) }
        ensures told { O.told observer.new ≡ with_entries (O.told observer.old)
            (entries_for asked.entry session.now.session.client (said act session.now.answers)) }
        ensures goes { (P.state peer.new).stops ≡ (P.state peer.old).stops }
        ensures reads { (P.state peer.new).reads ≡ (P.state peer.old).reads }
    {
        self.say_all(peer, session, act);
        tell_all(observer, session, asked, act);
    }

    // The answers to the recipients, in their order (RFC 2033, 4.2).
    fn say_answers<P: Peer>(&mut self, peer: &mut P, session: &Session, count: u32)
        requires { count ≡ length session.now.answers }
        ensures says { Says (P.state peer.old) (P.state peer.new) self.old self.new
            (reply_texts session.now.site session.now.answers) }
        ensures goes { (P.state peer.new).stops ≡ (P.state peer.old).stops }
        ensures reads { (P.state peer.new).reads ≡ (P.state peer.old).reads }
    {
        for i in 0..count {
            self.say(peer, session.site(), session.reply_at(i));
        }
    }

    /// Says a reply: it waits after the others, and all are written first where there is no room for it.
    pub fn say<P: Peer>(&mut self, peer: &mut P, site: &Site, reply: Reply)
        ensures says { Says (P.state peer.old) (P.state peer.new) self.old self.new (reply_text site.now reply) }
        ensures goes { (P.state peer.new).stops ≡ (P.state peer.old).stops }
        ensures reads { (P.state peer.new).reads ≡ (P.state peer.old).reads }
    {
        if self.size > OUTBOX_SIZE - REPLY_LIMIT {
            self.flush(peer);
            self.add(site, reply);
            return;
        }
        self.add(site, reply);
    }

    // Puts a reply after the others.
    fn add(&mut self, site: &Site, reply: Reply)
        requires { length self.old.pending + REPLY_LIMIT ≤ OUTBOX_SIZE }
        ensures text { self.new.pending ≡ self.old.pending ++ reply_text site.now reply }
        ensures same { self.new.broken ≡ self.old.broken }
    {
        let size = write_reply(reply, site, &mut self.bytes[self.size..]);
        self.size += size;
    }

    /// Writes all that waits.
    pub fn flush<P: Peer>(&mut self, peer: &mut P)
        ensures said { SaysNoMore (P.state peer.old) (P.state peer.new) self.old self.new }
        ensures none { self.new.pending ≡ [] }
        ensures goes { (P.state peer.new).stops ≡ (P.state peer.old).stops }
        ensures reads { (P.state peer.new).reads ≡ (P.state peer.old).reads }
    {
        if self.broken {
            self.size = 0;
            return;
        }
        let written = write_all(peer, &self.bytes[..self.size]);
        self.broken = written.is_err();
        self.size = 0;
    }
}

// Writes all of the bytes. After a fault a prefix of them was written.
fn write_all<P: Peer>(peer: &mut P, bytes: &[u8]) -> Result<(), PeerFault>
    ensures ok { OnOk result (HasTransferred (P.state peer.old) (P.state peer.new) [] bytes.now) }
    ensures err { OnErr result (BreaksOff (P.state peer.old) (P.state peer.new) bytes.now) }
    ensures reads { (P.state peer.new).reads ≡ (P.state peer.old).reads }
{
    let mut rest = bytes;
    while !rest.is_empty() {
        let n = peer.write(rest)?;
        rest = &rest[n..];
    }
    Ok(())
}
