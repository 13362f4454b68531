//! What a lane does with the messages of its conversations.

ghost use Rattle.std.specs.Prelude.{◌≡◌, ◌≤◌, ◌<◌, ◌^◌, [], length, take, option_map};
ghost use Rattle.mail_world.specs.declared.limits.TheConstants.{NUMBER_LIMIT};
ghost use Rattle.mail_head.specs.Texts.{text_of};
ghost use Rattle.mail_post.specs.Gathering.{IsDone};
ghost use Rattle.mail_post.specs.Offered.{any_gone};
ghost use Rattle.mail_post.specs.WorkerThreads.{threads_for};
ghost use Rattle.lmtp_lane.specs.LaneExchange.{ends_of, sent_as};
ghost use Rattle.lmtp_lane.specs.LaneAccount.{AgreesWith, HasOffered, IsComing, told_by, Delivers};

use crate::clock::Clock;
use crate::exchange::{Exchange, Postmark};
use crate::incoming::{CountedDraft, Incoming};
use crate::setting::LaneStart;
use lmtp_session::Session;
use lmtp_talk::Delivery;
use lmtp_text::Site;
use lmtp_wire::{Dot, Fed};
use mail_head::MessageId;
use mail_world::{Outcome, State, Verdict};
use msg_depot::{Depot, DepotName};
use std::marker::PhantomData;
use std::sync::Wait;

/// The delivery of a lane: a message goes into the depot as it comes, and once it is whole its copies go out to the
/// mailboxes.
#[derive(Drop)]
pub struct LaneDelivery<'a, N: DepotName, C: Clock, R: Wait, S: LaneStart> {
    rt: &'a R,
    depot: &'a Depot<N>,
    clock: &'a C,
    // how many bytes a message may have
    limit: u32,
    refuses_malformed: bool,
    pub exchange: Exchange<N>,
    pub incoming: Incoming<N>,
    /// How many DATA commands were accepted; it stays at its largest value.
    pub accepted: u64,
    /// The moment of the last data that ended, in seconds since 1970.
    pub moment: u32,
    start: PhantomData<S>,
    ghost limited: { (limit ≡ S.site.message_limit) × (limit < 2 ^ 32) },
    ghost refusing: { refuses_malformed ≡ S.site.refuses_malformed },
    ghost of_lane: { exchange.lane ≡ S.ends.lane },
    ghost count: { length exchange.senders.items ≡ threads_for (length S.site.boxes) },
    ghost none_missing: { IsDone exchange.gather.gather },
}

impl<'a, N: DepotName, C: Clock, R: Wait, S: LaneStart> LaneDelivery<'a, N, C, R, S> {
    /// A lane's delivery before its first conversation, at that site.
    pub fn new(
        rt: &'a R,
        depot: &'a Depot<N>,
        clock: &'a C,
        exchange: Exchange<N>,
        site: &Site,
    ) -> LaneDelivery<'a, N, C, R, S>
        requires here { site.now ≡ S.site }
        requires count { length exchange.senders.items ≡ threads_for (length S.site.boxes) }
        requires none_missing { IsDone exchange.gather.gather }
        requires start { ends_of exchange ≡ record S.ends { gone = any_gone S.ends.senders } }
        ensures begun { HasOffered S.site S.May result.accepted S.ends (ends_of result.exchange) 0 [] }
        ensures clock { AgreesWith (C.May result.clock.now) (C.May clock.now) }
    {
        LaneDelivery {
            rt,
            depot,
            clock,
            limit: site.message_limit(),
            refuses_malformed: site.refuses_malformed(),
            exchange,
            incoming: Incoming::new(),
            accepted: 0,
            moment: 0,
            start: PhantomData,
        }
    }

    // Says where the lane is to have copies: before the first is there, so that none is answered before.
    fn post_all(&self, session: &Session) {
        for place in 0..session.recipient_count() {
            self.clock
                .posts(self.exchange.lane, session.recipient(place));
        }
    }

    // Sends a whole message to its recipients.
    fn deliver(&mut self, session: &Session, counted: CountedDraft<N>)
        requires content { session.now.session.state ≡ State.Content }
        requires here { session.now.site ≡ S.site }
        requires number { self.old.accepted ≤ NUMBER_LIMIT }
        ensures same { (self.new.accepted ≡ self.old.accepted) × (self.new.moment ≡ self.old.moment) }
        ensures clock { AgreesWith (C.May self.new.clock.now) (C.May self.old.clock.now) }
        ensures count { length self.new.exchange.gather.gather.places ≡ length session.now.session.recipients }
        ensures delivers { Delivers (sent_as self.old.accepted session.now.session self.old.moment counted.bytes)
            (told_by self.new.exchange.gather.gather) (ends_of self.old.exchange) (ends_of self.new.exchange) }
    {
        let CountedDraft { draft, counter } = counted;
        let hold = self.depot.seal(self.rt, draft, session.recipient_count());
        let mark = Postmark {
            number: self.accepted as u32,
            moment: self.moment,
            lengths: counter.total(),
        };
        self.post_all(session);
        self.exchange.send(self.rt, self.depot, session, mark, hold);
    }
}

impl<'a, N: DepotName, C: Clock, R: Wait, S: LaneStart> Delivery for LaneDelivery<'a, N, C, R, S> {
    ghost site = { λ d. S.site };

    ghost HasCome = { λ d n ts.
        HasOffered S.site S.May d.accepted S.ends (ends_of d.exchange) n ts
        × AgreesWith (C.May d.clock.now) S.May };

    ghost IsDrafting = { λ d n ts message.
        HasOffered S.site S.May d.accepted S.ends (ends_of d.exchange) n ts
        × AgreesWith (C.May d.clock.now) S.May
        × IsComing S.site.refuses_malformed d.incoming.draft (take d.incoming.held d.incoming.room) d.incoming.size
        (option_map text_of d.incoming.message_id) d.incoming.form message };

    ghost outcomes = { λ d. told_by d.exchange.gather.gather };

    ghost moment = { λ d. d.moment };

    fn is_busy(&self, mailbox: u32) -> bool {
        self.clock.is_busy(self.exchange.lane, mailbox)
    }

    fn rests(&self) {
        self.clock.rests(self.exchange.lane);
    }

    fn begin(&mut self) {
        self.accepted = self.accepted.saturating_add(1);
        self.incoming
            .begin(self.rt, self.depot, self.refuses_malformed);
    }

    fn take(&mut self, dot: &mut Dot, bytes: &[u8]) -> Fed {
        self.incoming
            .take(self.rt, self.depot, dot, bytes, self.limit)
    }

    fn number(&self) -> u64 {
        self.accepted
    }

    fn size(&self) -> u64 {
        self.incoming.size as u64
    }

    fn message_id(&self) -> Option<MessageId> {
        self.incoming.message_id()
    }

    fn cancel(&mut self) {
        self.incoming.cancel(self.rt, self.depot);
    }

    /// The moment is asked of the clock, also of a message that is refused.
    fn end(&mut self, session: &Session) -> Result<(), Verdict> {
        self.moment = self.clock.unix(self.rt);
        self.incoming.hand_on_rest(self.rt, self.depot);
        match self
            .incoming
            .end(self.rt, self.depot, self.accepted, self.limit)
        {
            Err(verdict) => {
                self.rests();
                Err(verdict)
            }
            Ok(draft) => {
                self.deliver(session, draft);
                self.rests();
                Ok(())
            }
        }
    }

    fn outcomes(&self) -> &[Outcome] {
        self.exchange.gather.answers()
    }
}
