//! A lane's thread.

ghost use Rattle.std.specs.Prelude.{◌≡◌, [], length, true, false};
ghost use Rattle.lmtp_talk.specs.Peer.{PeerState};
ghost use Rattle.lmtp_talk.specs.Served.{terms};
ghost use Rattle.mail_post.specs.Gathering.{IsDone};
ghost use Rattle.mail_post.specs.Offered.{HaveNumber, any_gone};
ghost use Rattle.mail_post.specs.WorkerThreads.{threads_for};
ghost use Rattle.lmtp_lane.specs.LaneAccount.{AgreesWith, HasOffered};
ghost use Rattle.lmtp_lane.specs.LaneExchange.{ends_of};
ghost use Rattle.lmtp_lane.specs.LaneRun.{lane_start, lane_end, lane_state, HasServed};
ghost use Rattle.lmtp_lane.specs.Visits.{HasConversed};

use crate::clock::Clock;
use crate::delivery::LaneDelivery;
use crate::desk::Desk;
use crate::exchange::Exchange;
use crate::report::LaneReport;
use crate::setting::LaneStart;
use crate::visits::Visits;
use lmtp_talk::{Dialogue, Observer, Peer, ReadBuffer, serve};
use lmtp_text::Site;
use mail_post::{Sender, SlipReceiver};
use mail_world::limits::READ_LIMIT;
use msg_depot::{Depot, DepotName};
use std::marker::Brand;
use std::sync::Wait;

/// Serves clients, one after another, until there are no more, or a channel is found gone: then until that conversation
/// ends. The senders are the lane's, one to each worker thread, in the threads' order. The observer is told of each
/// reply, and of each end once the client was handed back. It takes no memory.
pub fn lane_run<N: DepotName, V: Visits, C: Clock, O: Observer, R: Wait>(
    rt: &R,
    lane: u32,
    site: &Site,
    desk: Desk,
    visits: V,
    depot: &Depot<N>,
    senders: Vec<Sender<N>>,
    slips: SlipReceiver,
    clock: &C,
    observer: O,
) -> LaneReport<N, V, O>
    requires site { desk.dialogue.session.site ≡ site.now }
    requires count { length senders.items ≡ threads_for (length site.now.boxes) }
    requires lane { HaveNumber lane senders.items }
    requires none_out { V.out visits ≡ false }
    ensures { HasServed (terms site.now READ_LIMIT) (C.May clock.now) (V.MayGive visits)
        (lane_start (V.finished visits) (V.over visits) (O.told observer) lane senders.items slips)
        (lane_end lane result) }
{
    lane_run_at(
        rt, lane, site, desk, visits, depot, senders, slips, clock, observer, READ_LIMIT,
    )
}

/// The same, where each conversation may make that many reads.
pub fn lane_run_at<N: DepotName, V: Visits, C: Clock, O: Observer, R: Wait>(
    rt: &R,
    lane: u32,
    site: &Site,
    desk: Desk,
    visits: V,
    depot: &Depot<N>,
    senders: Vec<Sender<N>>,
    slips: SlipReceiver,
    clock: &C,
    observer: O,
    reads: u32,
) -> LaneReport<N, V, O>
    requires site { desk.dialogue.session.site ≡ site.now }
    requires count { length senders.items ≡ threads_for (length site.now.boxes) }
    requires lane { HaveNumber lane senders.items }
    requires none_out { V.out visits ≡ false }
    ensures { HasServed (terms site.now reads) (C.May clock.now) (V.MayGive visits)
        (lane_start (V.finished visits) (V.over visits) (O.told observer) lane senders.items slips)
        (lane_end lane result) }
{
    let Desk {
        dialogue,
        buffer,
        gather,
    } = desk;
    let exchange = Exchange::new(*senders.allocator(), lane, senders, slips, gather);
    let bounded = BoundedDialogue {
        dialogue,
        buffer,
        reads,
    };
    lane_at::<Brand, N, V, C, O, R>(rt, bounded, exchange, visits, depot, clock, observer)
}

// A dialogue, the buffer that its clients are read with, and how many reads each conversation may make.
struct BoundedDialogue {
    dialogue: Dialogue,
    buffer: ReadBuffer,
    reads: u32,
}

// The same, at a type that stands for the lane's start.
fn lane_at<S: LaneStart, N: DepotName, V: Visits, C: Clock, O: Observer, R: Wait>(
    rt: &R,
    bounded: BoundedDialogue,
    exchange: Exchange<N>,
    visits: V,
    depot: &Depot<N>,
    clock: &C,
    observer: O,
) -> LaneReport<N, V, O>
    requires here { bounded.dialogue.session.site ≡ S.site }
    requires count { length exchange.senders.items ≡ threads_for (length S.site.boxes) }
    requires start { ends_of exchange ≡ record S.ends { gone = any_gone S.ends.senders } }
    requires none_missing { IsDone exchange.gather.gather }
    requires clock { AgreesWith (C.May clock.now) S.May }
    requires none_out { V.out visits ≡ false }
    ensures { HasServed (terms S.site bounded.reads) S.May (V.MayGive visits)
        (lane_state 0 (V.finished visits) (V.over visits) (O.told observer) S.ends) (lane_end S.ends.lane result) }
{
    let BoundedDialogue {
        mut dialogue,
        mut buffer,
        reads,
    } = bounded;
    let mut visits = visits;
    let mut observer = observer;
    let site = dialogue.session.site();
    let mut delivery: LaneDelivery<N, C, R, S> = LaneDelivery::new(
        rt, depot, clock, exchange, site,
    );
    let conversations = serve_all(
        rt,
        &mut dialogue,
        &mut buffer,
        &mut visits,
        &mut delivery,
        &mut observer,
        reads,
    );
    let Exchange {
        senders,
        slips,
        gone,
        ..
    } = delivery.exchange;
    LaneReport {
        visits,
        observer,
        senders,
        slips,
        conversations,
        gone,
    }
}

// Serves clients, one after another. The answer is how many conversations ended.
fn serve_all<'a, N: DepotName, V: Visits, C: Clock, O: Observer, R: Wait, S: LaneStart>(
    rt: &R,
    dialogue: &mut Dialogue,
    buffer: &mut ReadBuffer,
    visits: &mut V,
    delivery: &mut LaneDelivery<'a, N, C, R, S>,
    observer: &mut O,
    reads: u32,
) -> u64
    requires here { dialogue.old.session.site ≡ S.site }
    requires begun { HasOffered S.site S.May delivery.old.accepted S.ends
        (ends_of delivery.old.exchange) 0 [] }
    requires clock { AgreesWith (C.May delivery.old.clock.now) S.May }
    requires none_out { V.out visits.old ≡ false }
    ensures { HasServed (terms S.site reads) S.May (V.MayGive visits.old)
        (lane_state 0 (V.finished visits.old) (V.over visits.old) (O.told observer.old) S.ends)
        (lane_state result (V.finished visits.new) (V.over visits.new) (O.told observer.new)
        (ends_of delivery.new.exchange)) }
{
    let mut conversations: u64 = 0;
    for _ in rt.forever() {
        if delivery.exchange.gone {
            return conversations;
        }
        let Some(peer) = visits.next(rt) else {
            return conversations;
        };
        converse(dialogue, buffer, visits, delivery, observer, peer, reads);
        conversations = conversations.saturating_add(1);
    }
    unreachable!()
}

// Serves a client while no channel is gone, hands it back, and tells the observer so.
fn converse<'a, N: DepotName, V: Visits, C: Clock, O: Observer, R: Wait, S: LaneStart>(
    dialogue: &mut Dialogue,
    buffer: &mut ReadBuffer,
    visits: &mut V,
    delivery: &mut LaneDelivery<'a, N, C, R, S>,
    observer: &mut O,
    peer: V::P,
    reads: u32,
)
    requires here { S.site ≡ dialogue.old.session.site }
    requires sound { delivery.old.exchange.gone ≡ false }
    requires out { V.out visits.old ≡ true }
    ensures converses { HasConversed (terms dialogue.old.session.site reads) (V.P.state peer)
        (V.finished visits.old) (V.finished visits.new) (O.told observer.old) (O.told observer.new)
        (λ n ts. HasOffered S.site S.May delivery.old.accepted S.ends (ends_of delivery.old.exchange) n ts
        × AgreesWith (C.May delivery.old.clock.now) S.May)
        (λ n ts. HasOffered S.site S.May delivery.new.accepted S.ends (ends_of delivery.new.exchange) n ts
        × AgreesWith (C.May delivery.new.clock.now) S.May) }
    ensures others { (peer : PeerState) → V.MayGive visits.new peer → V.MayGive visits.old peer }
    ensures back { V.out visits.new ≡ false }
    ensures site { dialogue.new.session.site ≡ dialogue.old.session.site }
{
    let mut peer = peer;
    let end = serve(dialogue, buffer, &mut peer, delivery, observer, reads);
    let traffic = peer.traffic();
    visits.done(peer, end);
    observer.ended(end, traffic);
}
