//! What a lane hands back.

use crate::visits::Visits;
use lmtp_talk::Observer;
use mail_post::{Sender, SlipReceiver};
use msg_depot::DepotName;
use std::marker::Model;

/// A lane's ends, its observer, and what became of its clients.
#[derive(Drop)]
pub struct LaneReport<N: DepotName, V: Visits, O: Observer> {
    pub visits: V,
    pub observer: O,
    pub senders: Vec<Sender<N>>,
    pub slips: SlipReceiver,
    /// How many conversations ended; it stays at its largest value.
    pub conversations: u64,
    /// A channel was found gone.
    pub gone: bool,
}

impl<N: DepotName, V: Visits, O: Observer> Model for LaneReport<N, V, O> {
    ghost use Rattle.lmtp_lane.specs.LaneRun.{LaneBack};

    ghost Value = { LaneBack };

    ghost view = { λ r. record {
      finished = V.finished r.visits;
      over = V.over r.visits;
      told = O.told r.observer;
      senders = r.senders.items;
      slips = r.slips;
      gone = r.gone;
      conversations = r.conversations;
    } };
}
