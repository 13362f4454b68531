//! The clients that a lane serves, one after another.

ghost use Rattle.std.specs.Prelude.{◌≡◌, Bool, IfSome, is_none, is_some, true, false};
ghost use Rattle.lmtp_talk.specs.Peer.{PeerState, RisesBy};
ghost use Rattle.lmtp_lane.specs.Visits.{VisitsTold, TellsFinished};

use lmtp_talk::{EndCause, Peer};
use std::sync::Wait;

/// Hands a lane its clients, and takes each back once its conversation has ended.
pub trait Visits: Drop {
    /// A client.
    type P: Peer;

    // the clients that it may hand out
    ghost MayGive: { Self → PeerState → Type 0 };

    // the conversations that have ended, in their order, where it tells them, and how many they are
    ghost finished: { Self → VisitsTold };

    // a client was handed out, and has not come back
    ghost out: { Self → Bool };

    // the last `next` had none
    ghost over: { Self → Bool };

    /// The next client, or none where there are no more.
    fn next<R: Wait>(&mut self, rt: &R) -> Option<Self::P>
        requires { out self.old ≡ false }
        ensures client { IfSome result (λ peer. MayGive self.old (Self.P.state peer)) }
        ensures others { (peer : PeerState) → MayGive self.new peer → MayGive self.old peer }
        ensures same { finished self.new ≡ finished self.old }
        ensures out { out self.new ≡ is_some result }
        ensures over { over self.new ≡ is_none result };

    /// Takes the client back, whose conversation ended for that cause.
    fn done(&mut self, peer: Self::P, end: EndCause)
        requires { out self.old ≡ true }
        ensures finishes { TellsFinished (finished self.old).each (finished self.new).each (Self.P.state peer) end }
        ensures counts { RisesBy 1 (finished self.old).count (finished self.new).count }
        ensures others { (peer : PeerState) → MayGive self.new peer → MayGive self.old peer }
        ensures back { out self.new ≡ false }
        ensures same { over self.new ≡ over self.old };
}
