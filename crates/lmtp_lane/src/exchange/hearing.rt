//! The slips of a message's copies come back.

ghost use Rattle.std.specs.Prelude.{◌≡◌, ◌++◌, ◌∷◌, [], true, None, Some, IfOk, IfErr, OnOk, OnErr};
ghost use Rattle.mail_post.specs.Channel.{taken, IsTimed, HasSameTimes};
ghost use Rattle.mail_post.specs.Gathering.{IsDone};
ghost use Rattle.lmtp_lane.specs.LaneExchange.{ends_of, sending_of, slips_gone, KeepsRoom, Awaits, GathersOne};

use super::Exchange;
use lmtp_session::Session;
use mail_post::{Gone, Moment, Sender, SlipReceiver};
use mail_world::Slip;
use msg_depot::DepotName;
use std::marker::Brand;
use std::sync::Wait;

// Takes a slip, after the picked time. The senders are there for the pick alone, which is a time after all that the
// lane knows.
fn take_slip<N: DepotName, K: Moment, R: Wait>(
    rt: &R,
    _senders: &Vec<Sender<N>>,
    slips: &mut SlipReceiver,
) -> Result<Slip, Gone>
    ensures same { (slips.new.channel ≡ slips.old.channel) × (slips.new.lanes ≡ slips.old.lanes) }
    ensures post { IfOk result (λ slip. taken slips.new ≡ taken slips.old ++ slip ∷ []) }
    ensures open_still { OnOk result ((slips.old.gone ≡ None) × (slips.new.gone ≡ None)) }
    ensures timed { OnOk result (IsTimed K.after slips.old slips.new) }
    ensures nothing { OnErr result (taken slips.new ≡ taken slips.old) }
    ensures no_time { OnErr result (HasSameTimes slips.old slips.new) }
    ensures gone { IfErr result (λ why. slips.new.gone ≡ Some why) }
{
    slips.take::<K, R>(rt)
}

impl<N: DepotName> Exchange<N> {
    /// The lane's own slip of a copy. A place that has its slip keeps it, and the answer is false.
    pub fn answer_failed(&mut self, slip: Slip) -> bool
        ensures same { ends_of self.new ≡ ends_of self.old }
        ensures room { KeepsRoom (sending_of self.old) (sending_of self.new) }
        ensures takes { GathersOne slip self.old.gather.gather self.new.gather.gather result }
    {
        match self.gather.put(slip) {
            Ok(()) => true,
            Err(_) => false,
        }
    }

    // Takes a slip. Where the channel of slips is gone the copy at that place is answered instead. The answer is the
    // place that is next.
    fn hear_next<R: Wait>(&mut self, rt: &R, session: &Session, number: u32, place: u32) -> u32
        ensures room { KeepsRoom (sending_of self.old) (sending_of self.new) }
        ensures way { Awaits number session.now.session (sending_of self.old) (sending_of self.new) }
    {
        match take_slip::<N, Brand, R>(rt, &self.senders, &mut self.slips) {
            Ok(slip) => {
                // A slip that isn't awaited changes nothing.
                let _ = self.gather.put(slip);
                place
            }
            Err(_) => {
                self.gone = true;
                self.answer_next(session, number, place)
            }
        }
    }

    // The copy at that place is answered Failed, unless it has its slip.
    fn answer_next(&mut self, session: &Session, number: u32, place: u32) -> u32
        requires gone { (self.old.gone ≡ true) × (slips_gone (ends_of self.old) ≡ true) }
        ensures room { KeepsRoom (sending_of self.old) (sending_of self.new) }
        ensures way { Awaits number session.now.session (sending_of self.old) (sending_of self.new) }
    {
        if place < session.recipient_count() {
            let slip = self.failed(number, place, session.recipient(place));
            self.answer_failed(slip);
            return place + 1;
        }
        place
    }

    /// Takes slips until each copy is answered.
    pub fn collect<R: Wait>(&mut self, rt: &R, session: &Session, number: u32)
        ensures room { KeepsRoom (sending_of self.old) (sending_of self.new) }
        ensures way { Awaits number session.now.session (sending_of self.old) (sending_of self.new) }
        ensures done { IsDone self.new.gather.gather }
    {
        let mut place = 0;
        for _ in rt.forever() {
            if self.gather.done() {
                return;
            }
            place = self.hear_next(rt, session, number, place);
        }
        unreachable!()
    }
}
